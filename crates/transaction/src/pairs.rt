// The pairs that a transaction touches in a book: its own and its original's.
ghost use Rattle.std.specs.Prelude.{◌≡◌};
ghost use Rattle.file.specs.Records.{records, first_of};
ghost use Rattle.transaction.specs.Pairs.{pairs_of};

use crate::header::Transaction;
use crate::own::Known;
use layout::pair::Pair;
use register::five::Registers;

#[derive(Clone, Copy, PartialEq, Eq, Debug)]
pub struct Pairs {
    pub own: Option<Pair>,
    pub original: Option<Pair>,
}

// The pairs of a transaction: none where its header is refused.
pub fn pairs_of<R: Registers>(text: &[u8], registers: &R) -> Pairs
    ensures { result ≡ pairs_of (R.Registers.holds registers.now) (first_of (records text.now)) }
{
    match Known::of(text) {
        Some(known) if known.check_header(registers).is_ok() => {
            let transaction = Transaction::of(known.set, known.header.bytes());
            Pairs {
                own: transaction.own(),
                original: transaction.original(),
            }
        }
        _ => Pairs {
            own: None,
            original: None,
        },
    }
}
