// The call that judges a transaction on its own.
ghost use Rattle.std.specs.Prelude.{◌≡◌, IfOk};
ghost use Rattle.file.specs.Records.{records};
ghost use Rattle.transaction.specs.Checks.{own_checks, own_verdict};
ghost use Rattle.transaction.specs.Layers.{outcome};
ghost use Rattle.transaction.specs.Sounds.{SoundOf};
ghost use Rattle.transaction.specs.Verdicts.{Counts, FirstCounts};

use crate::fault::{RecordCause, RecordFault, TransactionFault};
use crate::header::Transaction;
use crate::own::Known;
use register::five::Registers;

// A transaction that has passed every check of its own: its header, how many details it has, and the text of the records behind the header, in which they stand.
#[derive(Clone, Copy, PartialEq, Eq, Debug)]
pub struct Sound<'a> {
    pub transaction: Transaction,
    pub details: usize,
    pub body: &'a [u8],
}

// A transaction, from its header on, judged on its own. The verdict is that of the one list of checks: sound exactly if every check passes, and else
// that of a failing check before which all pass.
pub fn read<'a, R: Registers>(text: &'a [u8], registers: &R) -> Result<Sound<'a>, TransactionFault>
    ensures verdict { outcome result ≡ own_verdict (R.Registers.holds registers.now) (records text.now) }
    ensures first { Counts (own_checks (R.Registers.holds registers.now) (records text.now)) (outcome result) }
    ensures reading { IfOk result (λ s. SoundOf (records text.now) s.transaction s.details s.body.now) }
{
    let Some(known) = Known::of(text) else {
        return Err(TransactionFault::Record(RecordFault {
            number: 0,
            cause: RecordCause::SetIdUnknown,
        }));
    };
    let details = known.check(registers)?;
    Ok(Sound {
        transaction: Transaction::of(known.set, known.header.bytes()),
        details,
        body: known.body,
    })
}
