// Whether a file is judged at all: the file codes, in their order.
ghost use Rattle.std.specs.Prelude.{◌≡◌, if◌then◌else◌, Ok, Err, nat_lt};
ghost use Rattle.calls.specs.Asked.{handed_over};
ghost use Rattle.file.specs.Counts.{found_in};
ghost use Rattle.promises.specs.Calls.{check_gate, post_gate};
ghost use Rattle.promises.specs.Packets.{packet_length};
ghost use Rattle.filing.specs.Admitting.{with_code, admitted_by};

use book::Book;
use calls::call::Handed;
use calls::fault::FileFault;
use file::opening::Opening;
use file::tally::Found;

// A file that is judged: how it opens, and how much is in it.
#[derive(Clone, Copy)]
pub(crate) struct Admitted {
    pub(crate) opening: Opening,
    pub(crate) found: Found,
}

// Whether a packet buffer of this length has room for the verdicts: 20 bytes, and 16 for each transaction.
fn check_room(room: usize, transactions: usize) -> Result<(), FileFault>
    ensures { result ≡ (if nat_lt room (packet_length transactions) then Err FileFault.NoRoom else Ok tt) }
{
    if room < 20 || (room - 20) / 16 < transactions {
        Err(FileFault::NoRoom)
    } else {
        Ok(())
    }
}

// A file that opens, and for whose verdicts there is room.
fn admit_opened(handed: &Handed<'_>, opening: Opening) -> Result<Admitted, FileFault>
    ensures { let found = found_in handed.now.file.now in result ≡ (if nat_lt handed.now.room (packet_length found.transactions) then Err FileFault.NoRoom else Ok (record { opening = opening; found = found })) }
{
    let found = Found::of(handed.file);
    check_room(handed.room, found.transactions)?;
    Ok(Admitted { opening, found })
}

// Codes 1 to 5, and 7.
pub(crate) fn admit_check(handed: &Handed<'_>) -> Result<Admitted, FileFault>
    ensures { with_code result ≡ admitted_by (check_gate (handed_over handed.now)) (found_in handed.now.file.now) }
{
    let opening = Opening::of(handed.file)?;
    admit_opened(handed, opening)
}

// Codes 1 to 8.
pub(crate) fn admit_post<B: Book>(book: &B, handed: &Handed<'_>) -> Result<Admitted, FileFault>
    ensures { with_code result ≡ admitted_by (post_gate (B.Book.meaning book.now) (handed_over handed.now)) (found_in handed.now.file.now) }
{
    let opening = Opening::of(handed.file)?;
    if book.mark(&opening.id).is_some() {
        return Err(FileFault::Marked);
    }
    let admitted = admit_opened(handed, opening)?;
    if book.free().marks == 0 {
        return Err(FileFault::NoMarkPlace);
    }
    Ok(admitted)
}
