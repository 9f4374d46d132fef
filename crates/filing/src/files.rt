// Check and post: a file judged, and its packet.
ghost use Rattle.std.specs.Prelude.{◌≡◌, ◌-◌, ◌≤◌, [], ◌∷◌, length};
ghost use Rattle.book.specs.Actions.{marking};
ghost use Rattle.book.specs.Meaning.{mark_under};
ghost use Rattle.calls.specs.Asked.{handed_over};
ghost use Rattle.file.specs.Records.{transactions_of};
ghost use Rattle.calls.specs.Codes.{file_code};
ghost use Rattle.packet.specs.Written.{written, refusal_length, refusal_in};
ghost use Rattle.promises.specs.Calls.{checked, posted, check_answer, post_answer, post_book, posting};
ghost use Rattle.promises.specs.Entering.{after};
ghost use Rattle.promises.specs.Packets.{file_item, verdict_items, accepted_count, packet_length};
ghost use Rattle.promises.specs.After.{PromisedAfter};
ghost use Rattle.promises.specs.Replaced.{handed};
ghost use Rattle.filing.specs.Admitting.{with_code};
ghost use Rattle.filing.specs.Filed.{length_of, packet_in};

use crate::admit::{Admitted, admit_check, admit_post};
use crate::writing::Progress;
use book::Book;
use book::mark::Mark;
use calls::call::Handed;
use calls::fault::FileFault;
use file::opening::body;
use file::transactions::Transactions;
use packet::{file_item, put};
use register::five::Registers;
use settle::{judge, settle};

// The verdicts of check behind the first 20 bytes of the packet; how many are accepted.
// Beside post_each: a closure for the step would hide what it does to the book, and a trait for it would take two structs and two impls for one line of difference.
fn check_each<R: Registers, B: Book>(
    registers: &R,
    book: &B,
    handed: &Handed<'_>,
    packet: &mut [u8],
) -> usize
    requires { packet_length (length (transactions_of handed.now.file.now)) ≤ length packet.old }
    ensures accepted { result ≡ accepted_count (checked (R.Registers.holds registers.now) (B.Book.meaning book.now) (handed_over handed.now)) }
    ensures packet { packet.new ≡ written packet.old 20 (verdict_items 1 (checked (R.Registers.holds registers.now) (B.Book.meaning book.now) (handed_over handed.now))) }
{
    let mut progress = Progress {
        verdicts: 0,
        accepted: 0,
    };
    for text in Transactions::of(body(handed.file)) {
        progress.add(packet, judge(book, registers, handed.day, text));
    }
    progress.accepted
}

// The verdicts of post behind the first 20 bytes of the packet, the accepted transactions entered; how many are accepted.
fn post_each<R: Registers, B: Book>(
    registers: &R,
    book: &mut B,
    handed: &Handed<'_>,
    packet: &mut [u8],
) -> usize
    requires { packet_length (length (transactions_of handed.now.file.now)) ≤ length packet.old }
    ensures accepted { result ≡ accepted_count (posted (R.Registers.holds registers.now) (B.Book.meaning book.old) (handed_over handed.now)) }
    ensures packet { packet.new ≡ written packet.old 20 (verdict_items 1 (posted (R.Registers.holds registers.now) (B.Book.meaning book.old) (handed_over handed.now))) }
    ensures book { B.Book.meaning book.new ≡ after (R.Registers.holds registers.now) (B.Book.meaning book.old) handed.now.day (transactions_of handed.now.file.now) }
{
    let mut progress = Progress {
        verdicts: 0,
        accepted: 0,
    };
    for text in Transactions::of(body(handed.file)) {
        progress.add(packet, settle(book, registers, handed.day, text));
    }
    progress.accepted
}

// The item of the file, in front of the verdicts; how long the packet is.
fn put_file_item(packet: &mut [u8], admitted: &Admitted, accepted: usize) -> usize
    requires { packet_length admitted.now.found.transactions ≤ length packet.old }
    ensures length { result ≡ packet_length admitted.now.found.transactions }
    ensures packet { packet.new ≡ written packet.old 0 (file_item admitted.now.opening.stated admitted.now.found.records admitted.now.found.transactions accepted) }
{
    let found = admitted.found;
    let item = file_item(
        admitted.opening.stated,
        found.records,
        found.transactions,
        accepted,
    );
    let _ = put(packet, 0, &item);
    20 + 16 * found.transactions
}

// Judges each transaction of a file alone against the book, which it leaves as it is. It answers the length of the packet.
pub fn check<R: Registers, B: Book>(
    registers: &R,
    book: &B,
    file: &[u8],
    day: u32,
    packet: &mut [u8],
) -> Result<usize, FileFault>
    ensures answer { with_code result ≡ length_of (check_answer (R.Registers.holds registers.now) (B.Book.meaning book.now) (handed file.now day (length packet.old))) }
    ensures packet { packet.new ≡ packet_in packet.old (check_answer (R.Registers.holds registers.now) (B.Book.meaning book.now) (handed file.now day (length packet.old))) }
{
    let handed = Handed {
        file,
        day,
        room: packet.len(),
    };
    let admitted = admit_check(&handed)?;
    let accepted = check_each(registers, book, &handed, packet);
    Ok(put_file_item(packet, &admitted, accepted))
}

// Marks the file, with how many of its transactions were accepted and rejected.
fn mark_file<B: Book>(book: &mut B, admitted: &Admitted, accepted: usize)
    requires accepted { accepted ≤ admitted.now.found.transactions }
    requires few { admitted.now.found.transactions ≤ 16777216 }
    ensures { B.Book.meaning book.new ≡ marking (B.Book.meaning book.old) (mark_under admitted.now.opening.id (record { accepted = accepted; rejected = admitted.now.found.transactions - accepted })) }
{
    let mark = Mark {
        accepted: accepted as u32,
        rejected: (admitted.found.transactions - accepted) as u32,
    };
    let _ = book.set_mark(&admitted.opening.id, mark);
}

// Judges the transactions of a file in their order, each against the book with the accepted ones before it entered, and then
// marks the file. It answers the length of the packet. A refused file changes neither the book nor the packet.
pub fn post<R: Registers, B: Book>(
    registers: &R,
    book: &mut B,
    file: &[u8],
    day: u32,
    packet: &mut [u8],
) -> Result<usize, FileFault>
    ensures answer { with_code result ≡ length_of (post_answer (R.Registers.holds registers.now) (B.Book.meaning book.old) (handed file.now day (length packet.old))) }
    ensures packet { packet.new ≡ packet_in packet.old (post_answer (R.Registers.holds registers.now) (B.Book.meaning book.old) (handed file.now day (length packet.old))) }
    ensures book { B.Book.meaning book.new ≡ post_book (R.Registers.holds registers.now) (B.Book.meaning book.old) (handed file.now day (length packet.old)) }
    ensures promised { PromisedAfter (R.Registers.holds registers.now) (B.Book.meaning book.old) (B.Book.meaning book.new) (posting (handed file.now day (length packet.old)) ∷ []) }
{
    let handed = Handed {
        file,
        day,
        room: packet.len(),
    };
    let admitted = admit_post(book, &handed)?;
    let accepted = post_each(registers, book, &handed, packet);
    mark_file(book, &admitted, accepted);
    Ok(put_file_item(packet, &admitted, accepted))
}

// Writes the item of kind 3 for a refused file into a buffer of at least six bytes, and nothing into a shorter one. It answers how many bytes it wrote.
pub fn refusal(buffer: &mut [u8], fault: FileFault) -> usize
    ensures value { result ≡ refusal_length buffer.old }
    ensures buffer { buffer.new ≡ refusal_in buffer.old (file_code fault) }
{
    packet::refusal(buffer, fault.code())
}
