// Any list of calls on a book.
ghost use Rattle.std.specs.Prelude.{◌≡◌, IfOk, MatchResult};
ghost use Rattle.calls.specs.Asked.{handed_over, asked_by, asked, reply_in};
ghost use Rattle.promises.specs.Calls.{called, run, check_answer, post_answer, post_book};
ghost use Rattle.promises.specs.After.{PromisedAfter};
ghost use Rattle.promises.specs.Replies.{of_file, Answers, AllAnswer};
ghost use Rattle.gateway.specs.Made.{replies_of, made_of};
ghost use Rattle.gateway.specs.Running.{usable_room, answer_in};

use book::Book;
use calls::answer::Answer;
use calls::call::{Call, Handed};
use calls::fault::FileFault;
use calls::questions::{count, seek, show};
use file::opening::Opening;
use file::tally::Found;
use filing::files::{check, post};
use register::five::Registers;
use std::alloc::{AllocError, Global};

// How long a packet buffer a file can use of the length that the call names: what its packet needs, and none where it does not open.
fn usable_room(handed: &Handed<'_>) -> usize
    ensures { result ≡ usable_room (handed_over handed.now) }
{
    match Opening::of(handed.file) {
        Ok(_) => {
            let needed = 20 + 16 * Found::of(handed.file).transactions;
            handed.room.min(needed)
        }
        Err(_) => 0,
    }
}

// The packet at the front of a buffer, or the refusal.
fn answer_of(mut buffer: Vec<u8>, done: Result<usize, FileFault>) -> Answer
    ensures { reply_in result ≡ of_file (answer_in done buffer.items) }
{
    match done {
        Ok(n) => {
            buffer.truncate(n);
            Answer::Packet(buffer)
        }
        Err(fault) => Answer::Refused(fault),
    }
}

// Check, with a packet of its own.
// Beside make_post: a closure for the call would hide what it does to the book, and a trait for it would take two structs and two impls for one line of difference.
fn make_check<R: Registers, B: Book>(
    heap: Global,
    registers: &R,
    book: &B,
    handed: &Handed<'_>,
) -> Result<Answer, AllocError>
    ensures { IfOk result (λ a. reply_in a ≡ of_file (check_answer (R.Registers.holds registers.now) (B.Book.meaning book.now) (handed_over handed.now))) }
{
    let mut packet = vec![in heap; 0; usable_room(handed)]?;
    let done = check(
        registers,
        book,
        handed.file,
        handed.day,
        packet.as_mut_slice(),
    );
    Ok(answer_of(packet, done))
}

// Post, with a packet of its own; without memory for it the book stays as it is.
fn make_post<R: Registers, B: Book>(
    heap: Global,
    registers: &R,
    book: &mut B,
    handed: &Handed<'_>,
) -> Result<Answer, AllocError>
    ensures { MatchResult result (λ a. (reply_in a ≡ of_file (post_answer (R.Registers.holds registers.now) (B.Book.meaning book.old) (handed_over handed.now))) × (B.Book.meaning book.new ≡ post_book (R.Registers.holds registers.now) (B.Book.meaning book.old) (handed_over handed.now))) (λ _. B.Book.meaning book.new ≡ B.Book.meaning book.old) }
{
    let mut packet = vec![in heap; 0; usable_room(handed)]?;
    let done = post(
        registers,
        book,
        handed.file,
        handed.day,
        packet.as_mut_slice(),
    );
    Ok(answer_of(packet, done))
}

// One call. Without memory for its answer it is not made.
fn make<R: Registers, B: Book>(
    heap: Global,
    registers: &R,
    book: &mut B,
    call: &Call<'_>,
) -> Result<Answer, AllocError>
    ensures { MatchResult result (λ a. Answers (R.Registers.holds registers.now) (B.Book.meaning book.old) (asked_by call.now) (reply_in a) × (B.Book.meaning book.new ≡ called (R.Registers.holds registers.now) (B.Book.meaning book.old) (asked_by call.now))) (λ _. B.Book.meaning book.new ≡ B.Book.meaning book.old) }
{
    match call {
        Call::Check(handed) => make_check(heap, registers, book, handed),
        Call::Post(handed) => make_post(heap, registers, book, handed),
        Call::Show(pair) => Ok(Answer::Shown(show(book, pair))),
        Call::Seek(office) => Ok(Answer::Sought(seek(book, office))),
        Call::Count => Ok(Answer::Counted(count(book))),
    }
}

// There was no memory for the next answer, so that its call was not made: the answers of the calls that were.
#[derive(PartialEq, Eq, Debug, Drop)]
pub struct Cut {
    pub answers: Vec<Answer>,
}

// Makes the calls in their order and answers each. Where memory is wanting, no further call is made, and the book is the one
// after exactly the calls that are answered.
pub fn run<R: Registers, B: Book>(
    heap: Global,
    registers: &R,
    book: &mut B,
    calls: &[Call<'_>],
) -> Result<Vec<Answer>, Cut>
    ensures answers { AllAnswer (R.Registers.holds registers.now) (B.Book.meaning book.old) (made_of result (asked calls.now)) (replies_of result) }
    ensures book { B.Book.meaning book.new ≡ run (R.Registers.holds registers.now) (B.Book.meaning book.old) (made_of result (asked calls.now)) }
    ensures promised { PromisedAfter (R.Registers.holds registers.now) (B.Book.meaning book.old) (B.Book.meaning book.new) (made_of result (asked calls.now)) }
{
    let mut answers = Vec::new(heap);
    for call in calls {
        if answers.reserve(1).is_err() {
            return Err(Cut { answers });
        }
        match make(heap, registers, book, call) {
            Ok(answer) => answers.push_reserved(answer),
            Err(_) => return Err(Cut { answers }),
        }
    }
    Ok(answers)
}
