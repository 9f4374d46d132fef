// A transaction judged on its own and then against a book of any make, and entered if it is accepted.
#![tactic(auto)]

ghost use Rattle.std.specs.Prelude.{◌≡◌};
ghost use Rattle.file.specs.Records.{records};
ghost use Rattle.promises.specs.Entering.{entered};
ghost use Rattle.promises.specs.Judging.{all_checks, judge};
ghost use Rattle.transaction.specs.Verdicts.{Counts};

use self::candidate::Candidate;
use self::fault::verdict_of;
use book::Book;
use register::five::Registers;
use transaction::verdict::Verdict;

mod against;
mod candidate;
mod enter;
pub mod fault;
mod original;
mod own;

// The verdict on a transaction, from its header on, judged for a day: that of the one list of checks, on its own and then against
// the book. Accepted exactly if every check passes, and else the verdict of a failing check before which all pass.
pub fn judge<B: Book, R: Registers>(book: &B, registers: &R, day: u32, text: &[u8]) -> Verdict
    ensures verdict { result ≡ judge (R.Registers.holds registers.now) (B.Book.meaning book.now) day (records text.now) }
    ensures first { Counts (all_checks (R.Registers.holds registers.now) (B.Book.meaning book.now) day (records text.now)) result }
{
    match Candidate::of(text, registers) {
        Ok(candidate) => verdict_of(candidate.check(book, day)),
        Err(fault) => fault.verdict(),
    }
}

// A transaction, from its header on, judged for a day and entered if it is accepted. A rejected one leaves the book as it is.
pub fn settle<B: Book, R: Registers>(book: &mut B, registers: &R, day: u32, text: &[u8]) -> Verdict
    ensures verdict { result ≡ judge (R.Registers.holds registers.now) (B.Book.meaning book.old) day (records text.now) }
    ensures first { Counts (all_checks (R.Registers.holds registers.now) (B.Book.meaning book.old) day (records text.now)) result }
    ensures after { B.Book.meaning book.new ≡ entered (R.Registers.holds registers.now) (B.Book.meaning book.old) day (records text.now) }
{
    match Candidate::of(text, registers) {
        Ok(candidate) => candidate.settle(book, day),
        Err(fault) => fault.verdict(),
    }
}
