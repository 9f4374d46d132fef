// Every check of a candidate against a book, in the order in which they count, and what follows them.
ghost use Rattle.std.specs.Prelude.{◌≡◌, ◌++◌, Some};
ghost use Rattle.file.specs.Records.{records};
ghost use Rattle.promises.specs.Against.{original_checks};
ghost use Rattle.promises.specs.Entering.{apply_if};
ghost use Rattle.promises.specs.Held.{checks_at};
ghost use Rattle.promises.specs.Judging.{book_checks};
ghost use Rattle.promises.specs.Own.{own_pair_checks, place_checks};
ghost use Rattle.transaction.specs.Details.{details_of};
ghost use Rattle.transaction.specs.Headers.{own_pair, original_pair};
ghost use Rattle.transaction.specs.Verdicts.{verdict};
ghost use Rattle.settle.specs.Faults.{outcome};

use crate::candidate::Candidate;
use crate::fault::SettleFault;
use book::Book;
use transaction::verdict::Verdict;

impl Candidate<'_> {
    // What it adjusts or posts to, if anything.
    fn check_any_original<B: Book>(&self, book: &B, day: u32) -> Result<(), SettleFault>
        ensures { let s = self.now.sound in outcome result ≡ verdict (checks_at (B.Book.meaning book.now) (original_pair s.transaction) (original_checks day s.transaction (details_of (records s.body.now)))) }
    {
        match self.sound.transaction.original() {
            Some(pair) => self.check_original(book, &pair, day),
            None => Ok(()),
        }
    }

    // What it is entered under, if anything.
    fn check_own<B: Book>(&self, book: &B) -> Result<(), SettleFault>
        ensures { let s = self.now.sound in outcome result ≡ verdict (checks_at (B.Book.meaning book.now) (own_pair s.transaction) (own_pair_checks s.transaction (details_of (records s.body.now))) ++ place_checks (B.Book.meaning book.now) s.transaction (details_of (records s.body.now)) (own_pair s.transaction)) }
    {
        match self.sound.transaction.own() {
            Some(pair) => self.check_entering(book, &pair),
            None => Ok(()),
        }
    }

    pub(crate) fn check<B: Book>(&self, book: &B, day: u32) -> Result<(), SettleFault>
        ensures { let s = self.now.sound in outcome result ≡ verdict (book_checks (B.Book.meaning book.now) day s.transaction (details_of (records s.body.now))) }
    {
        self.check_any_original(book, day)?;
        self.check_own(book)
    }

    // Its verdict against the book, which it is entered in if it is accepted. Nothing is entered or taken before every check has passed.
    pub(crate) fn settle<B: Book>(&self, book: &mut B, day: u32) -> Verdict
        ensures verdict { let s = self.now.sound in result ≡ verdict (book_checks (B.Book.meaning book.old) day s.transaction (details_of (records s.body.now))) }
        ensures after { let s = self.now.sound in B.Book.meaning book.new ≡ apply_if result day (Some s.transaction) (details_of (records s.body.now)) (B.Book.meaning book.old) }
    {
        match self.check(book, day) {
            Ok(()) => {
                self.enter(book, day);
                Verdict::Accepted
            }
            Err(fault) => fault.verdict(),
        }
    }
}
