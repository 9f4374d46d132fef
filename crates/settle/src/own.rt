// A candidate where it is to be entered: nothing held under its own pair, and places enough.
ghost use Rattle.std.specs.Prelude.{◌≡◌, ◌≤◌, [], ◌∷◌, ◌++◌, Some, length, is_some};
ghost use Rattle.book.specs.Meaning.{entry_at, line_at};
ghost use Rattle.file.specs.Records.{records};
ghost use Rattle.promises.specs.Held.{at};
ghost use Rattle.promises.specs.Own.{own_column, has_places, lines_of, no_lines, own_pair_checks, place_checks};
ghost use Rattle.transaction.specs.Details.{details_of};
ghost use Rattle.transaction.specs.Verdicts.{check, verdict};
ghost use Rattle.settle.specs.Faults.{outcome};

use crate::candidate::Candidate;
use crate::fault::SettleFault;
use book::{Book, line_of};
use layout::pair::Pair;
use layout::set_id::SetId;

// The column of the own reference; 840 has none: 1, not None, as the definition says.
fn own_column(set: SetId) -> usize
    ensures { result ≡ own_column set }
{
    match set {
        SetId::Payment | SetId::Collection => 40,
        SetId::ReceiverAdjustment | SetId::SenderAdjustment => 55,
        SetId::ZeroDollar => 26,
        SetId::PostSgl => 1,
    }
}

fn has_entry<B: Book>(book: &B, pair: &Pair) -> bool
    ensures { result ≡ is_some (entry_at (B.Book.meaning book.now) pair.now) }
{
    book.entry(pair).is_some()
}

fn has_line<B: Book>(book: &B, pair: &Pair, number: u32) -> bool
    ensures { result ≡ is_some (line_at (B.Book.meaning book.now) pair.now number) }
{
    line_of(book, pair, number).is_some()
}

impl Candidate<'_> {
    // How many lines become of it: none under 835, and 840 enters nothing.
    fn lines(&self) -> usize
        ensures value { let s = self.now.sound in result ≡ length (lines_of s.transaction (details_of (records s.body.now))) }
        ensures few { result ≤ 1000 }
    {
        match self.set() {
            SetId::ZeroDollar | SetId::PostSgl => 0,
            _ => self.sound.details,
        }
    }

    // Whether no line is held under the pair with a number that one of its lines would have.
    fn has_no_line<B: Book>(&self, book: &B, pair: &Pair) -> bool
        ensures { let s = self.now.sound in result ≡ no_lines 1 (lines_of s.transaction (details_of (records s.body.now))) (line_at (B.Book.meaning book.now) pair.now) }
    {
        for number in 1..=self.lines() as u32 {
            if has_line(book, pair, number) {
                return false;
            }
        }
        true
    }

    fn check_pair<B: Book>(&self, book: &B, pair: &Pair) -> Result<(), SettleFault>
        ensures { let s = self.now.sound in outcome result ≡ verdict (own_pair_checks s.transaction (details_of (records s.body.now)) (at (B.Book.meaning book.now) pair.now)) }
    {
        if has_entry(book, pair) || !self.has_no_line(book, pair) {
            return Err(SettleFault::PairHeld {
                column: own_column(self.set()),
            });
        }
        Ok(())
    }

    fn check_places<B: Book>(&self, book: &B) -> Result<(), SettleFault>
        ensures { let s = self.now.sound in outcome result ≡ verdict (check (has_places (B.Book.meaning book.now) (length (lines_of s.transaction (details_of (records s.body.now))))) 67 0 1 ∷ []) }
    {
        let free = book.free();
        if free.entries < 1 || free.lines < self.lines() {
            return Err(SettleFault::NoPlaces);
        }
        Ok(())
    }

    // The pair, then the places.
    pub(crate) fn check_entering<B: Book>(&self, book: &B, pair: &Pair) -> Result<(), SettleFault>
        ensures { let s = self.now.sound in outcome result ≡ verdict (own_pair_checks s.transaction (details_of (records s.body.now)) (at (B.Book.meaning book.now) pair.now) ++ place_checks (B.Book.meaning book.now) s.transaction (details_of (records s.body.now)) (Some pair.now)) }
    {
        self.check_pair(book, pair)?;
        self.check_places(book)
    }
}
