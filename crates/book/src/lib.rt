// The book of originals: what a book is, and what every make of it does.
#![tactic(auto)]

ghost use Rattle.std.specs.Prelude.{◌≡◌};
ghost use Rattle.std.specs.Option.{option_map};
ghost use Rattle.book.specs.Meaning.{BookMeaning, fresh, line_under, mark_under, entry_at, line_at, mark_at, line_told, mark_told, free_places, counted};
ghost use Rattle.book.specs.Told.{told, entry_told, MaySeek};
ghost use Rattle.book.specs.Actions.{entry_answer, entering, line_answer, entering_line, take_answer, taking, mark_answer, marking};
ghost use Rattle.book.specs.Stands.{Stands};

use self::entry::Entry;
use self::fault::BookFault;
use self::line::Line;
use self::line_number::LineNumber;
use self::mark::{Counts, Mark};
use self::new_entry::NewEntry;
use self::places::FreePlaces;
use self::sought::Sought;
use layout::pair::Pair;

pub mod entry;
pub mod entry_row;
pub mod fault;
pub mod line;
pub mod line_number;
pub mod line_row;
pub mod mark;
pub mod mark_row;
pub mod new_entry;
pub mod places;
pub mod sought;
pub mod tables;

// Four actions, which a book refuses without change, and the questions, which change nothing.
pub trait Book {
    ghost meaning: { Self → BookMeaning };

    // Enters an entry, its open amount equal to its total.
    fn enter_entry(&mut self, pair: &Pair, new: NewEntry) -> Result<(), BookFault>
        ensures answer { result ≡ entry_answer (meaning self.old) (fresh pair.now new) }
        ensures after { meaning self.new ≡ entering (meaning self.old) (fresh pair.now new) };

    // Enters a line.
    fn enter_line(&mut self, pair: &Pair, number: LineNumber, line: &Line) -> Result<(), BookFault>
        ensures answer { result ≡ line_answer (meaning self.old) (line_under pair.now number.value line.now) }
        ensures after { meaning self.new ≡ entering_line (meaning self.old) (line_under pair.now number.value line.now) };

    // Takes an amount from the open amount of an entry.
    fn take_open(&mut self, pair: &Pair, amount: u64) -> Result<(), BookFault>
        ensures answer { result ≡ take_answer (meaning self.old) pair.now amount }
        ensures after { meaning self.new ≡ taking (meaning self.old) pair.now amount };

    // Sets the mark of a File ID Number.
    fn set_mark(&mut self, file: &[u8; 19], mark: Mark) -> Result<(), BookFault>
        ensures answer { result ≡ mark_answer (meaning self.old) (mark_under file.now mark) }
        ensures after { meaning self.new ≡ marking (meaning self.old) (mark_under file.now mark) };

    fn entry(&self, pair: &Pair) -> Option<Entry>
        ensures { option_map told result ≡ option_map entry_told (entry_at (meaning self.now) pair.now) };

    fn line(&self, pair: &Pair, number: LineNumber) -> Option<Line>
        ensures { result ≡ option_map line_told (line_at (meaning self.now) pair.now number.value) };

    fn mark(&self, file: &[u8; 19]) -> Option<Mark>
        ensures { result ≡ option_map mark_told (mark_at (meaning self.now) file.now) };

    // Each capacity less what is held.
    fn free(&self) -> FreePlaces
        ensures { result ≡ free_places (meaning self.now) };

    // Some payment or collection of this office with an open amount above zero, or nothing if there is none.
    fn seek(&self, office: &[u8; 5]) -> Option<Sought>
        ensures { MaySeek (meaning self.now) office.now result };

    // The sums of the marks' counts.
    fn count(&self) -> Counts
        ensures { result ≡ counted (meaning self.now) };

    // A lemma, with no work: what every book keeps.
    fn stands(&self)
        ensures { Stands (meaning self.now) };
}

// The line with this number under a pair; no book holds a line with a number that is not from 1 to 1,000.
pub fn line_of<B: Book>(book: &B, pair: &Pair, number: u32) -> Option<Line>
    ensures { result ≡ option_map line_told (line_at (B.Book.meaning book.now) pair.now number) }
{
    match LineNumber::new(number) {
        Some(number) => book.line(pair, number),
        None => {
            book.stands();
            None
        }
    }
}
