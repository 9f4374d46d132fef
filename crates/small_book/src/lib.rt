// The small book: it holds its tables in itself, in order of arrival.
#![tactic(auto)]

ghost use Rattle.std.specs.Prelude.{◌≡◌};
ghost use Rattle.book.specs.Meaning.{empty_book};
ghost use Rattle.small_book.specs.Small.{small_means};

use book::Book;
use book::entry::Entry;
use book::entry_row::EntryRow;
use book::fault::BookFault;
use book::line::Line;
use book::line_number::LineNumber;
use book::line_row::LineRow;
use book::mark::{Counts, Mark};
use book::mark_row::MarkRow;
use book::new_entry::NewEntry;
use book::places::FreePlaces;
use book::sought::Sought;
use book::tables::Tables;
use layout::pair::Pair;
use ordered::arrivals::Arrivals;

#[derive(Drop)]
pub struct SmallBook {
    tables: Tables<Arrivals<EntryRow, 64>, Arrivals<LineRow, 512>, Arrivals<MarkRow, 16>>,
}

// Three tables that hold nothing. A function of its own: written out in `new`, the compiler makes the book beside its place and copies it there.
fn new_tables() -> Tables<Arrivals<EntryRow, 64>, Arrivals<LineRow, 512>, Arrivals<MarkRow, 16>>
    ensures { small_means result ≡ empty_book 64 512 16 }
{
    Tables {
        entries: Arrivals::new(EntryRow::unused()),
        lines: Arrivals::new(LineRow::unused()),
        marks: Arrivals::new(MarkRow::unused()),
    }
}

impl SmallBook {
    // A book that holds nothing, with 64 entry places, 512 line places and 16 mark places.
    pub fn new() -> SmallBook
        ensures { small_means result.tables ≡ empty_book 64 512 16 }
    {
        SmallBook {
            tables: new_tables(),
        }
    }
}

// Hands each call on to the tables: a `new` of its own needs a type of its own, and that an impl of its own.
impl Book for SmallBook {
    ghost meaning = { λ b. small_means b.tables };

    fn enter_entry(&mut self, pair: &Pair, new: NewEntry) -> Result<(), BookFault> {
        self.tables.enter_entry(pair, new)
    }

    fn enter_line(
        &mut self,
        pair: &Pair,
        number: LineNumber,
        line: &Line,
    ) -> Result<(), BookFault> {
        self.tables.enter_line(pair, number, line)
    }

    fn take_open(&mut self, pair: &Pair, amount: u64) -> Result<(), BookFault> {
        self.tables.take_open(pair, amount)
    }

    fn set_mark(&mut self, file: &[u8; 19], mark: Mark) -> Result<(), BookFault> {
        self.tables.set_mark(file, mark)
    }

    fn entry(&self, pair: &Pair) -> Option<Entry> {
        self.tables.entry(pair)
    }

    fn line(&self, pair: &Pair, number: LineNumber) -> Option<Line> {
        self.tables.line(pair, number)
    }

    fn mark(&self, file: &[u8; 19]) -> Option<Mark> {
        self.tables.mark(file)
    }

    fn free(&self) -> FreePlaces {
        self.tables.free()
    }

    fn seek(&self, office: &[u8; 5]) -> Option<Sought> {
        self.tables.seek(office)
    }

    fn count(&self) -> Counts {
        self.tables.count()
    }

    fn stands(&self) {
        self.tables.stands();
    }
}
