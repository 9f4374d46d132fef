// The lent book: its tables stand in memory that the caller lends, in the order of their keys.
#![tactic(auto)]

ghost use Rattle.std.specs.Prelude.{◌≡◌, ℕ, min, length};
ghost use Rattle.book.specs.Meaning.{empty_book};
ghost use Rattle.lent_book.specs.Lent.{lent_means};

use book::Book;
use book::entry::Entry;
use book::entry_row::EntryRow;
use book::fault::BookFault;
use book::line::Line;
use book::line_number::LineNumber;
use book::line_row::LineRow;
use book::mark::{Counts, Mark};
use book::mark_row::MarkRow;
use book::new_entry::NewEntry;
use book::places::FreePlaces;
use book::sought::Sought;
use book::tables::Tables;
use layout::pair::Pair;
use ordered::table::Table;

// How many places a lent book uses at most.
const MOST_ENTRIES: usize = 65_536;

const MOST_LINES: usize = 1_048_576;

const MOST_MARKS: usize = 65_536;

#[derive(Drop)]
pub struct LentBook<'a> {
    tables: Tables<Table<'a, EntryRow>, Table<'a, LineRow>, Table<'a, MarkRow>>,
}

impl<'a> LentBook<'a> {
    // A book that holds nothing, with the places given, cut at 65,536 entries, 1,048,576 lines and 65,536 marks.
    pub fn new(
        entries: &'a mut [EntryRow],
        lines: &'a mut [LineRow],
        marks: &'a mut [MarkRow],
    ) -> LentBook<'a>
        ensures { lent_means result.tables ≡ empty_book (min 65536 (length entries.old)) (min 1048576 (length lines.old)) (min 65536 (length marks.old)) }
    {
        LentBook {
            tables: Tables {
                entries: Table::new(entries, MOST_ENTRIES),
                lines: Table::new(lines, MOST_LINES),
                marks: Table::new(marks, MOST_MARKS),
            },
        }
    }
}

// Hands each call on to the tables: a `new` of its own needs a type of its own, and that an impl of its own.
impl Book for LentBook<'_> {
    ghost meaning = { λ b. lent_means b.tables };

    fn enter_entry(&mut self, pair: &Pair, new: NewEntry) -> Result<(), BookFault> {
        self.tables.enter_entry(pair, new)
    }

    fn enter_line(
        &mut self,
        pair: &Pair,
        number: LineNumber,
        line: &Line,
    ) -> Result<(), BookFault> {
        self.tables.enter_line(pair, number, line)
    }

    fn take_open(&mut self, pair: &Pair, amount: u64) -> Result<(), BookFault> {
        self.tables.take_open(pair, amount)
    }

    fn set_mark(&mut self, file: &[u8; 19], mark: Mark) -> Result<(), BookFault> {
        self.tables.set_mark(file, mark)
    }

    fn entry(&self, pair: &Pair) -> Option<Entry> {
        self.tables.entry(pair)
    }

    fn line(&self, pair: &Pair, number: LineNumber) -> Option<Line> {
        self.tables.line(pair, number)
    }

    fn mark(&self, file: &[u8; 19]) -> Option<Mark> {
        self.tables.mark(file)
    }

    fn free(&self) -> FreePlaces {
        self.tables.free()
    }

    fn seek(&self, office: &[u8; 5]) -> Option<Sought> {
        self.tables.seek(office)
    }

    fn count(&self) -> Counts {
        self.tables.count()
    }

    fn stands(&self) {
        self.tables.stands();
    }
}
