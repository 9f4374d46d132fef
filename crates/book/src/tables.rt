// What a book does, on three tables of any kind.
ghost use Rattle.std.specs.Prelude.{◌≡◌, ◌≤◌};
ghost use Rattle.book.specs.Rows.{rows_mean};

use super::Book;
use super::entry::Entry;
use super::entry_row::{EntryRow, entry_key, first_open};
use super::fault::BookFault;
use super::line::Line;
use super::line_number::LineNumber;
use super::line_row::{LineRow, line_key};
use super::mark::{Counts, Mark};
use super::mark_row::{MarkRow, sum_counts};
use super::new_entry::NewEntry;
use super::places::FreePlaces;
use super::sought::Sought;
use layout::pair::Pair;
use ordered::keeps::Keeps;

// A book in three tables, each of any kind.
#[derive(Drop)]
pub struct Tables<E: Keeps<EntryRow>, L: Keeps<LineRow>, M: Keeps<MarkRow>> {
    pub entries: E,
    pub lines: L,
    pub marks: M,
    // the sums of so many counts fit
    ghost few_marks: { M.places marks ≤ 65536 },
}

impl<E: Keeps<EntryRow>, L: Keeps<LineRow>, M: Keeps<MarkRow>> Book for Tables<E, L, M> {
    ghost meaning = { λ t. rows_mean (E.listed t.entries) (L.listed t.lines) (M.listed t.marks) (E.places t.entries) (L.places t.lines) (M.places t.marks) };

    fn enter_entry(&mut self, pair: &Pair, new: NewEntry) -> Result<(), BookFault> {
        self.entries
            .add(EntryRow::new(pair, new))
            .map_err(BookFault::from)
    }

    fn enter_line(
        &mut self,
        pair: &Pair,
        number: LineNumber,
        line: &Line,
    ) -> Result<(), BookFault> {
        self.lines
            .add(LineRow::new(pair, number, line))
            .map_err(BookFault::from)
    }

    fn take_open(&mut self, pair: &Pair, amount: u64) -> Result<(), BookFault> {
        let Some(at) = self.entries.position(&entry_key(pair)) else {
            return Err(BookFault::Absent);
        };
        let mut row = self.entries.records()[at];
        if !row.may_take(amount) {
            return Err(BookFault::AboveOpen);
        }
        row.left -= amount;
        self.entries.put_over(at, row);
        Ok(())
    }

    fn set_mark(&mut self, file: &[u8; 19], mark: Mark) -> Result<(), BookFault> {
        let row = MarkRow::new(file, mark);
        if row.counts_fit() {
            self.marks.add(row).map_err(BookFault::from)
        } else {
            self.marks.admits(&row)?;
            Err(BookFault::CountTooLarge)
        }
    }

    fn entry(&self, pair: &Pair) -> Option<Entry> {
        self.entries.get(&entry_key(pair))?.entry()
    }

    fn line(&self, pair: &Pair, number: LineNumber) -> Option<Line> {
        self.lines
            .get(&line_key(pair, number))
            .map(|row| row.line())
    }

    fn mark(&self, file: &[u8; 19]) -> Option<Mark> {
        self.marks.get(file).map(|row| row.mark())
    }

    fn free(&self) -> FreePlaces {
        FreePlaces {
            entries: self.entries.free(),
            lines: self.lines.free(),
            marks: self.marks.free(),
        }
    }

    fn seek(&self, office: &[u8; 5]) -> Option<Sought> {
        let rows = self.entries.records();
        rows[first_open(rows, office)?].sought()
    }

    fn count(&self) -> Counts {
        sum_counts(self.marks.records())
    }

    fn stands(&self) {}
}
