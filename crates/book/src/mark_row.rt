// The row of a mark, and its key: the File ID Number.
ghost use Rattle.std.specs.Prelude.{◌≡◌, ◌≤◌, true, map, length};
ghost use Rattle.book.specs.Meaning.{mark_under, mark_told, counted_in};
ghost use Rattle.book.specs.Actions.{counts_fit};
ghost use Rattle.book.specs.Rows.{mark_of, mark_code, sound_mark, unused_mark};

use super::mark::{Counts, Mark};
use ordered::Keyed;

// The counts of a mark are fields by themselves and not one Mark, as the definitions read them.
#[derive(Clone, Copy, PartialEq, Eq, Debug, Default)]
pub struct MarkRow {
    pub accepted: u32,
    pub rejected: u32,
    pub key: [u8; 19],
}

impl Keyed for MarkRow {
    ghost code = { mark_code };

    ghost sound = { sound_mark };

    fn key(&self) -> &[u8] {
        &self.key
    }
}

impl MarkRow {
    // What fills a place that is not used.
    pub fn unused() -> MarkRow
        ensures { result ≡ unused_mark }
    {
        MarkRow::default()
    }

    // The row of a mark.
    pub fn new(file: &[u8; 19], mark: Mark) -> MarkRow
        ensures means { mark_of result ≡ mark_under file.now mark }
        ensures key { mark_code result ≡ file.now }
    {
        MarkRow {
            accepted: mark.accepted,
            rejected: mark.rejected,
            key: *file,
        }
    }

    // No count is above its limit.
    pub fn counts_fit(&self) -> bool
        ensures { result ≡ counts_fit (mark_of self.now) }
    {
        self.accepted <= 16_777_216 && self.rejected <= 16_777_216
    }

    pub fn mark(&self) -> Mark
        ensures { result ≡ mark_told (mark_of self.now) }
    {
        Mark {
            accepted: self.accepted,
            rejected: self.rejected,
        }
    }
}

// The sums of the marks' counts.
pub fn sum_counts(rows: &[MarkRow]) -> Counts
    requires { length rows.now ≤ 65536 }
    ensures { result ≡ counted_in (map mark_of rows.now) }
{
    Counts {
        accepted: rows.iter().map(|row| u64::from(row.accepted)).sum(),
        rejected: rows.iter().map(|row| u64::from(row.rejected)).sum(),
    }
}
