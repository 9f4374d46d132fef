// A table in the caller's memory, in the order of its records' keys.
ghost use Rattle.std.specs.Prelude.{◌≡◌, ℕ, ◌+◌, ◌-◌, ◌<◌, ◌≤◌, min, true, [], length, take};
ghost use Rattle.std.specs.List.{insert};
ghost use Rattle.ordered.specs.Order.{ranks, ascends, every, shifted_in, Found};

use super::Keyed;
use super::keeps::Keeps;
use super::refusal::Refusal;
use std::cmp::Ordering;

// The memory is the caller's and fixed: `rows` is all that it lends, whose first `places` may be used, and whose
// first `n` are the records. So the lengths stand beside the rows, and no vector grows.
#[derive(Drop)]
pub struct Table<'a, T: Keyed> {
    pub rows: &'a mut [T],
    pub n: usize,
    pub places: usize,
    ghost fits: { n ≤ places },
    ghost given: { places ≤ length rows.now },
    ghost in_order: { ascends ranks T.Keyed.code (take n rows.now) ≡ true },
    ghost all_sound: { every T.Keyed.sound (take n rows.now) ≡ true },
}

// Where the record with this key stands in records in the order of their keys, or where it would go. By hand, since it ends where the
// record is met: the library's search goes on to the last comparison.
fn find<T: Keyed>(rows: &[T], key: &[u8]) -> Result<usize, usize>
    requires { ascends ranks T.Keyed.code rows.now ≡ true }
    ensures { Found ranks T.Keyed.code key.now rows.now result }
{
    let mut low = 0;
    let mut high = rows.len();
    while low < high {
        let mid = low + (high - low) / 2;
        match rows[mid].key().cmp(&key) {
            Ordering::Less => low = mid + 1,
            Ordering::Greater => high = mid,
            Ordering::Equal => return Ok(mid),
        }
    }
    Err(low)
}

// Puts a record in at `at`, and moves those from there on up by one, as one block; the first `n` slots are used before.
fn place<T: Keyed>(slots: &mut [T], n: usize, at: usize, row: T)
    requires room { n < length slots.old }
    requires within { at ≤ n }
    ensures { slots.new ≡ shifted_in slots.old n at row }
{
    slots.copy_within(at..n, at + 1);
    slots[at] = row;
}

impl<'a, T: Keyed> Table<'a, T> {
    ghost use Rattle.ordered.specs.Tables.{shown};

    // An empty table that uses the places given, and `most` at most.
    pub fn new(rows: &'a mut [T], most: usize) -> Table<'a, T>
        ensures none { shown result ≡ [] }
        ensures room { result.places ≡ min most (length rows.old) }
    {
        let places = rows.len().min(most);
        Table { rows, n: 0, places }
    }

    // Where the record with this key stands, or where it would go.
    pub fn seek(&self, key: &[u8]) -> Result<usize, usize>
        ensures { Found ranks T.Keyed.code key.now (shown self.now) result }
    {
        find(self.records(), key)
    }

    fn put_in(&mut self, at: usize, row: T)
        requires room { self.old.n < self.old.places }
        requires within { at ≤ self.old.n }
        requires in_order { ascends ranks T.Keyed.code (insert (shown self.old) at row) ≡ true }
        requires all_sound { every T.Keyed.sound (insert (shown self.old) at row) ≡ true }
        ensures after { shown self.new ≡ insert (shown self.old) at row }
        ensures room { self.new.places ≡ self.old.places }
    {
        place(self.rows, self.n, at, row);
        self.n += 1;
    }
}

impl<T: Keyed> Keeps<T> for Table<'_, T> {
    ghost use Rattle.std.proofs.Common.{length-take-le, arith};
    ghost use Rattle.ordered.specs.Laws.{sorted_same, ascends_apart};
    ghost use Rattle.ordered.specs.Tables.{shown};

    ghost rows = { shown };

    ghost listed = { shown };

    ghost places = { λ t. t.places };

    fn records(&self) -> &[T] {
        &self.rows[..self.n]
    }

    fn position(&self, key: &[u8]) -> Option<usize> {
        self.seek(key).ok()
    }

    fn free(&self) -> usize {
        self.places - self.n
    }

    fn add(&mut self, row: T) -> Result<(), Refusal> {
        match self.seek(row.key()) {
            Ok(_) => Err(Refusal::Held),
            Err(at) if self.n < self.places => {
                self.put_in(at, row);
                Ok(())
            }
            Err(_) => Err(Refusal::Full),
        }
    }

    fn put_over(&mut self, at: usize, row: T) {
        self.rows[at] = row;
    }

    ghost in_order = { λ t. sorted_same T.Keyed.code (shown t) t.in_order };

    ghost keys_apart = { λ t. ascends_apart T.Keyed.code (shown t) t.in_order };

    ghost all_sound = { λ t. t.all_sound };

    ghost fits = { λ t. Prim.omega (arith, length-take-le t.n t.rows.now (Prim.omega (arith, t.fits, t.given)), t.fits) };
}
