// What every kind of table does.
ghost use Rattle.std.specs.Prelude.{◌≡◌, ℕ, ◌-◌, ◌<◌, ◌≤◌, true, List, length, is_ok, if◌then◌else◌, slice_index_or, slice_set};
ghost use Rattle.ordered.specs.Order.{ranks, apart, every, held, entered, adds, sorted, Scanned};

use super::Keyed;
use super::refusal::Refusal;

// A table of records, no two under one key. Its impls find a record, add one, and put one over another.
pub trait Keeps<T: Keyed> {
    // the records, as they lie
    ghost rows: { Self → List T };

    // the same in the order of their keys
    ghost listed: { Self → List T };

    // how many records it can hold
    ghost places: { Self → ℕ };

    // The records, as they lie.
    fn records(&self) -> &[T]
        ensures { result.now ≡ rows self.now };

    // Where the record with this key lies.
    fn position(&self, key: &[u8]) -> Option<usize>
        ensures { Scanned ranks T.Keyed.code key.now (rows self.now) result };

    // How many more records the table can hold.
    fn free(&self) -> usize
        ensures { result ≡ places self.now - length (rows self.now) };

    // Adds a record in its place.
    fn add(&mut self, row: T) -> Result<(), Refusal>
        requires { T.Keyed.sound row ≡ true }
        ensures answer { result ≡ adds ranks T.Keyed.code (listed self.old) (places self.old) row }
        ensures after { listed self.new ≡ (if is_ok result then entered ranks T.Keyed.code row (listed self.old) else listed self.old) }
        ensures room { places self.new ≡ places self.old };

    // Puts a record in the place of one with the same key.
    fn put_over(&mut self, at: usize, row: T)
        requires within { at < length (rows self.old) }
        requires same { T.Keyed.code (slice_index_or (rows self.old) at row) ≡ T.Keyed.code row }
        requires sound { T.Keyed.sound row ≡ true }
        ensures after { rows self.new ≡ slice_set (rows self.old) at row }
        ensures room { places self.new ≡ places self.old };

    // What every table keeps: the list in order is that of its records, which have a key each, are sound, and fit.
    ghost in_order: { (t : Self) → listed t ≡ sorted ranks T.Keyed.code (rows t) };

    ghost keys_apart: { (t : Self) → apart ranks T.Keyed.code (rows t) ≡ true };

    ghost all_sound: { (t : Self) → every T.Keyed.sound (rows t) ≡ true };

    ghost fits: { (t : Self) → length (rows t) ≤ places t };

    // The record with this key.
    final fn get(&self, key: &[u8]) -> Option<T>
        ensures { result ≡ held ranks T.Keyed.code key.now (listed self.now) }
    {
        self.position(key).map(|at| self.records()[at])
    }

    // What adding a record with this key would answer.
    final fn admits(&self, row: &T) -> Result<(), Refusal>
        ensures { result ≡ adds ranks T.Keyed.code (listed self.now) (places self.now) row.now }
    {
        match self.position(row.key()) {
            Some(_) => Err(Refusal::Held),
            None if self.free() == 0 => Err(Refusal::Full),
            None => Ok(()),
        }
    }
}
