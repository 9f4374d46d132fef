// A table of at most N records that it holds in itself, in order of arrival.
ghost use Rattle.std.specs.Prelude.{◌≡◌, ℕ, ◌+◌, ◌-◌, ◌<◌, ◌≤◌, true, ⊤, [], length, take};
ghost use Rattle.ordered.specs.Order.{ranks, apart, every};

use super::Keyed;
use super::keeps::Keeps;
use super::refusal::Refusal;
use std::alloc::AllocError;

// The records are the first `n` of `rows`, as they came: no two under one key. An array and a count, and no `ArrayVec` of the kit: that is
// not `Copy`, and asks a default of its rows.
pub struct Arrivals<T: Keyed, const N: usize> {
    pub rows: [T; N],
    pub n: usize,
    ghost fits: { n ≤ N },
    ghost given: { length rows ≡ N },
    ghost apart: { apart ranks T.Keyed.code (take n rows) ≡ true },
    ghost all_sound: { every T.Keyed.sound (take n rows) ≡ true },
}

// By hand: neither is derived over ghost fields where the rows are of a type parameter.
impl<T: Keyed, const N: usize> Clone for Arrivals<T, N> {
    ghost is_clone = { λ x y. y ≡ x };

    ghost is_infallible = { λ _. ⊤ };

    fn clone(&self) -> Result<Arrivals<T, N>, AllocError> {
        Ok(*self)
    }
}

impl<T: Keyed, const N: usize> Copy for Arrivals<T, N> {}

impl<T: Keyed, const N: usize> Arrivals<T, N> {
    ghost use Rattle.ordered.specs.Tables.{arrived};

    // An empty table; `row` fills the places.
    pub fn new(row: T) -> Arrivals<T, N>
        ensures none { arrived result ≡ [] }
    {
        Arrivals {
            rows: [row; N],
            n: 0,
        }
    }
}

impl<T: Keyed, const N: usize> Keeps<T> for Arrivals<T, N> {
    ghost use Rattle.std.proofs.Common.{refl, length-take-le, arith};
    ghost use Rattle.ordered.specs.Tables.{arrived, listed};

    ghost rows = { arrived };

    ghost listed = { listed T.Keyed.code };

    ghost places = { λ _. N };

    fn records(&self) -> &[T] {
        &self.rows[..self.n]
    }

    fn position(&self, key: &[u8]) -> Option<usize> {
        self.records().iter().position(|row| row.key() == key)
    }

    fn free(&self) -> usize {
        N - self.n
    }

    fn add(&mut self, row: T) -> Result<(), Refusal> {
        // Not by `admits`: a call of it leads back to this impl, and such a cycle is not covered by the check.
        match self.position(row.key()) {
            Some(_) => Err(Refusal::Held),
            None if self.n < N => {
                self.rows[self.n] = row;
                self.n += 1;
                Ok(())
            }
            None => Err(Refusal::Full),
        }
    }

    fn put_over(&mut self, at: usize, row: T) {
        self.rows[at] = row;
    }

    ghost in_order = { λ t. refl };

    ghost keys_apart = { λ t. t.apart };

    ghost all_sound = { λ t. t.all_sound };

    ghost fits = { λ t. Prim.omega (arith, length-take-le t.n t.rows (Prim.omega (arith, t.fits, t.given)), t.fits) };
}
