// Finding and placing in tables whose records tell a key of bytes: tables in the order of the keys, in the caller's
// memory, and small tables in order of arrival.
#![tactic(auto)]

ghost use Rattle.std.specs.Prelude.{◌≡◌, ℕ, Bool, true, List};

pub mod arrivals;
pub mod keeps;
pub mod refusal;
pub mod table;

// A record that tells a key of bytes, of the same width in all records of its type.
pub trait Keyed: Copy {
    // the key
    ghost code: { Self → List ℕ };

    // what every record in a table passes
    ghost sound: { Self → Bool };

    fn key(&self) -> &[u8]
        ensures { result.now ≡ code self.now };
}
