// The five registers that fields are looked up in.
ghost use Rattle.std.specs.Prelude.{◌≡◌, ℕ, Bool, List};
ghost use Rattle.layout.specs.declared.field.Lookup.{Lookup};
ghost use Rattle.register.specs.Fives.{held};

use crate::Register;
use layout::field::Lookup;

// All registers behind one trait, by their sets: `holds` tells whether the register has the key. A question changes nothing.
pub trait Registers {
    ghost holds: { Self → Lookup → List ℕ → Bool };

    fn has(&self, which: Lookup, key: &[u8]) -> bool
        ensures answer { result ≡ holds self.now which key.now }
        ensures unchanged { self.exit.now ≡ self.entry.now };
}

// Five registers, each of a make of its own.
#[derive(Clone, Copy, PartialEq, Eq, Debug)]
pub struct Five<A, O, S, U, L> {
    pub agencies: A,
    pub offices: O,
    pub symbols: S,
    pub units: U,
    pub accounts: L,
}

impl<A: Register, O: Register, S: Register, U: Register, L: Register> Registers
    for Five<A, O, S, U, L> {
    ghost holds = { λ s which k. held (A.Register.keys s.agencies) (O.Register.keys s.offices) (S.Register.keys s.symbols) (U.Register.keys s.units) (L.Register.keys s.accounts) which k };

    // A field that is not looked up is good with any key.
    fn has(&self, which: Lookup, key: &[u8]) -> bool {
        match which {
            Lookup::Free => true,
            Lookup::Agencies => self.agencies.has(key),
            Lookup::Offices => self.offices.has(key),
            Lookup::Symbols => self.symbols.has(key),
            Lookup::Units => self.units.has(key),
            Lookup::Accounts => self.accounts.has(key),
        }
    }
}
