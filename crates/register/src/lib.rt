// Registers: sets of keys that a field is looked up in.
#![tactic(auto)]

ghost use Rattle.std.specs.Prelude.{◌≡◌, ℕ, Bool, List};

pub mod bit_map;
pub mod fault;
pub mod five;
pub mod joined;
pub mod key_list;
pub mod key_text;

// A register's meaning is a set of keys, `keys`: the test whether a key is in it. A question changes nothing.
pub trait Register {
    ghost keys: { Self → List ℕ → Bool };

    fn has(&self, key: &[u8]) -> bool
        ensures answer { result ≡ keys self.now key.now }
        ensures unchanged { self.exit.now ≡ self.entry.now };
}
