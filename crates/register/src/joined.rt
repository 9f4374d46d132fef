// A register over two others.
ghost use Rattle.std.specs.Prelude.{◌||◌};

use crate::Register;

// The keys that either of two registers has.
#[derive(Clone, Copy, PartialEq, Eq, Debug)]
pub struct Joined<A, B> {
    pub first: A,
    pub second: B,
}

impl<A: Register, B: Register> Register for Joined<A, B> {
    ghost keys = { λ s k. A.Register.keys s.first k || B.Register.keys s.second k };

    fn has(&self, key: &[u8]) -> bool {
        self.first.has(key) || self.second.has(key)
    }
}

// A register that is lent has the same keys.
impl<'a, A: Register> Register for &'a A {
    ghost keys = { λ s k. A.Register.keys s.now k };

    fn has(&self, key: &[u8]) -> bool {
        (**self).has(key)
    }
}
