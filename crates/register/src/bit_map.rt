// A register of ledger accounts, a bit for each number from 0 to 9,999.
ghost use Rattle.std.specs.Prelude.{◌≡◌, ℕ, ◌<◌, Bool, false, List, is_ok};
ghost use Rattle.register.specs.Maps.{is_set, bit_at, map_check, mapped, kept};

use crate::Register;
use crate::fault::TextFault;
use octets::class::{Digit, each};
use octets::value::number_at;

// The bytes that hold a bit for each number of four digits.
const SIZE: usize = 1250;

pub fn check_map(bits: &[u8]) -> Result<(), TextFault>
    ensures { result ≡ map_check bits.now }
{
    if bits.len() != SIZE {
        return Err(TextFault::Size);
    }
    Ok(())
}

// Bit k of a byte, the lowest being bit 0.
fn has_bit(byte: u8, k: usize) -> bool
    requires { k < 8 }
    ensures { result ≡ is_set byte k }
{
    (byte >> k) & 1 == 1
}

// Account n is bit n mod 8, lowest first, of byte n div 8. Past the bytes no bit is set.
fn has_account(bits: &[u8], n: usize) -> bool
    ensures { result ≡ bit_at bits.now n }
{
    bits.get(n / 8).is_some_and(|byte| has_bit(*byte, n % 8))
}

#[derive(Clone, Copy, PartialEq, Eq, Debug)]
pub struct BitMap<'a> {
    bits: &'a [u8],
}

impl<'a> BitMap<'a> {
    // The map of 1,250 bytes. It is empty where the check refuses them.
    pub fn of(bits: &'a [u8]) -> BitMap<'a>
        ensures value { result.bits.now ≡ kept bits.now }
        ensures empty { is_ok (map_check bits.now) ≡ false → (k : List ℕ) → mapped result.bits.now k ≡ false }
    {
        match check_map(bits) {
            Ok(()) => BitMap { bits },
            Err(_) => BitMap { bits: &[] },
        }
    }
}

impl<'a> Register for BitMap<'a> {
    ghost keys = { λ s k. mapped s.bits.now k };

    // Only keys of four digits are in a map.
    fn has(&self, key: &[u8]) -> bool {
        key.len() == 4
            && each::<Digit>(key)
            && has_account(self.bits, number_at(key, 1, 4) as usize)
    }
}
