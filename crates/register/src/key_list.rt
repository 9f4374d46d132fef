// A register of keys of one width, one after the other in a text, in ascending order.
ghost use Rattle.std.specs.Prelude.{◌≡◌, ℕ, ◌*◌, ◌≤◌, true, false, List, length, is_ok};
ghost use Rattle.register.specs.Keys.{cut, ascends, is_in, key_check, listed};

use crate::Register;
use crate::key_text::check_keys;
use std::cmp::Ordering;

// The list keeps how many keys it has, so that a question divides nothing.
#[derive(Clone, Copy, PartialEq, Eq, Debug)]
pub struct KeyList<'a> {
    text: &'a [u8],
    width: usize,
    count: usize,
    ghost room: { count * width ≤ length text.now },
    ghost order: { ascends (cut count width text.now) ≡ true },
}

impl<'a> KeyList<'a> {
    // The list of a text. It is empty where the check refuses the text.
    pub fn of(text: &'a [u8], width: usize) -> KeyList<'a>
        ensures value { cut result.count result.width result.text.now ≡ listed width text.now }
        ensures empty { is_ok (key_check width text.now) ≡ false → (k : List ℕ) → is_in (cut result.count result.width result.text.now) k ≡ false }
    {
        let count = match check_keys(text, width) {
            Ok(()) => text.len() / width,
            Err(_) => 0,
        };
        KeyList { text, width, count }
    }
}

impl<'a> Register for KeyList<'a> {
    ghost keys = { λ s k. is_in (cut s.count s.width s.text.now) k };

    // Halves the text by hand: the width is a number of the caller's, and the library's binary search wants a slice of elements.
    fn has(&self, key: &[u8]) -> bool {
        let mut rest = self.text;
        let mut left = self.count;
        while left > 0 {
            let half = left / 2;
            let (_, from) = rest.split_at(half * self.width);
            let (one, more) = from.split_at(self.width);
            match one.cmp(&key) {
                Ordering::Equal => return true,
                Ordering::Greater => left = half,
                Ordering::Less => {
                    rest = more;
                    left = left - half - 1;
                }
            }
        }
        false
    }
}
