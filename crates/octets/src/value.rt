// The number that a field of digits writes.
ghost use Rattle.std.specs.Prelude.{◌≡◌, ◌^◌, ◌<◌, ◌≤◌, min, length};
ghost use Rattle.octets.specs.Parts.{columns};
ghost use Rattle.octets.specs.Values.{digit_of, value_of};

use crate::part::columns_of;

// The longest field whose number every u64 holds.
const MOST: usize = 18;

// 0, and no None, for a byte that is no digit, as the definition says: a field is read without a second look.
fn digit_of(b: u8) -> u64
    ensures value { result ≡ digit_of b }
    ensures small { result ≤ 9 }
{
    match b {
        b'0'..=b'9' => u64::from(b - b'0'),
        _ => 0,
    }
}

// Every digit counts, and nothing wraps.
fn value_of(digits: &[u8]) -> u64
    requires { length digits.now ≤ 18 }
    ensures value { result ≡ value_of digits.now }
    ensures below { result < 10 ^ length digits.now }
{
    let mut n = 0;
    for b in digits {
        n = n * 10 + digit_of(*b);
    }
    n
}

// The number in `n` columns from `first` on, of which 18 are read at most. A byte that is no digit counts as 0.
pub fn number_at(line: &[u8], first: usize, n: usize) -> u64
    ensures value { result ≡ value_of (columns first (min n 18) line.now) }
    ensures below { result < 10 ^ min n 18 }
{
    value_of(columns_of(line, first, n.min(MOST)))
}
