// An account symbol of 27 bytes, part by part.
ghost use Rattle.std.specs.Prelude.{◌≡◌};
ghost use Rattle.field.specs.Symbols.{digits_or_blank, is_availability, is_symbol};

use octets::class::{Digit, Space, each};

fn is_digits_or_blank(bytes: &[u8]) -> bool
    ensures { result ≡ digits_or_blank bytes.now }
{
    each::<Digit>(bytes) | each::<Space>(bytes)
}

// The availability type: `X` no year, `F` clearing, `A` central summary, `M` merged surplus, or none.
fn is_availability(b: u8) -> bool
    ensures { result ≡ is_availability b }
{
    matches!(b, b'X' | b'F' | b'A' | b'M' | b' ')
}

pub fn is_symbol(s: &[u8]) -> bool
    ensures { result ≡ is_symbol s.now }
{
    s.len() == 27
        && is_digits_or_blank(&s[0..2])
        && is_digits_or_blank(&s[2..5])
        && each::<Digit>(&s[5..8])
        && is_digits_or_blank(&s[8..12])
        && is_digits_or_blank(&s[12..16])
        && is_availability(s[16])
        && each::<Digit>(&s[17..21])
        && each::<Digit>(&s[21..24])
        && each::<Space>(&s[24..26])
        && s[26] == b'C'
}
