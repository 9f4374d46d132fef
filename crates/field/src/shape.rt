// Whether a field's bytes are what its kind asks for.
ghost use Rattle.std.specs.Prelude.{◌≡◌};
ghost use Rattle.layout.specs.SetIds.{set_id_of};
ghost use Rattle.field.specs.Shapes.{is_filler, is_one_of, is_one_set, is_positive, shape};

use crate::symbol::is_symbol;
use layout::field::Kind;
use layout::set_id::SetId;
use octets::class::{Digit, Space, Zero, every};
use octets::line::Line;

pub fn is_filler(kind: Kind) -> bool
    ensures { result ≡ is_filler kind }
{
    matches!(kind, Kind::Filler)
}

fn is_positive(bytes: &[u8]) -> bool
    ensures { result ≡ is_positive bytes.now }
{
    every::<Digit>(bytes) && !every::<Zero>(bytes)
}

fn is_one_of(letters: [u8; 2], bytes: &[u8]) -> bool
    ensures { result ≡ is_one_of letters bytes.now }
{
    match bytes {
        [b] => letters.contains(b),
        _ => false,
    }
}

fn is_one_set(a: SetId, b: SetId, bytes: &[u8]) -> bool
    ensures { result ≡ is_one_set a b (set_id_of bytes.now) }
{
    SetId::of(bytes).is_some_and(|set| set == a || set == b)
}

// Of a text field whose line is known to be printable only the first byte is looked at.
pub fn is_shaped(kind: Kind, bytes: Line<'_>) -> bool
    ensures { result ≡ shape kind bytes.entry.bytes.now }
{
    match kind {
        Kind::Text => bytes.is_type_a(),
        Kind::Number => every::<Digit>(bytes.bytes()),
        Kind::Positive => is_positive(bytes.bytes()),
        Kind::Filler => every::<Space>(bytes.bytes()),
        Kind::Symbol => is_symbol(bytes.bytes()),
        Kind::OneOf(letters) => is_one_of(letters, bytes.bytes()),
        Kind::OneSet(a, b) => is_one_set(a, b, bytes.bytes()),
    }
}
