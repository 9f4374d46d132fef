// Classes of bytes, asked of many bytes at once.
ghost use Rattle.std.specs.Prelude.{◌≡◌, ℕ, Bool};
ghost use Rattle.std.specs.List.{list_all};
ghost use Rattle.std.specs.Str.{bytes_eq};
ghost use Rattle.octets.specs.Classes.{is_space, is_zero, is_digit, is_printable, is_in_line, all, blank, starts_by_space, type_a};

use crate::line::Line;

// A class of bytes as a type: each class gets a loop of its own, which the compiler vectorises.
pub trait Class {
    ghost test: { ℕ → Bool };

    fn has(b: u8) -> bool
        ensures { result ≡ test b };
}

pub struct Space;

impl Class for Space {
    ghost test = { is_space };

    fn has(b: u8) -> bool {
        b == b' '
    }
}

pub struct Zero;

impl Class for Zero {
    ghost test = { is_zero };

    fn has(b: u8) -> bool {
        b == b'0'
    }
}

pub struct Digit;

impl Class for Digit {
    ghost test = { is_digit };

    fn has(b: u8) -> bool {
        matches!(b, b'0'..=b'9')
    }
}

pub struct Printable;

impl Class for Printable {
    ghost test = { is_printable };

    fn has(b: u8) -> bool {
        matches!(b, b' '..=b'~')
    }
}

// Whatever stands inside a record: any byte but the line feed.
pub struct InLine;

impl Class for InLine {
    ghost test = { is_in_line };

    fn has(b: u8) -> bool {
        b != b'\n'
    }
}

// Whether each byte is of the class. There is no early exit, so that the loop is vectorised.
pub fn each<C: Class>(bytes: &[u8]) -> bool
    ensures { result ≡ all C.Class.test bytes.now }
{
    let mut ok = true;
    for b in bytes {
        ok &= C::has(*b);
    }
    ok
}

// The same of at most 16 bytes, by two parts of one length that may overlap; of others too, so that nothing is asked of callers.
fn few<C: Class>(bytes: &[u8]) -> bool
    ensures { result ≡ all C.Class.test bytes.now }
{
    let n = bytes.len();
    if n < 4 || n > 16 {
        return each::<C>(bytes);
    }
    if n < 8 {
        return each::<C>(&bytes[..4]) & each::<C>(&bytes[n - 4..]);
    }
    each::<C>(&bytes[..8]) & each::<C>(&bytes[n - 8..])
}

// The same of blocks of N bytes, up to the first that has another byte.
fn each_block<C: Class, const N: usize>(blocks: &[[u8; N]]) -> bool
    ensures { result ≡ list_all (all C.Class.test) blocks.now }
{
    blocks.iter().all(
        |block| -> bool
            ensures { result ≡ all C.Class.test block.now }
        { each::<C>(block) },
    )
}

// Whether each byte is of the class, for fields of any length: blocks of 64 and of 16, and then the last 16, of which some are seen again.
pub fn every<C: Class>(bytes: &[u8]) -> bool
    ensures { result ≡ all C.Class.test bytes.now }
{
    let Some(last) = bytes.last_chunk::<16>() else {
        return few::<C>(bytes);
    };
    let (blocks, rest) = bytes.as_chunks::<64>();
    let (parts, _) = rest.as_chunks::<16>();
    each_block::<C, 64>(blocks) && each_block::<C, 16>(parts) && each::<C>(last)
}

// Whether the first byte is a space.
pub(crate) fn starts_by_space(bytes: &[u8]) -> bool
    ensures { result ≡ starts_by_space bytes.now }
{
    bytes.first() == Some(&b' ')
}

// Spaces only. Most fields show by their first byte that they are not blank.
pub fn is_blank(bytes: &[u8]) -> bool
    ensures { result ≡ blank bytes.now }
{
    bytes.is_empty() || starts_by_space(bytes) && every::<Space>(bytes)
}

// Type A: printable, and the first no space.
pub fn is_type_a(bytes: &[u8]) -> bool
    ensures { result ≡ type_a bytes.now }
{
    Line::of(bytes).is_type_a()
}

pub fn is_same(a: &[u8], b: &[u8]) -> bool
    ensures { result ≡ bytes_eq a.now b.now }
{
    a == b
}
