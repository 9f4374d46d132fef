// A record's bytes, or a part of them, and whether they are known to be printable.
ghost use Rattle.std.specs.Prelude.{◌≡◌, true, not, ◌||◌};
ghost use Rattle.octets.specs.Classes.{all, is_printable, type_a};
ghost use Rattle.octets.specs.Parts.{columns};

use crate::class::{Printable, each, every, starts_by_space};
use crate::part::columns_of;

// What one pass over a record has shown is kept, so that its text fields need only their first byte.
#[derive(Clone, Copy, Debug)]
pub struct Line<'a> {
    bytes: &'a [u8],
    // a flag, and no Option: the bytes are there either way
    printable: bool,
    ghost known: { (not printable || all is_printable bytes.now) ≡ true },
}

impl<'a> Line<'a> {
    // Bytes of which nothing is known yet.
    pub fn of(bytes: &'a [u8]) -> Line<'a>
        ensures { result.bytes.now ≡ bytes.now }
    {
        Line {
            bytes,
            printable: false,
        }
    }

    // The same, after one pass that looks whether they are printable.
    pub fn seen(bytes: &'a [u8]) -> Line<'a>
        ensures same { result.bytes.now ≡ bytes.now }
        ensures printable { result.printable ≡ all is_printable bytes.now }
    {
        let printable = each::<Printable>(bytes);
        Line { bytes, printable }
    }

    pub fn bytes(self) -> &'a [u8]
        ensures { result.now ≡ self.entry.bytes.now }
    {
        self.bytes
    }

    // The columns from `first` on, `n` of them, or as many of them as there are.
    pub fn columns(self, first: usize, n: usize) -> Line<'a>
        ensures { result.bytes.now ≡ columns first n self.entry.bytes.now }
    {
        Line {
            bytes: columns_of(self.bytes, first, n),
            printable: self.printable,
        }
    }

    // Whether a pass has shown that the bytes are printable.
    pub fn is_known_printable(self) -> bool
        ensures { result ≡ self.entry.printable }
    {
        self.printable
    }

    pub fn is_printable(self) -> bool
        ensures { result ≡ all is_printable self.entry.bytes.now }
    {
        self.is_known_printable() || every::<Printable>(self.bytes)
    }

    #[inline]
    pub fn is_type_a(self) -> bool
        ensures { result ≡ type_a self.entry.bytes.now }
    {
        !starts_by_space(self.bytes) && self.is_printable()
    }
}
