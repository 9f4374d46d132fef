// The calls on a book.
use layout::pair::Pair;

// A file handed over for a day, with a packet buffer of so many bytes.
#[derive(Clone, Copy, PartialEq, Eq, Debug)]
pub struct Handed<'a> {
    pub file: &'a [u8],
    pub day: u32,
    pub room: usize,
}

#[derive(Clone, Copy, PartialEq, Eq, Debug)]
pub enum Call<'a> {
    // Judges each transaction of the file alone, and changes nothing.
    Check(Handed<'a>),
    // Judges the transactions in file order and enters the accepted ones.
    Post(Handed<'a>),
    // The entry of a pair.
    Show(Pair),
    // Some payment or collection of an office with an open amount above zero.
    Seek([u8; 5]),
    // How many transactions were accepted and rejected.
    Count,
}
