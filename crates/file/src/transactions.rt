// The transactions of a text, one after the other.
ghost use Rattle.std.specs.Prelude.{◌≡◌, ◌<◌, ◌≤◌, true, [], ◌∷◌, length, MatchOption};
ghost use Rattle.file.specs.Lengths.{header_after};
ghost use Rattle.file.specs.Records.{records, begins, transactions};
ghost use Rattle.std.specs.Iterator.{at_most};

use crate::records::{Records, begins};

// Whether the first record is a header.
pub fn begins_header(text: &[u8]) -> bool
    ensures { result ≡ begins 72 text.now }
{
    begins(text, b'H')
}

// How many bytes stand before the next header.
fn before_header(text: &[u8]) -> usize
    ensures value { result ≡ header_after text.now }
    ensures within { result ≤ length text.now }
{
    let mut left = Records::of(text);
    // By `next_line`, and not `next`: bytes are counted here, and `next` promises which record came, not how many bytes it took.
    while !left.is_done() {
        left.next_line(0);
        if begins_header(left.rest()) {
            return text.len() - left.rest().len();
        }
    }
    text.len()
}

// The text from its first header on.
fn from_header(text: &[u8]) -> &[u8]
    ensures same { transactions (records result.now) ≡ transactions (records text.now) }
    ensures header { 0 < length result.now → begins 72 result.now ≡ true }
    ensures within { length result.now ≤ length text.now }
{
    if begins_header(text) {
        text
    } else {
        &text[before_header(text)..]
    }
}

// The transactions that are still to be read, each as its bytes. It copies nothing.
#[derive(Clone, Copy, PartialEq, Eq, Debug)]
pub struct Transactions<'a> {
    rest: &'a [u8],
}

impl<'a> Transactions<'a> {
    pub fn of(text: &'a [u8]) -> Transactions<'a>
        ensures { result.rest.now ≡ text.now }
    {
        Transactions { rest: text }
    }
}

impl<'a> Iterator for Transactions<'a> {
    type Item = &'a [u8];

    // The bytes that came hold the first of the transactions that were still to be read, and what is left holds the others.
    ghost next_gives = { λ s r t. MatchOption r (transactions (records s.rest.now) ≡ []) (λ x. transactions (records s.rest.now) ≡ records x.now ∷ transactions (records t.rest.now)) };

    ghost remaining = { λ s. at_most (length s.rest.now) };

    fn next(&mut self) -> Option<&'a [u8]> {
        let text = from_header(self.rest);
        if text.is_empty() {
            return None;
        }
        let (transaction, rest) = text.split_at(before_header(text));
        self.rest = rest;
        Some(transaction)
    }
}
