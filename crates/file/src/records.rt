// The records of a text, one after the other.
ghost use Rattle.std.specs.Prelude.{◌≡◌, suc, ◌<◌, ◌≤◌, Bool, [], ◌∷◌, length, drop, ◌==◌, MatchOption};
ghost use Rattle.std.specs.Iterator.{at_most};
ghost use Rattle.file.specs.Lengths.{line_len};
ghost use Rattle.file.specs.Records.{records, first_of, others_of, begins};

use crate::feed::first_line;
use octets::line::Line;

// A cursor over the records that are still to be read. It copies nothing.
#[derive(Clone, Copy, PartialEq, Eq, Debug)]
pub struct Records<'a> {
    rest: &'a [u8],
}

// Whether a record begins with the letter.
pub fn begins(record: &[u8], letter: u8) -> bool
    ensures { result ≡ begins letter «record».now }
{
    record.first() == Some(&letter)
}

impl<'a> Records<'a> {
    pub fn of(text: &'a [u8]) -> Records<'a>
        ensures { result.rest.now ≡ text.now }
    {
        Records { rest: text }
    }

    pub fn is_done(&self) -> bool
        ensures { result ≡ (length self.now.rest.now == 0) }
    {
        self.rest.is_empty()
    }

    // The bytes of the records that are still to be read.
    pub fn rest(&self) -> &'a [u8]
        ensures { result.now ≡ self.now.rest.now }
    {
        self.rest
    }

    // The next record, which is empty where there is none. `expected` is the length that most such records have; another is found too.
    // An empty record, and not None, where there is none: as `first_of` says, so that a caller need not look first.
    #[inline]
    pub fn next_line(&mut self, expected: usize) -> Line<'a>
        ensures line { result.bytes.now ≡ first_of (records self.old.rest.now) }
        ensures others { records self.new.rest.now ≡ others_of (records self.old.rest.now) }
        ensures behind { self.new.rest.now ≡ drop (suc (line_len self.old.rest.now)) self.old.rest.now }
        ensures falls { 0 < length self.old.rest.now → length self.new.rest.now < length self.old.rest.now }
    {
        let text = self.rest;
        let line = first_line(text, expected);
        let n = line.bytes().len();
        self.rest = &text[text.len().min(n + 1)..];
        line
    }
}

impl<'a> Iterator for Records<'a> {
    type Item = &'a [u8];

    // The record that came is the first of those that were still to be read, and what is left holds the others.
    ghost next_gives = { λ s r t. MatchOption r (records s.rest.now ≡ []) (λ x. records s.rest.now ≡ x.now ∷ records t.rest.now) };

    ghost remaining = { λ s. at_most (length s.rest.now) };

    // No length is expected: only the ends of these records are sought.
    fn next(&mut self) -> Option<&'a [u8]> {
        if self.is_done() {
            return None;
        }
        Some(self.next_line(0).bytes())
    }
}
