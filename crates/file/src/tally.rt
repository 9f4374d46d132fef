// How many records and transactions there are.
ghost use Rattle.std.specs.Prelude.{◌≡◌, ◌≤◌, length, if◌then◌else◌};
ghost use Rattle.file.specs.Counts.{found_in, tally_of};
ghost use Rattle.file.specs.Records.{records, begins, many};

use crate::opening::top_of;
use crate::records::{Records, begins};

// A file's records, its opening's among them, and its transactions.
#[derive(Clone, Copy, PartialEq, Eq, Debug)]
pub struct Found {
    pub records: usize,
    pub transactions: usize,
}

// A text's records: all of them, and those that begin with `H`, with `D` and with `E`.
#[derive(Clone, Copy, PartialEq, Eq, Debug)]
pub struct Tally {
    pub records: usize,
    pub headers: usize,
    pub details: usize,
    pub entries: usize,
}

// 1 for a record that begins with the letter, else 0.
fn one_if(record: &[u8], letter: u8) -> usize
    ensures value { result ≡ (if begins letter «record».now then 1 else 0) }
    ensures small { result ≤ 1 }
{
    usize::from(begins(record, letter))
}

impl Tally {
    pub fn of(text: &[u8]) -> Tally
        ensures { result ≡ tally_of (records text.now) }
    {
        let mut tally = Tally {
            records: 0,
            headers: 0,
            details: 0,
            entries: 0,
        };
        for record in Records::of(text) {
            tally.records += 1;
            tally.headers += one_if(record, b'H');
            tally.details += one_if(record, b'D');
            tally.entries += one_if(record, b'E');
        }
        tally
    }
}

impl Found {
    pub fn of(file: &[u8]) -> Found
        ensures { result ≡ found_in file.now }
    {
        let all = Tally::of(file);
        let top = top_of(file);
        let opening = one_if(top.identifier, b'H') + one_if(top.batch_header, b'H');
        Found {
            records: all.records,
            transactions: all.headers - opening,
        }
    }
}
