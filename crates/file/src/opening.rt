// How a file opens: its first two records, and the first header.
ghost use Rattle.std.specs.Prelude.{◌≡◌, ◌<◌, length, drop};
ghost use Rattle.file.specs.Openings.{code_of, ends_in_feed, is_file_identifier, is_batch_header, record_at, opened, opening};
ghost use Rattle.file.specs.Records.{records, begins, is_header};

use crate::records::Records;
use crate::transactions::begins_header;
use octets::class::{Digit, every, is_type_a};
use octets::part::columns_of;
use octets::value::number_at;

// A file has at most 16 MiB.
const LONGEST: usize = 16_777_216;

// Why a file is refused before its transactions are looked at.
#[derive(Clone, Copy, PartialEq, Eq, Debug)]
pub enum OpeningFault {
    TooLong = 1,
    NoEnd = 2,
    NoIdentifier = 3,
    BadBatchHeader = 4,
    NoTransaction = 5,
}

impl OpeningFault {
    pub fn code(self) -> u16
        ensures { result ≡ code_of self }
    {
        self as u16
    }
}

// The File ID Number, under which a book marks the file, and the number of records that the file states.
#[derive(Clone, Copy, PartialEq, Eq, Debug)]
pub struct Opening {
    pub id: [u8; 19],
    pub stated: u32,
}

fn ends_in_feed(file: &[u8]) -> bool
    ensures { result ≡ ends_in_feed file.now }
{
    file.last() == Some(&b'\n')
}

fn is_batch_header(record: &[u8]) -> bool
    ensures { result ≡ is_batch_header «record».now }
{
    record.len() == 32
        && columns_of(record, 1, 5) == b"BIPAC".as_slice()
        && every::<Digit>(columns_of(record, 6, 8))
        && is_type_a(columns_of(record, 14, 19))
}

// The first two records of a file, and what stands behind them.
#[derive(Clone, Copy)]
pub(crate) struct Top<'a> {
    pub(crate) identifier: &'a [u8],
    pub(crate) batch_header: &'a [u8],
    rest: &'a [u8],
}

pub(crate) fn top_of(file: &[u8]) -> Top<'_>
    ensures identifier { result.identifier.now ≡ record_at 1 file.now }
    ensures header { result.batch_header.now ≡ record_at 2 file.now }
    ensures rest { records result.rest.now ≡ drop 2 (records file.now) }
    ensures third { begins 72 result.rest.now ≡ is_header (record_at 3 file.now) }
{
    let mut records = Records::of(file);
    let identifier = records.next_line(7).bytes();
    let batch_header = records.next_line(32).bytes();
    Top {
        identifier,
        batch_header,
        rest: records.rest(),
    }
}

fn opened_by(batch_header: &[u8]) -> Opening
    requires { length batch_header.now ≡ 32 }
    ensures { result ≡ opened batch_header.now }
{
    Opening {
        id: *columns_of(batch_header, 14, 19).as_array().unwrap(),
        stated: number_at(batch_header, 6, 8) as u32,
    }
}

impl Opening {
    // The refusal is the first that applies.
    pub fn of(file: &[u8]) -> Result<Opening, OpeningFault>
        ensures { result ≡ opening file.now }
    {
        if file.len() > LONGEST {
            return Err(OpeningFault::TooLong);
        }
        if !ends_in_feed(file) {
            return Err(OpeningFault::NoEnd);
        }
        let top = top_of(file);
        if top.identifier != b"PCA    ".as_slice() {
            return Err(OpeningFault::NoIdentifier);
        }
        if !is_batch_header(top.batch_header) {
            return Err(OpeningFault::BadBatchHeader);
        }
        if !begins_header(top.rest) {
            return Err(OpeningFault::NoTransaction);
        }
        Ok(opened_by(top.batch_header))
    }
}

// The text behind a file's first two records: its transactions.
pub fn body(file: &[u8]) -> &[u8]
    ensures { records result.now ≡ drop 2 (records file.now) }
{
    top_of(file).rest
}
