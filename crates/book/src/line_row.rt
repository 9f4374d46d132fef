// The row of a line, and its key: the pair, and the line's number in six digits.
ghost use Rattle.std.specs.Prelude.{◌≡◌, ℕ, ◌+◌, ◌-◌, ◌<◌, ◌≤◌, true, length, if◌then◌else◌, Some, None};
ghost use Rattle.std.specs.Option.{option_map};
ghost use Rattle.book.specs.Meaning.{line_under, line_told};
ghost use Rattle.book.specs.Told.{line_number_told};
ghost use Rattle.book.specs.Stands.{is_line_number};
ghost use Rattle.book.specs.Rows.{digits_of, line_key, line_of, line_code, sound_line, unused_line};

use super::entry_row::entry_key;
use super::line::Line;
use super::line_number::LineNumber;
use layout::pair::Pair;
use ordered::Keyed;

// The parts of a line are fields by themselves and not one Line, as the definitions read them.
#[derive(Clone, Copy, PartialEq, Eq, Debug, Default)]
pub struct LineRow {
    pub amount: u64,
    pub key: [u8; 19],
    pub sender: [u8; 27],
    pub receiver: [u8; 27],
}

impl Keyed for LineRow {
    ghost code = { line_code };

    ghost sound = { sound_line };

    fn key(&self) -> &[u8] {
        &self.key
    }
}

impl LineNumber {
    // The number, if it is from 1 to 1,000.
    pub fn new(n: u32) -> Option<LineNumber>
        ensures { option_map line_number_told result ≡ (if is_line_number n then Some n else None) }
    {
        if 1 <= n && n <= 1000 {
            Some(LineNumber { value: n as u16 })
        } else {
            None
        }
    }
}

// Writes a number in as many digits as there are places, from the last on.
fn write_digits(places: &mut [u8], number: u16)
    ensures { places.new ≡ digits_of (length places.old) number }
{
    if let Some((last, front)) = places.split_last_mut() {
        *last = b'0' + (number % 10) as u8;
        write_digits(front, number / 10);
    }
}

// The key of the line with a number under a pair. The clauses office and reference hand on the pair's lengths.
pub fn line_key(pair: &Pair, number: LineNumber) -> [u8; 19]
    ensures is { result ≡ line_key pair.now number.value }
    ensures office { length pair.now.office ≡ 5 }
    ensures reference { length pair.now.reference ≡ 8 }
{
    let mut key = [0; 19];
    key[..13].copy_from_slice(&entry_key(pair));
    write_digits(&mut key[13..], number.value);
    key
}

impl LineRow {
    // What fills a place that is not used.
    pub fn unused() -> LineRow
        ensures { result ≡ unused_line }
    {
        LineRow::default()
    }

    // The row of a line. The clauses office and reference hand on the pair's lengths.
    pub fn new(pair: &Pair, number: LineNumber, line: &Line) -> LineRow
        ensures means { line_of result ≡ line_under pair.now number.value line.now }
        ensures key { line_code result ≡ line_key pair.now number.value }
        ensures sound { sound_line result ≡ true }
        ensures office { length pair.now.office ≡ 5 }
        ensures reference { length pair.now.reference ≡ 8 }
    {
        LineRow {
            amount: line.amount,
            key: line_key(pair, number),
            sender: line.sender,
            receiver: line.receiver,
        }
    }

    pub fn line(&self) -> Line
        ensures { result ≡ line_told (line_of self.now) }
    {
        Line {
            amount: self.amount,
            sender: self.sender,
            receiver: self.receiver,
        }
    }
}
