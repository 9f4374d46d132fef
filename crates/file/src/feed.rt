// Where the first record of a text ends.
ghost use Rattle.std.specs.Prelude.{◌≡◌, ◌≤◌, length, take};
ghost use Rattle.file.specs.Lengths.{line_len};

use memchr::memchr;
use octets::class::{InLine, each};
use octets::line::Line;

// The same as `line_len`, byte by byte: for a few bytes.
fn few_len(bytes: &[u8]) -> usize
    ensures value { result ≡ line_len bytes.now }
    ensures within { result ≤ length bytes.now }
{
    bytes
        .iter()
        .position(|byte| *byte == b'\n')
        .unwrap_or(bytes.len())
}

// The same, by so many blocks of 16 bytes and then by memchr: where a record is short, the blocks cost less than a search of the whole text.
fn near_len(text: &[u8], blocks: usize) -> usize
    ensures value { result ≡ line_len text.now }
    ensures within { result ≤ length text.now }
{
    if blocks == 0 {
        return memchr(b'\n', text).unwrap_or(text.len());
    }
    match text.split_first_chunk::<16>() {
        Some((block, rest)) if each::<InLine>(block) => 16 + near_len(rest, blocks - 1),
        Some((block, _)) => few_len(block),
        None => few_len(text),
    }
}

// How many bytes stand before the first line feed, or in the text if it has none.
#[inline]
pub fn line_len(text: &[u8]) -> usize
    ensures value { result ≡ line_len text.now }
    ensures within { result ≤ length text.now }
{
    near_len(text, 8)
}

// The first record of a text. Where it has the length that is expected, one pass both finds its end and shows it printable.
#[inline]
pub fn first_line(text: &[u8], expected: usize) -> Line<'_>
    ensures { result.bytes.now ≡ take (line_len text.now) text.now }
{
    if text.get(expected) == Some(&b'\n') {
        let line = Line::seen(&text[..expected]);
        if line.is_known_printable() {
            return line;
        }
    }
    Line::of(&text[..line_len(text)])
}
