// The items of a packet, byte by byte, and how they are written into a buffer.
#![tactic(auto)]

ghost use Rattle.std.specs.Prelude.{◌≡◌, ◌+◌, ◌≤◌, length, nat_le};
ghost use Rattle.promises.specs.Packets.{file_item, verdict_item, code_item};
ghost use Rattle.packet.specs.Written.{written, written_if, refusal_length, refusal_in};

use transaction::verdict::Verdict;

// Kind 1: records stated and found, transactions, accepted.
// Lists its bytes: each stands once, in its place, and four slices copied into an array of zeros would say no more.
pub fn file_item(stated: u32, found: usize, transactions: usize, accepted: usize) -> [u8; 20]
    ensures { result ≡ file_item stated found transactions accepted }
{
    let s = stated.to_le_bytes();
    let f = found.to_le_bytes();
    let t = transactions.to_le_bytes();
    let a = accepted.to_le_bytes();
    [
        18, 0, 1, 0, s[0], s[1], s[2], s[3], f[0], f[1], f[2], f[3], t[0], t[1], t[2], t[3], a[0],
        a[1], a[2], a[3],
    ]
}

// Kind 2: a transaction's number, code, record and column.
fn judged_item(number: usize, code: u16, record: usize, column: usize) -> [u8; 16]
    ensures { result ≡ verdict_item number (Verdict.Refused code «record» column) }
{
    let n = number.to_le_bytes();
    let c = code.to_le_bytes();
    let r = record.to_le_bytes();
    let k = column.to_le_bytes();
    [
        14, 0, 2, 0, n[0], n[1], n[2], n[3], c[0], c[1], r[0], r[1], r[2], r[3], k[0], k[1],
    ]
}

// The item of a verdict; an accepted transaction has 0, 0, 0.
pub fn verdict_item(number: usize, verdict: Verdict) -> [u8; 16]
    ensures { result ≡ verdict_item number verdict }
{
    match verdict {
        Verdict::Accepted => judged_item(number, 0, 0, 0),
        Verdict::Refused(code, record, column) => judged_item(number, code, record, column),
    }
}

// Kind 3: a file code.
pub fn code_item(code: u16) -> [u8; 6]
    ensures { result ≡ code_item code }
{
    let c = code.to_le_bytes();
    [4, 0, 3, 0, c[0], c[1]]
}

fn put_within(buffer: &mut [u8], at: usize, bytes: &[u8])
    requires { at + length bytes.now ≤ length buffer.old }
    ensures { buffer.new ≡ written buffer.old at bytes.now }
{
    buffer[at..at + bytes.len()].copy_from_slice(bytes);
}

// Writes the bytes from place `at` on, and leaves all others. It answers whether there was room; where there was not, it writes nothing.
// Answers a bool: whoever asks goes on either way, and passes no refusal on.
pub fn put(buffer: &mut [u8], at: usize, bytes: &[u8]) -> bool
    ensures room { result ≡ nat_le (at + length bytes.now) (length buffer.old) }
    ensures after { buffer.new ≡ written_if buffer.old at bytes.now }
{
    if at > buffer.len() || bytes.len() > buffer.len() - at {
        return false;
    }
    put_within(buffer, at, bytes);
    true
}

// Writes the item of kind 3 for a file code into a buffer of at least six bytes, and nothing into a shorter one. It answers how many bytes it wrote.
pub fn refusal(buffer: &mut [u8], code: u16) -> usize
    ensures value { result ≡ refusal_length buffer.old }
    ensures after { buffer.new ≡ refusal_in buffer.old code }
{
    let item = code_item(code);
    if put(buffer, 0, &item) { 6 } else { 0 }
}

#[cfg(test)]
mod tests {
    use super::*;

    // A file with one transaction whose Set ID is unknown: 36 bytes, and what is behind them stays.
    #[test]
    fn smallest_packet(rt: HostRuntime) {
        let mut buffer = [0xAA; 38];
        assert!(rt; put(&mut buffer, 0, &file_item(4, 3, 1, 0)));
        let item = verdict_item(1, Verdict::Refused(30, 0, 37));
        assert!(rt; put(&mut buffer, 20, &item));
        let packet = [
            0x12, 0, 1, 0, 4, 0, 0, 0, 3, 0, 0, 0, 1, 0, 0, 0, 0, 0, 0, 0, 0x0E, 0, 2, 0, 1, 0, 0,
            0, 0x1E, 0, 0, 0, 0, 0, 0x25, 0, 0xAA, 0xAA,
        ];
        assert_eq!(rt; buffer, packet);
    }

    #[test]
    fn refusal_needs_six_bytes(rt: HostRuntime) {
        let mut short = [0xAA; 5];
        assert_eq!(rt; refusal(&mut short, 7), 0);
        assert_eq!(rt; short, [0xAA; 5]);
        let mut long = [0xAA; 7];
        assert_eq!(rt; refusal(&mut long, 7), 6);
        assert_eq!(rt; long, [4, 0, 3, 0, 7, 0, 0xAA]);
    }
}
