// Registers of 0, 1, 2 and many keys, at the edges; refused texts; the map; joined and nested registers.
ghost use Rattle.std.specs.Prelude.{◌<◌};

use register::Register;
use register::bit_map::{BitMap, check_map};
use register::fault::TextFault;
use register::joined::Joined;
use register::key_list::KeyList;
use register::key_text::check_keys;

// Whether the register has each of the keys of one width, or none of them.
fn has_each<R: Register>(register: &R, keys: &[u8], width: usize) -> bool
    requires { 0 < width }
{
    keys.chunks(width).all(|key| register.has(key))
}

fn has_none<R: Register>(register: &R, keys: &[u8], width: usize) -> bool
    requires { 0 < width }
{
    !keys.chunks(width).any(|key| register.has(key))
}

#[test]
fn few_keys(rt: HostRuntime) {
    let none = KeyList::of(b"", 2);
    assert!(rt; has_none(&none, b"AABA", 2));
    let one = KeyList::of(b"BA", 2);
    assert!(rt; has_each(&one, b"BA", 2));
    assert!(rt; has_none(&one, b"AACA", 2));
    assert!(rt; has_none(&one, b"BAA", 3));
    assert!(rt; has_none(&one, b"B", 1));
    let two = KeyList::of(b"BAEA", 2);
    assert!(rt; has_each(&two, b"BAEA", 2));
    assert!(rt; has_none(&two, b"AACAFAAE", 2));
}

// The even numbers of two digits.
#[test]
fn many_keys(rt: HostRuntime) {
    let evens = KeyList::of(
        b"0002040608101214161820222426283032343638404244464850525456586062646668707274767880828486889092949698",
        2,
    );
    for n in 0..100u8 {
        assert!(rt; evens.has(&[b'0' + n / 10, b'0' + n % 10]) == (n % 2 == 0));
    }
}

#[test]
fn texts(rt: HostRuntime) {
    assert_eq!(rt; check_keys(b"", 1), Ok(()));
    assert_eq!(rt; check_keys(b"abcdefghijklmnopqrstuvwxyz\xff", 27), Ok(()));
    assert_eq!(rt; check_keys(b"", 0), Err(TextFault::Width));
    assert_eq!(rt; check_keys(b"", 28), Err(TextFault::Width));
    assert_eq!(rt; check_keys(b"BAEA\n", 2), Err(TextFault::Width));
    assert_eq!(rt; check_keys(b"EABA", 2), Err(TextFault::Order));
    assert_eq!(rt; check_keys(b"BABA", 2), Err(TextFault::Order));
    assert_eq!(rt; check_keys(b"A\x7fA\x80", 2), Ok(()));
}

#[test]
fn accounts(rt: HostRuntime) {
    let mut bits = [0u8; 1250];
    bits[0] = 1;
    bits[126] = 4;
    bits[1249] = 128;
    let map = BitMap::of(&bits);
    assert!(rt; has_each(&map, b"000010109999", 4));
    assert!(rt; has_none(&map, b"0001100910119998 101    ", 4));
    assert!(rt; has_none(&map, b"01010", 5));
    assert_eq!(rt; check_map(&bits), Ok(()));
}

#[test]
fn refused(rt: HostRuntime) {
    let descending = KeyList::of(b"EABA", 2);
    assert!(rt; has_none(&descending, b"EABA", 2));
    let bits = [255u8; 1249];
    assert_eq!(rt; check_map(&bits), Err(TextFault::Size));
    assert!(rt; has_none(&BitMap::of(&bits), b"00001010", 4));
}

#[test]
fn nested(rt: HostRuntime) {
    let bits = [255u8; 1250];
    let units = KeyList::of(b"BAEA", 2);
    let second = Joined {
        first: BitMap::of(&bits),
        second: &units,
    };
    let nested = Joined {
        first: KeyList::of(b"DZ", 2),
        second,
    };
    assert!(rt; has_each(&nested, b"DZBAEA", 2));
    assert!(rt; has_each(&nested, b"43210000", 4));
    assert!(rt; has_none(&nested, b"XXDA", 2));
}
