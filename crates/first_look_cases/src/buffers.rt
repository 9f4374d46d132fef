// A file of one transaction, and packet buffers that just suffice, do not, or are longer.
use first_look::first_look;

// Its Set ID is unknown.
const FILE: &[u8] =
    b"PCA    \nBIPAC000000040000123420260105001\nH00000000000000000000000000000000000999\n";

const FILE_ITEM: &[u8] = b"\x12\0\x01\0\x04\0\0\0\x03\0\0\0\x01\0\0\0\0\0\0\0";

const VERDICT_ITEM: &[u8] = b"\x0E\0\x02\0\x01\0\0\0\x1E\0\0\0\0\0\x25\0";

fn look(packet: &mut [u8]) -> u64 {
    first_look(FILE, b"", b"", b"", b"", b"", 0, packet)
}

#[test]
fn just_long_enough(rt: HostRuntime) {
    let mut packet = [0xAA; 36];
    assert_eq!(rt; look(&mut packet), 36);
    assert_eq!(rt; &packet[0..20], FILE_ITEM);
    assert_eq!(rt; &packet[20..36], VERDICT_ITEM);
}

#[test]
fn one_byte_short(rt: HostRuntime) {
    let mut packet = [0xAA; 35];
    assert_eq!(rt; look(&mut packet), 7);
    assert_eq!(rt; packet, [0xAA; 35]);
}

#[test]
fn no_byte(rt: HostRuntime) {
    let mut packet = [0; 0];
    assert_eq!(rt; look(&mut packet), 7);
}

#[test]
fn bytes_behind_stay(rt: HostRuntime) {
    let mut packet = [0xAA; 40];
    assert_eq!(rt; look(&mut packet), 36);
    assert_eq!(rt; &packet[0..20], FILE_ITEM);
    assert_eq!(rt; &packet[20..36], VERDICT_ITEM);
    assert_eq!(rt; &packet[36..40], [0xAA; 4].as_slice());
}
