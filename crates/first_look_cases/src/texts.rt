// A payment's header alone. With good registers only its details are wanting: 41.
use first_look::first_look;

const FILE: &[u8] =
    b"PCA    \nBIPAC000000030000123420260105001\nH00001234000000000001000000567801234820REF00001  \n";

const AGENCIES: &[u8] = b"0000123400005678";

const OFFICES: &[u8] = b"01234";

// Whether the one transaction gets the code, in its header at the column.
fn gets(agencies: &[u8], offices: &[u8], code: u8, column: u8) -> bool {
    let mut packet = [0; 36];
    let length = first_look(FILE, agencies, offices, b"", b"", b"", 0, &mut packet);
    let item = [14, 0, 2, 0, 1, 0, 0, 0, code, 0, 0, 0, 0, 0, column, 0];
    length == 36 && &packet[20..36] == item.as_slice()
}

#[test]
fn good_texts(rt: HostRuntime) {
    assert!(rt; gets(AGENCIES, OFFICES, 41, 1));
}

#[test]
fn line_feed_at_the_end(rt: HostRuntime) {
    assert!(rt; gets(b"0000123400005678\n", OFFICES, 51, 2));
    assert!(rt; gets(AGENCIES, b"01234\n", 51, 32));
}

#[test]
fn not_ascending(rt: HostRuntime) {
    assert!(rt; gets(b"0000567800001234", OFFICES, 51, 2));
}
