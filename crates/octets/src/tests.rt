// Numbers of 14 and of 18 digits, and columns past the end of a record.
use crate::part::columns_of;
use crate::value::number_at;

#[test]
fn numbers(rt: HostRuntime) {
    assert_eq!(rt; number_at(b"D99999999999999", 2, 14), 99_999_999_999_999);
    assert_eq!(rt;
        number_at(b"999999999999999999", 1, 18),
        999_999_999_999_999_999
    );
    assert_eq!(rt; number_at(b"0000000000000000000001", 5, 18), 1);
    assert_eq!(rt;
        number_at(b"1234567890123456789", 1, 19),
        123_456_789_012_345_678,
        "18 at most"
    );
    assert_eq!(rt; number_at(b"1 2", 1, 3), 102);
}

#[test]
fn columns_past_the_end(rt: HostRuntime) {
    assert_eq!(rt; columns_of(b"HDE", 2, 2), b"DE".as_slice());
    assert_eq!(rt; columns_of(b"HDE", 3, 2), b"E".as_slice());
    assert_eq!(rt; columns_of(b"HDE", 4, 2), b"".as_slice());
    assert_eq!(rt; number_at(b"12", 2, 5), 2);
    assert_eq!(rt; number_at(b"12", 9, 5), 0);
}
