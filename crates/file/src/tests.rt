// The edges of a file's opening, and a walk through a small file.
use crate::opening::{Opening, body};
use crate::records::Records;
use crate::tally::{Found, Tally};
use crate::transactions::Transactions;
use std::test::Fail;

// Whether each of the files is refused with the code, or opens well where there is none.
fn each_gets(code: Option<u16>, files: &[&[u8]]) -> bool {
    files.iter().all(|file| Opening::of(file).err().map(|fault| fault.code()) == code)
}

#[test]
fn good_opening(rt: HostRuntime) -> Result<(), Fail> {
    let opening = Opening::of(b"PCA    \nBIPAC000000040000123420260105001\nH\n")?;
    assert_eq!(rt; opening.stated, 4);
    assert_eq!(rt; &opening.id, b"0000123420260105001");
    Ok(())
}

#[test]
fn spaces_may_end_the_file_id(rt: HostRuntime) {
    assert!(rt; each_gets(None, &[b"PCA    \nBIPAC99999999a file of mine     \nH\n"]));
}

#[test]
fn files_without_an_end(rt: HostRuntime) {
    assert!(rt;
        each_gets(
            Some(2),
            &[
                b"",
                b"PCA    ",
                b"PCA    \nBIPAC000000040000123420260105001\nH",
            ],
        )
    );
}

// One line feed; six bytes; and carriage returns, which make it eight.
#[test]
fn bad_first_records(rt: HostRuntime) {
    assert!(rt;
        each_gets(
            Some(3),
            &[
                b"\n",
                b"PCA   \n",
                b"PCA    \r\nBIPAC000000040000123420260105001\r\nH\r\n",
            ],
        )
    );
}

// Absent; 31 bytes; 33 bytes; not BIPAC; a letter in the count; no File ID Number, and one that begins with a space.
#[test]
fn bad_second_records(rt: HostRuntime) {
    assert!(rt;
        each_gets(
            Some(4),
            &[
                b"PCA    \n",
                b"PCA    \nBIPAC00000004000012342026010500\nH\n",
                b"PCA    \nBIPAC0000000400001234202601050011\nH\n",
                b"PCA    \nBIPAX000000040000123420260105001\nH\n",
                b"PCA    \nBIPAC0000000A0000123420260105001\nH\n",
                b"PCA    \nBIPAC00000004                   \nH\n",
                b"PCA    \nBIPAC00000004 000123420260105001\nH\n",
            ],
        )
    );
}

// Absent; empty; and a small letter.
#[test]
fn bad_third_records(rt: HostRuntime) {
    assert!(rt;
        each_gets(
            Some(5),
            &[
                b"PCA    \nBIPAC000000040000123420260105001\n",
                b"PCA    \nBIPAC000000040000123420260105001\n\n",
                b"PCA    \nBIPAC000000040000123420260105001\nh\n",
            ],
        )
    );
}

// Two transactions: a header with a D, an E and an empty record; and a header with a record of no letter.
#[test]
fn walks_a_file(rt: HostRuntime) -> Result<(), Fail> {
    let file = b"PCA    \nBIPAC000000080000123420260105001\nH1\nD1\nE1\n\nH2\nx\n";
    let found = Found::of(file);
    assert_eq!(rt; found.records, 8);
    assert_eq!(rt; found.transactions, 2);
    let mut transactions = Transactions::of(body(file));
    let first = transactions.next().ok_or("no first transaction")?;
    assert_eq!(rt; first, b"H1\nD1\nE1\n\n".as_slice());
    let second = transactions.next().ok_or("no second transaction")?;
    assert_eq!(rt; second, b"H2\nx\n".as_slice());
    assert!(rt; transactions.next().is_none());
    let tally = Tally::of(first);
    assert_eq!(rt; tally.records, 4);
    assert_eq!(rt; tally.details, 1);
    assert_eq!(rt; tally.entries, 1);
    Ok(())
}

#[test]
fn walks_records(rt: HostRuntime) {
    let mut records = Records::of(b"H1\n\nD1");
    assert_eq!(rt; records.next_line(2).bytes(), b"H1".as_slice());
    assert_eq!(rt; records.next_line(2).bytes(), b"".as_slice());
    assert_eq!(rt; records.rest(), b"D1".as_slice());
    assert_eq!(rt; records.next_line(9).bytes(), b"D1".as_slice());
    assert!(rt; records.is_done());
}
