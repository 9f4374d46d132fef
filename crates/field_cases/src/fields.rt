// Fields of a payment's records, good and refused.
ghost use Rattle.std.specs.Prelude.{◌<◌};

use field::check_field;
use layout::Layout;
use octets::line::Line;
use register::bit_map::BitMap;
use register::five::Five;
use register::key_list::KeyList;

// What the field of the layout that starts at the column gets with these bytes: its code where it is refused. None where no field starts there.
fn code_at(layout: Layout, column: usize, bytes: &[u8]) -> Option<Result<(), u16>> {
    let registers = Five {
        agencies: KeyList::of(b"00001234", 8),
        offices: KeyList::of(b"00012", 5),
        symbols: KeyList::of(b"     09720202021 1234000  C", 27),
        units: KeyList::of(b"BAEA", 2),
        accounts: BitMap::of(b""),
    };
    let field = layout
        .fields()
        .iter()
        .find(|field| field.start() == column)?;
    Some(check_field(Line::of(bytes), field, &registers).map_err(|fault| fault.cause.code()))
}

// Whether each value, of the field's length, gets its code, or is good. Values of one length in one text, and their codes beside: so a case stays in a line or two.
fn get(layout: Layout, column: usize, values: &[u8], len: usize, codes: &[Result<(), u16>]) -> bool
    requires { 0 < len }
{
    values.len() / len == codes.len()
        && values.chunks(len).zip(codes.iter()).all(|(value, code)| code_at(layout, column, value)
            == Some(*code))
}

#[test]
fn payment_header(rt: HostRuntime) {
    let header = Layout::PaymentHeader;
    assert!(rt;
        get(
            header,
            2,
            b"0000123400001235    1234        ",
            8,
            &[Ok(()), Err(51), Err(22), Err(21)],
        )
    );
    assert!(rt;
        get(
            header,
            32,
            b"0001200013 0012     ",
            5,
            &[Ok(()), Err(51), Err(22), Err(21)]
        )
    );
    assert!(rt; get(header, 37, b"820810812", 3, &[Ok(()), Ok(()), Err(22)]));
    assert!(rt;
        get(
            header,
            40,
            b"REF00001lower ~          REF0001REF\t0001",
            8,
            &[Ok(()), Ok(()), Ok(()), Err(22), Err(22)],
        )
    );
    assert!(rt; get(header, 48, b"   x", 2, &[Ok(()), Err(22)]));
}

#[test]
fn payment_detail(rt: HostRuntime) {
    let detail = Layout::PaymentDetail;
    assert!(rt;
        get(
            detail,
            30,
            b"0000000000065000000000000000           650",
            14,
            &[Ok(()), Err(22), Err(22)],
        )
    );
    assert!(rt; get(detail, 883, b"FPf ", 1, &[Ok(()), Ok(()), Err(22), Err(21)]));
    assert!(rt; get(detail, 920, b"CPN ", 1, &[Ok(()), Ok(()), Err(22), Ok(())]));
    assert!(rt;
        get(
            detail,
            1047,
            b"BAEAXX  ",
            2,
            &[Ok(()), Ok(()), Err(51), Err(21)]
        )
    );
    assert!(rt; get(Layout::SglEntry, 3, b"1010 101", 4, &[Err(51), Err(22)]));
}

#[test]
fn symbols(rt: HostRuntime) {
    let good = b"     09720202021 1234000  C";
    let unknown = b"     097        X1234000  C";
    let agency = b"     97 20202021 1234000  C";
    let prefix = b"1    09720202021 1234000  C";
    let letter = b"     09720202021 1234000  D";
    let blank = b"                           ";
    assert!(rt; get(Layout::PaymentDetail, 984, good, 27, &[Ok(())]));
    assert!(rt; get(Layout::PaymentDetail, 984, unknown, 27, &[Err(51)]));
    assert!(rt; get(Layout::PaymentDetail, 984, agency, 27, &[Err(22)]));
    assert!(rt; get(Layout::PaymentDetail, 984, prefix, 27, &[Err(22)]));
    assert!(rt; get(Layout::PaymentDetail, 984, letter, 27, &[Err(22)]));
    assert!(rt; get(Layout::PaymentDetail, 984, blank, 27, &[Err(21)]));
    assert!(rt; get(Layout::PaymentDetail, 921, blank, 27, &[Ok(())]));
}
