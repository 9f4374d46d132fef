// One text of steps for every make; then each make is taken through it.
use book::Book;
use book::entry::Entry;
use book::entry_row::EntryRow;
use book::fault::BookFault;
use book::line::Line;
use book::line_number::LineNumber;
use book::line_row::LineRow;
use book::mark::{Counts, Mark};
use book::mark_row::MarkRow;
use book::new_entry::NewEntry;
use book::sought::Sought;
use layout::pair::Pair;
use layout::set_id::SetId;
use lent_book::LentBook;
use small_book::SmallBook;
use std::process::Abort;
use std::test::Fail;

// What an action answers, with the number of the refusal.
fn code(answer: Result<(), BookFault>) -> Result<(), u16> {
    answer.map_err(|fault| fault.number())
}

// The last digit of a number.
fn digit(n: u32) -> u8 {
    b'0' + (n % 10) as u8
}

fn pair(office: &[u8; 5], n: u32) -> Pair {
    let mut reference = *b"00000000";
    reference[5] = digit(n / 100);
    reference[6] = digit(n / 10);
    reference[7] = digit(n);
    Pair {
        office: *office,
        reference,
    }
}

fn file(n: u32) -> [u8; 19] {
    let mut id = *b"2026010500000000000";
    id[17] = digit(n / 10);
    id[18] = digit(n);
    id
}

fn payment(total: u64) -> NewEntry {
    NewEntry {
        set_id: SetId::Payment,
        day: 100,
        total,
    }
}

// What seek answers of a payment from which nothing was taken.
fn sought(reference: &[u8; 8], total: u64) -> Sought {
    Sought {
        reference: *reference,
        entry: Entry {
            set_id: SetId::Payment,
            day: 100,
            total,
            open_amount: total,
        },
    }
}

fn line(amount: u64) -> Line {
    Line {
        amount,
        sender: [b'S'; 27],
        receiver: [b' '; 27],
    }
}

fn counted(accepted: u32, rejected: u32) -> Mark {
    Mark { accepted, rejected }
}

fn counts(accepted: u64, rejected: u64) -> Counts {
    Counts { accepted, rejected }
}

fn number(n: u32) -> Result<LineNumber, Fail> {
    LineNumber::new(n).ok_or_else(|| Fail::new("no line number"))
}

// An entry's total and open amount.
fn amounts<B: Book>(book: &B, pair: &Pair) -> Option<(u64, u64)> {
    book.entry(pair)
        .map(|entry| (entry.total, entry.open_amount))
}

fn amount_of<B: Book>(book: &B, pair: &Pair, number: LineNumber) -> Option<u64> {
    book.line(pair, number).map(|line| line.amount)
}

fn entries<B: Book>(rt: &impl Abort, book: &mut B) {
    let a = pair(b"10001", 7);
    let b = pair(b"10001", 3);
    let other = pair(b"10002", 7);
    assert_eq!(rt; amounts(book, &a), None);
    let codes = [
        code(book.enter_entry(&a, payment(1000))),
        code(book.enter_entry(&b, payment(500))),
        code(book.enter_entry(&other, payment(70))),
        code(book.enter_entry(&a, payment(1))),
    ];
    assert!(rt; codes == [Ok(()), Ok(()), Ok(()), Err(14)]);
    assert_eq!(rt; amounts(book, &a), Some((1000, 1000)));
    assert_eq!(rt; amounts(book, &b), Some((500, 500)));
    assert_eq!(rt; amounts(book, &other), Some((70, 70)));
    assert_eq!(rt; book.free().entries, 61);
}

fn takes<B: Book>(rt: &impl Abort, book: &mut B) {
    let a = pair(b"10001", 7);
    let absent = pair(b"10001", 8);
    let codes = [
        code(book.take_open(&absent, 0)),
        code(book.take_open(&a, 1001)),
        code(book.take_open(&a, 400)),
        code(book.take_open(&a, 601)),
    ];
    assert!(rt; codes == [Err(16), Err(17), Ok(()), Err(17)]);
    assert_eq!(rt; amounts(book, &a), Some((1000, 600)));
    let codes = [
        code(book.take_open(&a, 600)),
        code(book.take_open(&a, 1)),
        code(book.take_open(&a, 0)),
    ];
    assert!(rt; codes == [Ok(()), Err(17), Ok(())]);
    assert_eq!(rt; amounts(book, &a), Some((1000, 0)));
    assert_eq!(rt; amounts(book, &pair(b"10001", 3)), Some((500, 500)));
}

// Under the first office one entry has an open amount left, under the second one, under the third none.
fn seeks<B: Book>(rt: &impl Abort, book: &mut B) {
    let adjustment = NewEntry {
        set_id: SetId::SenderAdjustment,
        day: 101,
        total: 9,
    };
    assert_eq!(rt;
        code(book.enter_entry(&pair(b"10003", 1), adjustment)),
        Ok(())
    );
    assert_eq!(rt; book.seek(b"10003"), None);
    assert_eq!(rt; book.seek(b"99999"), None);
    assert_eq!(rt; book.seek(b"10001"), Some(sought(b"00000003", 500)));
    assert_eq!(rt; book.seek(b"10002"), Some(sought(b"00000007", 70)));
}

fn lines<B: Book>(rt: &impl Abort, book: &mut B) -> Result<(), Fail> {
    assert!(rt; LineNumber::new(0).is_none() && LineNumber::new(1001).is_none());
    let a = pair(b"10001", 7);
    let other = pair(b"10002", 7);
    let last = number(1000)?;
    let tenth = number(10)?;
    let codes = [
        code(book.enter_line(&a, last, &line(12))),
        code(book.enter_line(&a, tenth, &line(13))),
        code(book.enter_line(&other, tenth, &line(14))),
        code(book.enter_line(&a, last, &line(15))),
    ];
    assert!(rt; codes == [Ok(()), Ok(()), Ok(()), Err(14)]);
    assert_eq!(rt; amount_of(book, &a, last), Some(12));
    assert_eq!(rt; amount_of(book, &a, tenth), Some(13));
    assert_eq!(rt; amount_of(book, &other, tenth), Some(14));
    assert_eq!(rt; amount_of(book, &other, last), None);
    assert_eq!(rt; book.free().lines, 509);
    Ok(())
}

fn marks<B: Book>(rt: &impl Abort, book: &mut B) {
    let most = counted(16_777_216, 16_777_216);
    let above = counted(0, 16_777_217);
    let codes = [
        code(book.set_mark(&file(2), above)),
        code(book.set_mark(&file(2), most)),
        code(book.set_mark(&file(2), above)),
        code(book.set_mark(&file(1), counted(3, 0))),
    ];
    assert!(rt; codes == [Err(18), Ok(()), Err(14), Ok(())]);
    assert_eq!(rt; book.count(), counts(16_777_219, 16_777_216));
    assert_eq!(rt; book.mark(&file(1)), Some(counted(3, 0)));
    assert_eq!(rt; book.mark(&file(3)), None);
    assert_eq!(rt; book.free().marks, 14);
}

// All places used, and what is refused then: a held key first, then the want of a place, then a count too large.
fn fills_entries<B: Book>(rt: &impl Abort, book: &mut B) {
    for i in 0..64 {
        assert_eq!(rt;
            code(book.enter_entry(&pair(b"20001", i * 37 % 64), payment(50))),
            Ok(())
        );
    }
    for i in 0..64 {
        assert_eq!(rt; amounts(book, &pair(b"20001", i)), Some((50, 50)));
    }
    let codes = [
        code(book.enter_entry(&pair(b"20001", 63), payment(50))),
        code(book.enter_entry(&pair(b"20001", 64), payment(50))),
    ];
    assert!(rt; codes == [Err(14), Err(15)]);
    assert_eq!(rt; book.free().entries, 0);
}

fn fills_lines<B: Book>(rt: &impl Abort, book: &mut B) -> Result<(), Fail> {
    let a = pair(b"20001", 1);
    for i in 0..512 {
        assert_eq!(rt;
            code(book.enter_line(&a, number(1000 - i)?, &line(60))),
            Ok(())
        );
    }
    let first = number(1)?;
    let last = number(1000)?;
    let codes = [
        code(book.enter_line(&a, last, &line(61))),
        code(book.enter_line(&a, first, &line(61))),
    ];
    assert!(rt; codes == [Err(14), Err(15)]);
    assert_eq!(rt; amount_of(book, &a, last), Some(60));
    assert_eq!(rt; amount_of(book, &a, first), None);
    assert_eq!(rt; book.free().lines, 0);
    Ok(())
}

fn fills_marks<B: Book>(rt: &impl Abort, book: &mut B) {
    for i in 0..16 {
        assert_eq!(rt;
            code(book.set_mark(&file(i * 5 % 16), counted(1, 2))),
            Ok(())
        );
    }
    let above = counted(16_777_217, 0);
    let codes = [
        code(book.set_mark(&file(15), above)),
        code(book.set_mark(&file(16), above)),
    ];
    assert!(rt; codes == [Err(14), Err(15)]);
    assert_eq!(rt; book.count(), counts(16, 32));
    assert_eq!(rt; book.free().marks, 0);
}

fn used<B: Book>(rt: &impl Abort, book: &mut B) -> Result<(), Fail> {
    entries(rt, book);
    takes(rt, book);
    seeks(rt, book);
    lines(rt, book)?;
    marks(rt, book);
    Ok(())
}

fn filled<B: Book>(rt: &impl Abort, book: &mut B) -> Result<(), Fail> {
    fills_entries(rt, book);
    fills_lines(rt, book)?;
    fills_marks(rt, book);
    Ok(())
}

#[test]
fn small_book_is_used(rt: HostRuntime) -> Result<(), Fail> {
    let mut book = SmallBook::new();
    used(&rt, &mut book)
}

#[test]
fn small_book_is_filled(rt: HostRuntime) -> Result<(), Fail> {
    let mut book = SmallBook::new();
    filled(&rt, &mut book)
}

#[test]
fn lent_book_is_used(rt: HostRuntime) -> Result<(), Fail> {
    let mut entries = [EntryRow::unused(); 64];
    let mut lines = [LineRow::unused(); 512];
    let mut marks = [MarkRow::unused(); 16];
    let mut book = LentBook::new(&mut entries, &mut lines, &mut marks);
    used(&rt, &mut book)
}

#[test]
fn lent_book_is_filled(rt: HostRuntime) -> Result<(), Fail> {
    let mut entries = [EntryRow::unused(); 64];
    let mut lines = [LineRow::unused(); 512];
    let mut marks = [MarkRow::unused(); 16];
    let mut book = LentBook::new(&mut entries, &mut lines, &mut marks);
    filled(&rt, &mut book)
}
