// A candidate against its original: the entry that it names, and for each detail the line that it names.
ghost use Rattle.std.specs.Prelude.{◌≡◌, [], ◌∷◌, ◌==◌};
ghost use Rattle.std.specs.List.{flat_map};
ghost use Rattle.file.specs.Records.{records};
ghost use Rattle.promises.specs.Against.{adjusts, original_column, item_column, serves, agree, symbol_checks, line_checks, detail_checks, original_checks};
ghost use Rattle.promises.specs.Held.{at};
ghost use Rattle.transaction.specs.Details.{read_as, details_of, item_in, sender_in, receiver_in};
ghost use Rattle.transaction.specs.Headers.{set_id_of};
ghost use Rattle.transaction.specs.Verdicts.{check, verdict};
ghost use Rattle.settle.specs.Faults.{outcome};
ghost use Rattle.settle.specs.Originals.{line_as, answered, serving_check, age_check, open_check};

use crate::candidate::Candidate;
use crate::fault::SettleFault;
use book::entry::Entry;
use book::entry_row::is_adjustable;
use book::line::Line;
use book::{Book, line_of};
use layout::pair::Pair;
use layout::set_id::SetId;
use octets::class::is_blank;
use transaction::details::{Detail, Details};

// 812 and 829: they take from their original.
pub(crate) fn adjusts(set: SetId) -> bool
    ensures { result ≡ adjusts set }
{
    matches!(set, SetId::ReceiverAdjustment | SetId::SenderAdjustment)
}

// The column of the original's office; 1, not None, where no check asks for it, as the definition says.
fn original_column(set: SetId) -> usize
    ensures { result ≡ original_column set }
{
    match set {
        SetId::ReceiverAdjustment | SetId::SenderAdjustment => 50,
        SetId::PostSgl => 10,
        _ => 1,
    }
}

// The column of the original's line number; 1, not None, where no check asks for it, as the definition says.
fn item_column(set: SetId) -> usize
    ensures { result ≡ item_column set }
{
    match set {
        SetId::ReceiverAdjustment | SetId::SenderAdjustment => 93,
        SetId::PostSgl => 2,
        _ => 1,
    }
}

// Set ID and original stand by themselves here and below: a struct of the two would be made for four calls in a row.
fn serves(set: SetId, original: Option<Entry>) -> bool
    ensures { result ≡ serves set (answered original) }
{
    original.is_some_and(|entry| !adjusts(set) || is_adjustable(entry.set_id))
}

fn check_serving(set: SetId, original: Option<Entry>) -> Result<(), SettleFault>
    ensures { outcome result ≡ verdict (serving_check set (answered original)) }
{
    if !serves(set, original) {
        return Err(SettleFault::OriginalAbsent {
            column: original_column(set),
        });
    }
    Ok(())
}

// An adjustment may come up to 90 days after its original, and at any time before it.
fn check_age(day: u32, set: SetId, original: Option<Entry>) -> Result<(), SettleFault>
    ensures { outcome result ≡ verdict (age_check day set (answered original)) }
{
    let is_late = |entry: Entry| u64::from(day) > u64::from(entry.day) + 90;
    if adjusts(set) && original.is_some_and(is_late) {
        return Err(SettleFault::TooLate {
            column: original_column(set),
        });
    }
    Ok(())
}

fn check_open(total: u64, set: SetId, original: Option<Entry>) -> Result<(), SettleFault>
    ensures { outcome result ≡ verdict (open_check total set (answered original)) }
{
    if adjusts(set) && original.is_some_and(|entry| total > entry.open_amount) {
        return Err(SettleFault::AboveOpen);
    }
    Ok(())
}

// Symbols differ only where both are given.
fn agree(a: &[u8], b: &[u8]) -> bool
    ensures { result ≡ agree a.now b.now }
{
    is_blank(a) || is_blank(b) || a == b
}

// A symbol of the detail, which stands in this column, against one of the line.
fn check_symbol(number: usize, column: usize, given: &[u8], held: &[u8]) -> Result<(), SettleFault>
    ensures { outcome result ≡ verdict (check (agree given.now held.now) 64 number column ∷ []) }
{
    if !agree(given, held) {
        return Err(SettleFault::SymbolDiffers { number, column });
    }
    Ok(())
}

fn check_amount(number: usize, debits: u128, amount: u64) -> Result<(), SettleFault>
    ensures { outcome result ≡ verdict (check (debits == amount) 64 number 1 ∷ []) }
{
    if debits != u128::from(amount) {
        return Err(SettleFault::AmountDiffers { number });
    }
    Ok(())
}

// The symbols of a detail against those that the line has in their place.
// The Set ID stands beside the detail from here on, as at Detail's own methods: the detail does not know it.
fn check_symbols(
    set: SetId,
    detail: &Detail<'_>,
    as_sender: &[u8],
    as_receiver: &[u8],
) -> Result<(), SettleFault>
    ensures { outcome result ≡ verdict (symbol_checks detail.now.number (sender_in set detail.now.«record».now) as_sender.now (receiver_in set detail.now.«record».now) as_receiver.now) }
{
    check_symbol(detail.number, 100, detail.sender(set), as_sender)?;
    check_symbol(detail.number, 135, detail.receiver(set), as_receiver)
}

// A detail against the line that it names: 812 crosswise, 829 straight, 840 by the amount.
fn check_line(set: SetId, detail: &Detail<'_>, line: &Line) -> Result<(), SettleFault>
    ensures { outcome result ≡ verdict (line_checks set (read_as detail.now.number detail.now.«record».now detail.now.entries) (line_as line.now)) }
{
    match set {
        SetId::ReceiverAdjustment => check_symbols(set, detail, &line.receiver, &line.sender),
        SetId::SenderAdjustment => check_symbols(set, detail, &line.sender, &line.receiver),
        SetId::PostSgl => check_amount(detail.number, detail.entries.debits, line.amount),
        SetId::Payment | SetId::Collection | SetId::ZeroDollar => Ok(()),
    }
}

// The number of the line that a detail names: six digits at most.
fn item_of(set: SetId, detail: &Detail<'_>) -> u32
    ensures { result ≡ item_in set detail.now.«record».now }
{
    detail.item(set) as u32
}

// Book and pair stand by themselves in these methods: the book is lent to be read here, and to be changed where lines are entered.
impl Candidate<'_> {
    // A detail: the line that it names is there, and agrees.
    fn check_detail<B: Book>(
        &self,
        book: &B,
        pair: &Pair,
        detail: &Detail<'_>,
    ) -> Result<(), SettleFault>
        ensures { outcome result ≡ verdict (detail_checks (set_id_of self.now.sound.transaction) (at (B.Book.meaning book.now) pair.now) (read_as detail.now.number detail.now.«record».now detail.now.entries)) }
    {
        let set = self.set();
        match line_of(book, pair, item_of(set, detail)) {
            Some(line) => check_line(set, detail, &line),
            None => Err(SettleFault::NoLine {
                number: detail.number,
                column: item_column(set),
            }),
        }
    }

    // The first fault of the details.
    fn check_lines<B: Book>(&self, book: &B, pair: &Pair) -> Result<(), SettleFault>
        ensures { outcome result ≡ verdict (flat_map (detail_checks (set_id_of self.now.sound.transaction) (at (B.Book.meaning book.now) pair.now)) (details_of (records self.now.sound.body.now))) }
    {
        for detail in Details::of(self.sound.body) {
            self.check_detail(book, pair, &detail)?;
        }
        Ok(())
    }

    // The original that stands under this pair, or does not: its kind, its age, the lines, the open amount.
    pub(crate) fn check_original<B: Book>(
        &self,
        book: &B,
        pair: &Pair,
        day: u32,
    ) -> Result<(), SettleFault>
        ensures { let s = self.now.sound in outcome result ≡ verdict (original_checks day s.transaction (details_of (records s.body.now)) (at (B.Book.meaning book.now) pair.now)) }
    {
        let set = self.set();
        let original = book.entry(pair);
        check_serving(set, original)?;
        check_age(day, set, original)?;
        self.check_lines(book, pair)?;
        check_open(self.sound.transaction.total(), set, original)
    }
}
