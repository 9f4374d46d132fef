// Entering an accepted candidate: its entry, its lines in order, and what it takes from its original.
ghost use Rattle.std.specs.Prelude.{◌≡◌, [], ◌∷◌, length};
ghost use Rattle.book.specs.Actions.{entering, enter_line};
ghost use Rattle.book.specs.Meaning.{fresh, line_under};
ghost use Rattle.file.specs.Records.{records};
ghost use Rattle.promises.specs.Entering.{entry_of, line_of, enter_lines, enter_own, taken_from, apply};
ghost use Rattle.promises.specs.Judging.{book_checks};
ghost use Rattle.promises.specs.Own.{lines_of};
ghost use Rattle.transaction.specs.Details.{read_as, details_of, sender_in, receiver_in};
ghost use Rattle.transaction.specs.Headers.{own_pair, set_id_of, total_of};
ghost use Rattle.transaction.specs.Verdicts.{verdict};
ghost use Rattle.transaction.specs.declared.verdict.Verdict.TheVariants.{Accepted};
ghost use Rattle.settle.specs.Entering.{Ready, taking_at};

use crate::candidate::Candidate;
use crate::original::adjusts;
use book::Book;
use book::line::Line;
use book::line_number::LineNumber;
use book::new_entry::NewEntry;
use layout::pair::Pair;
use layout::set_id::SetId;
use transaction::details::{Detail, Details};

fn line_from(set: SetId, detail: &Detail<'_>) -> Line
    requires { (length (sender_in set detail.now.«record».now) ≡ 27) × (length (receiver_in set detail.now.«record».now) ≡ 27) }
    ensures { result ≡ line_of set (read_as detail.now.number detail.now.«record».now detail.now.entries) }
{
    Line {
        amount: detail.amount(set),
        sender: *detail.sender(set).as_array().unwrap(),
        receiver: *detail.receiver(set).as_array().unwrap(),
    }
}

impl Candidate<'_> {
    // One line. The number is free and there is a place, so the book does not refuse it.
    // Ready stays a `requires`: it speaks of the book as each line finds it, which no value keeps while lines are entered.
    fn enter_detail<B: Book>(&self, book: &mut B, pair: &Pair, number: u32, detail: &Detail<'_>)
        requires { Ready (B.Book.meaning book.old) pair.now (set_id_of self.now.sound.transaction) number (read_as detail.now.number detail.now.«record».now detail.now.entries ∷ []) }
        ensures { B.Book.meaning book.new ≡ enter_line (line_under pair.now number (line_of (set_id_of self.now.sound.transaction) (read_as detail.now.number detail.now.«record».now detail.now.entries))) (B.Book.meaning book.old) }
    {
        if let Some(number) = LineNumber::new(number) {
            let _ = book.enter_line(pair, number, &line_from(self.set(), detail));
        }
    }

    // A line for each detail, numbered from 1.
    fn enter_details<B: Book>(&self, book: &mut B, pair: &Pair)
        requires { Ready (B.Book.meaning book.old) pair.now (set_id_of self.now.sound.transaction) 1 (details_of (records self.now.sound.body.now)) }
        ensures { B.Book.meaning book.new ≡ enter_lines pair.now (set_id_of self.now.sound.transaction) 1 (details_of (records self.now.sound.body.now)) (B.Book.meaning book.old) }
    {
        for (detail, number) in Details::of(self.sound.body).zip(1..) {
            self.enter_detail(book, pair, number, &detail);
        }
    }

    // None under 835, and 840 enters nothing.
    fn enter_lines<B: Book>(&self, book: &mut B, pair: &Pair)
        requires { Ready (B.Book.meaning book.old) pair.now (set_id_of self.now.sound.transaction) 1 (lines_of self.now.sound.transaction (details_of (records self.now.sound.body.now))) }
        ensures { B.Book.meaning book.new ≡ enter_lines pair.now (set_id_of self.now.sound.transaction) 1 (lines_of self.now.sound.transaction (details_of (records self.now.sound.body.now))) (B.Book.meaning book.old) }
    {
        match self.set() {
            SetId::Payment
            | SetId::Collection
            | SetId::ReceiverAdjustment
            | SetId::SenderAdjustment => self.enter_details(book, pair),
            SetId::ZeroDollar | SetId::PostSgl => {}
        }
    }

    fn enter_entry<B: Book>(&self, book: &mut B, pair: &Pair, day: u32)
        ensures { B.Book.meaning book.new ≡ entering (B.Book.meaning book.old) (fresh pair.now (entry_of day self.now.sound.transaction)) }
    {
        let new = NewEntry {
            set_id: self.set(),
            day,
            total: self.sound.transaction.total(),
        };
        let _ = book.enter_entry(pair, new);
    }

    // The pair that an adjustment takes from.
    fn taken_from(&self) -> Option<Pair>
        ensures { result ≡ taken_from self.now.sound.transaction }
    {
        if adjusts(self.set()) {
            self.sound.transaction.original()
        } else {
            None
        }
    }

    fn take_from_original<B: Book>(&self, book: &mut B)
        ensures { B.Book.meaning book.new ≡ taking_at (total_of self.now.sound.transaction) (taken_from self.now.sound.transaction) (B.Book.meaning book.old) }
    {
        if let Some(original) = self.taken_from() {
            let _ = book.take_open(&original, self.sound.transaction.total());
        }
    }

    // Its own entry and lines, if it has a pair of its own.
    fn enter_own<B: Book>(&self, book: &mut B, day: u32)
        requires { let s = self.now.sound in verdict (book_checks (B.Book.meaning book.old) day s.transaction (details_of (records s.body.now))) ≡ Accepted }
        ensures { let s = self.now.sound in B.Book.meaning book.new ≡ enter_own day s.transaction (details_of (records s.body.now)) (own_pair s.transaction) (B.Book.meaning book.old) }
    {
        if let Some(pair) = self.sound.transaction.own() {
            self.enter_entry(book, &pair, day);
            self.enter_lines(book, &pair);
        }
    }

    // What it does to the book once it has passed every check: no action is refused.
    pub(crate) fn enter<B: Book>(&self, book: &mut B, day: u32)
        requires { let s = self.now.sound in verdict (book_checks (B.Book.meaning book.old) day s.transaction (details_of (records s.body.now))) ≡ Accepted }
        ensures { let s = self.now.sound in B.Book.meaning book.new ≡ apply day s.transaction (details_of (records s.body.now)) (B.Book.meaning book.old) }
    {
        self.enter_own(book, day);
        self.take_from_original(book);
    }
}
