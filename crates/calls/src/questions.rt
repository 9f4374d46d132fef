// Show, seek and count: what is asked of a book.
ghost use Rattle.std.specs.Prelude.{◌≡◌};
ghost use Rattle.book.specs.Told.{told, MaySeek};
ghost use Rattle.promises.specs.Calls.{show_answer, count_answer};
ghost use Rattle.std.specs.Option.{option_map};

use book::Book;
use book::entry::Entry;
use book::mark::Counts;
use book::sought::Sought;
use layout::pair::Pair;

// The entry of a pair, or nothing.
pub fn show<B: Book>(book: &B, pair: &Pair) -> Option<Entry>
    ensures { option_map told result ≡ show_answer (B.Book.meaning book.now) pair.now }
{
    book.entry(pair)
}

// Some payment or collection of an office with an open amount above zero, and nothing exactly if there is none.
pub fn seek<B: Book>(book: &B, office: &[u8; 5]) -> Option<Sought>
    ensures { MaySeek (B.Book.meaning book.now) office.now result }
{
    book.seek(office)
}

// How many transactions were accepted and rejected.
pub fn count<B: Book>(book: &B) -> Counts
    ensures { result ≡ count_answer (B.Book.meaning book.now) }
{
    book.count()
}
