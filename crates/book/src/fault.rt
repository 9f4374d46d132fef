// Why an action on a book is refused, and its number.
ghost use Rattle.std.specs.Prelude.{◌≡◌};
ghost use Rattle.book.specs.Faults.{fault_number, fault_of};

use ordered::refusal::Refusal;

#[derive(Clone, Copy, PartialEq, Eq, Debug)]
pub enum BookFault {
    Held = 14,
    Full = 15,
    Absent = 16,
    AboveOpen = 17,
    CountTooLarge = 18,
}

impl BookFault {
    pub fn number(self) -> u16
        ensures { result ≡ fault_number self }
    {
        self as u16
    }
}

// What a table's refusal is as the book's.
impl From<Refusal> for BookFault {
    ghost from_gives = { λ refusal fault. fault ≡ fault_of refusal };

    fn from(refusal: Refusal) -> BookFault {
        match refusal {
            Refusal::Held => BookFault::Held,
            Refusal::Full => BookFault::Full,
        }
    }
}
