// Why a transaction that is sound on its own is refused against a book.
ghost use Rattle.std.specs.Prelude.{◌≡◌};
ghost use Rattle.settle.specs.Faults.{fault_verdict, outcome};

use transaction::verdict::Verdict;

// A record goes by its number after the header.
#[derive(Clone, Copy, PartialEq, Eq, Debug)]
pub enum SettleFault {
    // Nothing is held under the pair of the original, or an adjustment's original is no payment or collection.
    OriginalAbsent { column: usize },
    // More than 90 days after the original.
    TooLate { column: usize },
    // The original has no line with the number that the detail names.
    NoLine { number: usize, column: usize },
    // An account symbol of the detail is not that of the line.
    SymbolDiffers { number: usize, column: usize },
    // The debits of the detail are not the amount of the line.
    AmountDiffers { number: usize },
    // The total is above the open amount of the original.
    AboveOpen,
    // Something is held under the transaction's own pair.
    PairHeld { column: usize },
    // The book has no place for the entry, or not for each line.
    NoPlaces,
}

impl SettleFault {
    pub fn verdict(self) -> Verdict
        ensures { result ≡ fault_verdict self }
    {
        match self {
            SettleFault::OriginalAbsent { column } => Verdict::Refused(61, 0, column),
            SettleFault::TooLate { column } => Verdict::Refused(62, 0, column),
            SettleFault::NoLine { number, column } => Verdict::Refused(63, number, column),
            SettleFault::SymbolDiffers { number, column } => Verdict::Refused(64, number, column),
            SettleFault::AmountDiffers { number } => Verdict::Refused(64, number, 1),
            SettleFault::AboveOpen => Verdict::Refused(65, 0, 10),
            SettleFault::PairHeld { column } => Verdict::Refused(66, 0, column),
            SettleFault::NoPlaces => Verdict::Refused(67, 0, 1),
        }
    }
}

// Accepted, or the verdict of the fault.
pub(crate) fn verdict_of(checked: Result<(), SettleFault>) -> Verdict
    ensures { result ≡ outcome checked }
{
    match checked {
        Ok(()) => Verdict::Accepted,
        Err(fault) => fault.verdict(),
    }
}
