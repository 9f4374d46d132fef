// Why a transaction is refused on its own: a fault type at each layer, passed up from record to transaction.
ghost use Rattle.std.specs.Prelude.{◌≡◌};
ghost use Rattle.transaction.specs.declared.fault.RecordCause.TheVariants.{Field};
ghost use Rattle.transaction.specs.declared.fault.TransactionFault.TheVariants.{Record};
ghost use Rattle.transaction.specs.Layers.{cause_verdict, fault_verdict};

use crate::verdict::Verdict;
use field::fault::FieldFault;

// What is wrong with a record.
#[derive(Clone, Copy, PartialEq, Eq, Debug)]
pub enum RecordCause {
    // The header is below 39 bytes, or its Set ID is none of the six.
    SetIdUnknown,
    // Neither `D` nor `E`, or an `E` where none may stand.
    Letter,
    Length,
    Field(FieldFault),
    // The companion rule of the field at this column.
    Companion(usize),
    // 100 times the amount is not quantity times price.
    Product,
}

// The record by its number after the header, which is 0.
#[derive(Clone, Copy, PartialEq, Eq, Debug)]
pub struct RecordFault {
    pub number: usize,
    pub cause: RecordCause,
}

#[derive(Clone, Copy, PartialEq, Eq, Debug)]
pub enum TransactionFault {
    Record(RecordFault),
    // No detail, or too many.
    DetailCount,
    // The E records of the detail with this record number.
    EntrySet(usize),
    // The total is not the sum of the details.
    Total,
}

impl From<FieldFault> for RecordCause {
    ghost from_gives = { λ x y. y ≡ Field x };

    fn from(value: FieldFault) -> RecordCause {
        RecordCause::Field(value)
    }
}

impl From<RecordFault> for TransactionFault {
    ghost from_gives = { λ x y. y ≡ Record x };

    fn from(value: RecordFault) -> TransactionFault {
        TransactionFault::Record(value)
    }
}

impl RecordFault {
    pub fn verdict(self) -> Verdict
        ensures { result ≡ cause_verdict self.number self.cause }
    {
        let n = self.number;
        match self.cause {
            RecordCause::SetIdUnknown => Verdict::Refused(30, n, 37),
            RecordCause::Letter => Verdict::Refused(31, n, 1),
            RecordCause::Length => Verdict::Refused(32, n, 1),
            RecordCause::Field(fault) => Verdict::Refused(fault.cause.code(), n, fault.column),
            RecordCause::Companion(column) => Verdict::Refused(33, n, column),
            RecordCause::Product => Verdict::Refused(34, n, 30),
        }
    }
}

impl TransactionFault {
    pub fn verdict(self) -> Verdict
        ensures { result ≡ fault_verdict self }
    {
        match self {
            TransactionFault::Record(fault) => fault.verdict(),
            TransactionFault::DetailCount => Verdict::Refused(41, 0, 1),
            TransactionFault::EntrySet(number) => Verdict::Refused(42, number, 1),
            TransactionFault::Total => Verdict::Refused(43, 0, 10),
        }
    }
}
