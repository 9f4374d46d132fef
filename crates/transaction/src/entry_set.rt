// The E records of a detail, by number and sum.
ghost use Rattle.std.specs.Prelude.{◌≡◌, ◌+◌, ◌^◌, ◌<◌, ◌≤◌, cond};
ghost use Rattle.transaction.specs.Details.{is_debit, sgl_amount, debit_in, credit_in, is_absent, is_balanced, is_good_set, with_entry};

use layout::set_id::SetId;
use octets::part::columns_of;
use octets::value::number_at;

// Sums of whole cents: the numbers are so wide that no text is long enough to fill them.
#[derive(Clone, Copy, PartialEq, Eq, Debug)]
pub struct EntrySet {
    pub debits: u128,
    pub credits: u128,
    pub debit_records: usize,
    pub credit_records: usize,
}

fn is_debit(entry: &[u8]) -> bool
    ensures { result ≡ is_debit entry.now }
{
    columns_of(entry, 23, 1) == b"D".as_slice()
}

impl EntrySet {
    pub fn none() -> EntrySet
        ensures { (result.debits ≡ 0) × (result.credits ≡ 0) × (result.debit_records ≡ 0) × (result.credit_records ≡ 0) }
    {
        EntrySet {
            debits: 0,
            credits: 0,
            debit_records: 0,
            credit_records: 0,
        }
    }

    // One record more.
    pub(crate) fn with(self, entry: &[u8]) -> EntrySet
        requires sums_bound { (self.debits + 10 ^ 14 < 2 ^ 128) × (self.credits + 10 ^ 14 < 2 ^ 128) }
        requires count_bound { self.debit_records + self.credit_records + 1 < 2 ^ 64 }
        ensures value { result ≡ with_entry self entry.now }
        ensures sums { (result.debits ≤ self.debits + 10 ^ 14) × (result.credits ≤ self.credits + 10 ^ 14) }
        ensures count { result.debit_records + result.credit_records ≡ self.debit_records + self.credit_records + 1 }
    {
        let amount = u128::from(number_at(entry, 9, 14));
        if is_debit(entry) {
            EntrySet {
                debits: self.debits + amount,
                debit_records: self.debit_records + 1,
                ..self
            }
        } else {
            EntrySet {
                credits: self.credits + amount,
                credit_records: self.credit_records + 1,
                ..self
            }
        }
    }

    // How many records there are.
    pub(crate) fn records(self) -> usize
        requires { self.debit_records + self.credit_records < 2 ^ 64 }
        ensures { result ≡ self.debit_records + self.credit_records }
    {
        self.debit_records + self.credit_records
    }

    fn is_absent(self) -> bool
        ensures { result ≡ is_absent self }
    {
        self.debit_records == 0 && self.credit_records == 0
    }

    fn is_balanced(self) -> bool
        ensures { result ≡ is_balanced self }
    {
        self.debit_records <= 4
            && self.credit_records <= 4
            && self.debit_records + self.credit_records >= 2
            && self.debits == self.credits
    }

    // Whether the set is good for a detail of this amount.
    pub fn is_good(self, set: SetId, amount: u64) -> bool
        ensures { result ≡ is_good_set set amount self }
    {
        let post_sgl = set == SetId::PostSgl;
        if self.is_absent() {
            return !post_sgl;
        }
        self.is_balanced() && (post_sgl || self.debits == u128::from(amount))
    }
}
