// An entry as the book answers it; amounts are in cents.
ghost use Rattle.std.specs.Prelude.{◌≤◌};

use layout::set_id::SetId;

#[derive(Clone, Copy, PartialEq, Eq, Debug)]
pub struct Entry {
    pub set_id: SetId,
    pub day: u32,
    pub total: u64,
    pub open_amount: u64,
    // no more can be taken from an entry than its total
    ghost covered: { open_amount ≤ total },
}
