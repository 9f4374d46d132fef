// What is entered under a pair: the open amount of a new entry is its total.
use layout::set_id::SetId;

#[derive(Clone, Copy, PartialEq, Eq, Debug)]
pub struct NewEntry {
    pub set_id: SetId,
    pub day: u32,
    pub total: u64,
}
