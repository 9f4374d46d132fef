// An entry that seek found, with the reference that it stands under.
use super::entry::Entry;

#[derive(Clone, Copy, PartialEq, Eq, Debug)]
pub struct Sought {
    pub reference: [u8; 8],
    pub entry: Entry,
}
