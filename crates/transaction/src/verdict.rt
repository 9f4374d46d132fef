// The verdict on a transaction. It is no Result: it is what an item of the packet says, and no step is taken on it by `?`.
#[derive(Clone, Copy, PartialEq, Eq, Debug)]
pub enum Verdict {
    Accepted,
    // The code of the first failing check, the record after the header, and the column.
    Refused(u16, usize, usize),
}
