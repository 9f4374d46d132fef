// A line: one detail of a transaction, as later adjustments name it. The receiver's symbol may be blank.
#[derive(Clone, Copy, PartialEq, Eq, Debug)]
pub struct Line {
    pub amount: u64,
    pub sender: [u8; 27],
    pub receiver: [u8; 27],
}
