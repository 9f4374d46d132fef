// A pair: the DO symbol of a disbursing office and a reference under it. A transaction with a reference of its own is
// entered in the book under its pair, and an adjustment names its original by the original's pair.
#[derive(Clone, Copy, PartialEq, Eq, Debug)]
pub struct Pair {
    pub office: [u8; 5],
    pub reference: [u8; 8],
}
