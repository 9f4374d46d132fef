// How many more a book can hold.
#[derive(Clone, Copy, PartialEq, Eq, Debug)]
pub struct FreePlaces {
    pub entries: usize,
    pub lines: usize,
    pub marks: usize,
}
