// A mark: that the file with a File ID Number was posted, and how many of its transactions were accepted and rejected.
#[derive(Clone, Copy, PartialEq, Eq, Debug)]
pub struct Mark {
    pub accepted: u32,
    pub rejected: u32,
}

// The counts of all marks together.
#[derive(Clone, Copy, PartialEq, Eq, Debug)]
pub struct Counts {
    pub accepted: u64,
    pub rejected: u64,
}
