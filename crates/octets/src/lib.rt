// Bytes of a record: their classes, parts of a record, the numbers that digits write.
#![tactic(auto)]

pub mod class;
pub mod line;
pub mod part;
#[cfg(test)]
mod tests;
pub mod value;
