// A bulk file's bytes as records and transactions, and its opening.
#![tactic(auto)]

pub mod feed;
pub mod opening;
pub mod records;
pub mod tally;
#[cfg(test)]
mod tests;
pub mod transactions;
