// A transaction judged on its own.
#![tactic(auto)]

pub mod details;
pub mod entry_set;
pub mod fault;
pub mod header;
mod own;
pub mod pairs;
pub mod record;
pub mod sound;
pub mod verdict;
