// What can be asked of a gateway's book, and what it answers.
#![tactic(auto)]

pub mod answer;
pub mod call;
pub mod fault;
pub mod questions;
