// The gateway: the calls on a book of any make, judged by registers of any make, and lists of calls.
#![tactic(auto)]

pub use calls::questions::{count, seek, show};
pub use filing::files::{check, post, refusal};

pub mod run;
