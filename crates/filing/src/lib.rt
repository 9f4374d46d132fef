// Check and post: a file judged for any registers and any book, its packet, and the book afterwards.
#![tactic(auto)]

mod admit;
pub mod files;
mod writing;
