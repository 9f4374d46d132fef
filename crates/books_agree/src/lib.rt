// Both makes of a book, taken through the same steps: every answer is compared with what the rules of the book say, so
// that the two makes answer alike.
#![tactic(auto)]

#[cfg(test)]
mod tests;
