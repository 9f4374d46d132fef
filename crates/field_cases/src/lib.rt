// Tests of registers and fields, by values from the rules.
#![tactic(auto)]

#[cfg(test)]
mod fields;
#[cfg(test)]
mod registers;
