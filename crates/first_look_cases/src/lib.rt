// Tests of first look at its edges: the packet buffer's length, and key texts that are refused.
#![tactic(auto)]

#[cfg(test)]
mod buffers;
#[cfg(test)]
mod texts;
