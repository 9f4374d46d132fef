// A list of calls made to its end on a new small book: what each is answered with.
#![tactic(auto)]

#[cfg(test)]
mod calls_in_a_row;
