//! Worked rows of formats of operations: which are accepted, by which condition the others are rejected, and their notations.
#![tactic(auto)]

#[cfg(test)]
mod tests;
