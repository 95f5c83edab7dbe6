//! Tests of drafts: what is in the context after an operation or a block was built, and why one was not.
#![tactic(auto)]

#[cfg(test)]
mod tests;
