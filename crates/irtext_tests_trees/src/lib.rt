//! Worked rows of types that hold types: a small dialect, its types nested in one another and in those of another author, and what is
//! rejected, and where.
#![tactic(auto)]

pub mod brackets;
pub mod build;
#[cfg(test)]
mod tests;
pub mod types;
