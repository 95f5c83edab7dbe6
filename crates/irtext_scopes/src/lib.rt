//! The names in a text: each is kept once under a number, and refers to a value or a block in the open scopes.
#![tactic(auto)]

mod marks;
mod place;
pub mod scopes;
pub mod tracker;
