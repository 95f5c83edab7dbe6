//! Walks over everything nested in an object, and over its siblings, without a list of what is to come. A walk comes to each object before
//! what is nested in it (`preorder`), or after it (`postorder`); it takes one step at a time, holds pointers alone, and allocates nothing.
#![tactic(auto)]

pub mod iter;
mod kinds;
pub mod laws;
pub mod operations;
pub mod postorder;
pub mod preorder;
pub mod siblings;
mod steps;
pub mod walks;
