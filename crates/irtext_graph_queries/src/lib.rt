//! The parts of operations, blocks, regions and values, by their pointers, in any holder of a graph: what they use, define and contain, as
//! numbers, one by one, and as lists.
#![tactic(auto)]

pub mod ancestors;
pub mod beside;
pub mod block;
pub mod contained;
pub mod edits;
mod listed;
pub mod nested;
pub mod operation;
pub mod region;
pub mod types;
pub mod value;
