//! The parser of operations, regions and blocks with everything nested in them, as one loop over the open frames; the outermost parsers,
//! for an operation, for a root with the section after it, for a whole text and for a region alone; and the trait `Parsable` with its
//! implementations.
#![tactic(auto)]

mod beside;
pub mod block;
mod coming;
pub mod frames;
pub mod ir;
pub mod irfmt;
pub mod items;
pub mod names;
pub mod nested;
pub mod one_region;
pub mod outermost;
pub mod parsable;
mod passing;
pub mod region;
pub mod results;
mod steps;
pub mod tree;
mod turns;
mod undo;
pub mod whole;
