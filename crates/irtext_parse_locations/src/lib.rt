//! Parsing of locations, as `fused[<in-memory>: line: 3, column: 4, ?]`, by one loop over a stack of open frames. And the entries of a
//! section, once they are parsed: the check of their references, and what they give their items, a location, attributes and for a block
//! its label. An item is an operation or a block that carries a mark.
#![tactic(auto)]

pub mod applied;
pub mod checked;
pub mod location;
pub mod rules;
pub mod said;
pub mod together;
