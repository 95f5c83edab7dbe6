//! The parts of printing: the printing state with its guards, the texts of attributes and of locations, the names
//! under which values and blocks are printed, what the directives of a format print of an operation's attributes, and the section after a root: its text, and what it contains for operations and blocks, which
//! also decides which of them are marked.
#![tactic(auto)]

mod entries;
pub mod given;
pub mod ir;
pub mod laws;
pub mod location;
mod mentions;
pub mod name;
pub mod printable;
pub mod section;

pub use name::UniqueName;
