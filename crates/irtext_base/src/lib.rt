//! Everything of the text layer that needs no context: parse errors and their causes, source locations and file paths, identifiers,
//! attributes, operation formats, and the traits of a caller's types and attributes with the laws that these prove.
#![tactic(auto)]

pub mod base;
pub mod format;
pub mod location;
pub mod parsable;
pub mod result;
pub mod text;

pub use irtext_interner::seed;
