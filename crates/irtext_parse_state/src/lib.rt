//! The state of a parse beside its text: the context, the source, the caller's data and the marks. Parsing of a text in memory, and the
//! parsers that need the state.
#![tactic(auto)]

pub mod irfmt;
pub mod parsable;
