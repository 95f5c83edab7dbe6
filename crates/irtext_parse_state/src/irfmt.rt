//! Parsers that need the state of a parse.

pub mod parsers;
