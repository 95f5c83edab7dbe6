//! Parsers for the parts of a text.

pub mod demanded;
pub mod faults;
pub mod parsers;
pub mod separator;
