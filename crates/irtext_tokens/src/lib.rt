//! Parsers over a character stream for tokens, lists and attributes; and quoted strings, parsed and printed. And two
//! families of types or of attributes as one (`either`).
#![tactic(auto)]

pub mod either;
pub mod irfmt;
pub mod laws;
pub mod parsable;
pub mod printable;
