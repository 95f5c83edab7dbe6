//! The stream that parsers read: a text, a byte offset in it, and an index, built once, by which lines and columns are found.
//! And the pieces of the notation of formats (`notation`).
#![tactic(auto)]

pub mod char_stream;
pub mod class;
pub mod index;
pub mod notation;
pub mod position;
pub mod scan;
pub mod stream;
