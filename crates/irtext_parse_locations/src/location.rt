//! Locations from text.

mod frame;
mod made;
pub mod nested;
pub mod plain;
pub mod read;
pub mod source;
