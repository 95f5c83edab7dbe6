//! The texts of locations.

mod parts;
pub mod print;
