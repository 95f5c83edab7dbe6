//! What the formats of operations print.

pub mod print;
