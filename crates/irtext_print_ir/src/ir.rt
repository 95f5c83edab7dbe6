//! Operations, blocks and regions as text.

pub mod print;
pub mod verify;
