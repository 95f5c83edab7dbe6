//! The id of an operation, what directives print of its attributes, and which keys are missing.

pub mod concrete;
pub mod fits;
pub mod pieces;
