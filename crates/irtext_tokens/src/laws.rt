//! Laws of the definitions that the parsers' contracts use. Each function does nothing: its contract is a theorem about every text,
//! proved from the definitions alone.

pub mod quoted;
pub mod values;
