//! The parser for operations. Those for regions and for blocks alone are in `region` and `block`.

pub mod read;
