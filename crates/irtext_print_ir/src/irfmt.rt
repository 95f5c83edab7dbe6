//! Stored printers.

pub mod printers;
