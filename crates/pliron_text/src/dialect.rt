//! Dialects: their names, and their operations with their formats. A dialect's name can be parsed, and a dialect can be printed.

pub use irtext_context::dialect::{Dialect, DialectName, OpInfo};
