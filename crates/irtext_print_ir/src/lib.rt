//! Printing: the trait of printable values, stored printers, and the texts of locations, errors, dialects, operations, regions and
//! blocks.
#![tactic(auto)]

pub mod dialect;
pub mod ir;
pub mod irfmt;
mod location;
pub mod printable;
pub mod result;
