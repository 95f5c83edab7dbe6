//! Parsing of the section after a root: the entries of the items, and the print-once attributes. An item is an operation or a block that
//! carries a mark. The section is first parsed and checked as a whole; then each item gets what its entry gives.
#![tactic(auto)]

mod entries;
pub mod entry;
pub mod given;
pub mod pairs;
pub mod section;
mod whole;
