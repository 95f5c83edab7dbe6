//! What changes between two texts, line by line, as a unified diff. `write_unified` prints the hunks that `patch` and people read;
//! `find_changes` finds the changes that turn one list of lines into another. The time is `n log n` in the number of lines, whatever they
//! are.
#![tactic(auto)]

pub mod changes;
pub mod hunks;
pub mod unified;
pub mod unique;

pub use changes::{Change, find_changes};
pub use unified::write_unified;
