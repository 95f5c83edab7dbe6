//! A second look at a text that was rejected: where an undefined name is first used, where a name was first defined, and where a root
//! ends. A root is parsed once more by the parsers of its parts, without making objects; what it does with one name is noted.
#![tactic(auto)]

mod beside;
pub mod frames;
pub mod laws;
pub mod notes;
pub mod opening;
mod parts;
mod root;
mod section;
pub mod standing;
mod steps;
pub mod survey;

pub use crate::standing::stream_at;
pub use crate::survey::{first_definition, first_use, skip_root};
