//! Whether two contexts know operations alike: by the same formats, and isolated from above in both or in neither. In which order they were
//! registered does not matter.
#![tactic(auto)]

pub mod dialects;
pub mod format;
pub mod known;
pub mod root;
pub mod unlike;
