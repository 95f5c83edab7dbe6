//! The marker in place of an attribute that is printed in the section.

pub use crate::irfmt::marker::{OUTLINED_ATTR_MARKER, outlined_marker_or};
