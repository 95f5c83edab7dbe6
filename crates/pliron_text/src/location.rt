//! Locations: where operations and errors come from.

pub use irtext_base::location::{CloneIntoContext, Location, PathKey, Source};
pub use irtext_base::parsable::SourcePosition;
pub use irtext_context::location::erase_locations;
