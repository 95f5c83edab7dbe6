//! Errors and their causes, the macros that create errors, and excerpts of texts, which show the place of an error.

pub use irtext_base::result::{Cause, Error, ErrorKind, Expected, Result, StringError};
pub use irtext_excerpt::Excerpt;

mod macros;
