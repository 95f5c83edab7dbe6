//! The traits that the caller implements for its types and attributes, and the sum of two families of them.

pub use irtext_base::text::{Apart, AttrText, Family, IrText, Worded};
pub use irtext_tokens::either::Either;
