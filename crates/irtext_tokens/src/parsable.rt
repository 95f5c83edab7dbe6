//! Streams on which the caller's own parsers run, and the conversion of errors to parse errors.

pub mod answer;
pub mod own;

pub use answer::IntoParseResult;
pub use own::OwnStream;
