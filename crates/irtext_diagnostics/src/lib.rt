//! Messages about texts, as people and editors know them: a place, what is wrong there, and the line with a caret; or a line of JSON. A
//! stable word for each cause of an error, the place of bytes that are not UTF-8, and the name that a wrong one was perhaps meant to be.
//!
//! What is written is stated byte for byte. JSON is written by this crate and not by `serde_json`, since that builds a value first, with an
//! allocation for each member and each text, while here each text goes straight to the writer.
#![tactic(auto)]

mod bytes;
mod causes;
mod json;
mod messages;
mod suggestions;

pub use bytes::{InvalidUtf8, invalid_utf8};
pub use causes::{cause_name, cause_word, innermost};
pub use json::JsonLine;
pub use messages::{Diagnostic, Severity, Style, Styled};
pub use suggestions::closest;
