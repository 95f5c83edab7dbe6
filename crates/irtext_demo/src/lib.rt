//! The types and attributes of the demo dialects `builtin` and `test`, with their parsers and printers, and the operations of these
//! dialects, with their formats.
#![tactic(auto)]

pub mod attributes;
pub mod dialects;
pub mod integer_type;
pub mod types;
pub mod width;

pub use attributes::DemoAttr;
pub use attributes::function::{FunctionAttr, TypeList};
pub use attributes::integer::IntegerAttr;
pub use integer_type::{IntegerType, Signedness};
pub use irtext_syntax::characters::Characters;
pub use irtext_syntax::{characters, words};
pub use types::DemoType;
pub use width::Width;
