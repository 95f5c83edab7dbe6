//! The text layer of the IR, and the one crate that a user names. It re-exports what the crates below offer to a caller, and has the
//! calls that parse and print operations, the macros that create errors, and the laws.
#![tactic(auto)]

pub mod base;
pub mod calls;
pub mod dialect;
pub mod format;
pub mod ir;
pub mod irfmt;
pub mod laws;
pub mod location;
pub mod prelude;
pub mod result;
pub mod text;

pub use irtext_parse_root::parsable;
pub use irtext_print_ir::printable;
