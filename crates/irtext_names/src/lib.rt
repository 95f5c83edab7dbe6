//! Names over a graph: a forward reference to a name refers to a placeholder, and the definition replaces the placeholder in all uses; and
//! the lists of names that the parser of an operation uses and defines. What the parsers of nested text do with names and objects once a
//! part of the text is parsed: a name is used; what the pieces of an operation give is gathered; operations, blocks and regions are
//! created, and put where they belong; scopes are opened; the names of results and arguments are defined; and the errors for these. What
//! is promised of an operation that was parsed.
#![tactic(auto)]

pub mod block_labels;
pub mod defining;
pub mod definitions;
pub mod dictionary;
pub mod entering;
pub mod errors;
pub mod gathered;
pub mod given;
pub mod keys;
pub mod kinds;
pub mod locations;
pub mod making;
pub mod memory;
pub mod name_errors;
pub mod named;
pub mod operation_parts;
mod piece_uses;
mod placeholders;
pub mod placing;
pub mod regions;
pub mod uses;
