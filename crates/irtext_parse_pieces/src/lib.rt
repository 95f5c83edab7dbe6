//! Parsers of names, dictionaries and headers of blocks; and of operations: of what precedes an operation's own parts, and of these parts
//! up to its first region. Each distinct name is stored once per parse, and parsed values refer to names by number.
#![tactic(auto)]

pub mod arguments;
mod beside;
pub mod canonical;
pub mod coming;
pub mod counting;
pub mod entries;
pub mod fronts;
pub mod headers;
pub mod ids;
pub mod keys;
pub mod lists;
pub mod marks;
pub mod names;
pub mod pieces;
pub mod results;
pub mod steps;
pub mod types;
