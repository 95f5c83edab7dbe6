//! The context: operations, blocks and regions with their dictionaries of attributes, and dialects with the formats of their operations.
#![tactic(auto)]

pub mod base;
pub mod dialect;
pub mod location;
