//! Formats texts of roots: each root of a text is parsed and printed, one after the other, so that a text of many roots takes the memory of
//! its largest. The calls are generic over the dialects, and over any reader and writer.
#![tactic(auto)]

pub mod dialects;
pub mod fault;
pub mod format;
pub mod formatted;
pub mod input;
pub mod keys;
pub mod laws;
pub mod layout;
pub mod misfit;
pub mod output;
pub mod printed;
pub mod roots;
