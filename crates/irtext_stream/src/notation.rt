//! What the notation of formats consists of: fixed texts, indices, keys and the characters of literals, as they are parsed and printed,
//! and the errors of its parser. It knows no formats: `irtext_base` has the notation itself.

pub mod fault;
pub mod pieces;
pub mod print;
