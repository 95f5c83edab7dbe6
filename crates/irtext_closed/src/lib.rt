//! Whether a root is closed: whether it uses nothing outside of itself, so that its printed text is parsed back as an equal root.
#![tactic(auto)]

pub mod check;
pub mod laws;
pub mod located;
pub mod not_closed;
mod scope;
mod typed;
mod uses;
