//! The check of formats: whether the texts of an operation's format can be parsed in one way only, by eight conditions on its directives.
#![tactic(auto)]

pub mod format;
pub mod laws;
