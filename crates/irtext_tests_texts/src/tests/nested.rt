//! The tests, a file for each subject, and the steps that build their contexts.
pub(crate) mod alike;
pub(crate) mod closed;
pub(crate) mod misfits;
pub(crate) mod nested;
pub(crate) mod pieces;
pub(crate) mod printed;
pub(crate) mod steps;
