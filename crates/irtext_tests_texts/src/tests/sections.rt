//! The tests, and what builds their contexts.
mod building;
pub(crate) mod rows;
