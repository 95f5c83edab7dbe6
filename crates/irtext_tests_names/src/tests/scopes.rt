//! Worked rows of the scopes of names: each call of the tracker with its result, a random script and its model, many names and scopes.

mod checks;
pub(crate) mod model;
mod script;
mod sizes;
mod steps;
mod tracking;
