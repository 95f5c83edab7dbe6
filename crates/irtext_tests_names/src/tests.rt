//! The tests of names over a graph and of the scopes of names, a file for each subject.
mod checks;
mod held;
mod memory;
mod model;
mod rowed;
mod rows;
mod scopes;
mod script;
mod steps;
