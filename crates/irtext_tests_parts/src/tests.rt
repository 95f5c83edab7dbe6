//! The tests.
mod literals;
mod rows;
