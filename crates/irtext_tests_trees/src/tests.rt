//! The tests.
mod built;
mod nested;
