//! The tests, a file for each subject.
mod lists;
mod numbers;
mod quoted;
mod streams;
