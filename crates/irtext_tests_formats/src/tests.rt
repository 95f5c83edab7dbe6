//! The tests, a file for each subject.
mod formats;
mod must;
mod notation;
