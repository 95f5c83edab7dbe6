//! The tests, a file for each subject.
mod checks;
mod dialects_page;
mod layer;
mod parse;
mod reading;
mod readme;
mod registering;
mod value;
