//! The tests, a file for each subject.
mod bytes;
mod causes;
mod excerpts;
mod json;
mod messages;
mod must;
mod suggestions;
