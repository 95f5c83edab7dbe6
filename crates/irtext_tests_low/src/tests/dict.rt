//! The tests, a file for each subject.
mod dictionaries;
mod ids;
mod pairs;
