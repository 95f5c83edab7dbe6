//! The tests of what is parsed, and of the texts of errors, a file for each subject.
mod causes;
pub(crate) mod errors;
pub(crate) mod location_readings;
mod markers;
pub(crate) mod outside;
pub(crate) mod refused;
pub(crate) mod regions;
mod values;
