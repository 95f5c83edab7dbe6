//! The tests, a file for each subject.
mod blocks;
mod checks;
mod contexts;
mod dict;
mod edges;
mod lent;
mod locations;
mod made;
mod must;
mod nested;
mod read;
mod unique;
