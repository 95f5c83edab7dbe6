//! The tests, a file for each subject.
mod attributes;
mod checks;
mod demo;
mod fits;
mod lists;
mod location_texts;
mod must;
mod nested;
mod parts;
mod printing;
mod roots;
mod sections;
mod separators;
