//! Worked rows of the graph: each call once, the places of objects, full counters, roll-back, uses that are removed in every
//! order, a deeply nested chain, walks over everything nested in an object, and a value with many uses; lists whose first item is
//! held in place; and a random script beside a plain model, with the pseudo-random numbers of all such scripts.
#![tactic(auto)]

pub mod random;
#[cfg(test)]
mod tests;
