//! Worked rows of the edits of a graph: where operations are inserted and moved, and what they use; and of the calls that test first what an
//! edit requires.
#![tactic(auto)]

#[cfg(test)]
mod tests;
