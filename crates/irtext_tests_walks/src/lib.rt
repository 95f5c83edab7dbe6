//! Worked rows of walks: graphs as tables, and what walks over them come to.
#![tactic(auto)]

#[cfg(test)]
mod tests;
