//! Worked rows of the crates below printing and parsing: each public call once, on a stream or a context; of identifiers, ids of
//! operations and dictionaries of attributes; and of the parsers of tokens and lists.
#![tactic(auto)]

#[cfg(test)]
mod tests;
