//! Tests of parsed roots, and of what `pliron_text` re-exports: graphs that a caller makes, contexts that were filled separately, names
//! outside of regions, dialects, checked calls, errors and macros; of what is `Parsable`, and of the texts of errors and of their causes;
//! and the examples of the pages.
#![tactic(auto)]

#[cfg(test)]
mod tests;
