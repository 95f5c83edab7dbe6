//! Worked rows of what is `Printable`: values, lists, causes, errors, locations and roots; the printing state, which operations fit their
//! formats, and the section after a root. Also of the ready parts of types and attributes.
#![tactic(auto)]

#[cfg(test)]
mod tests;
