//! Worked rows of excerpts and of messages about texts: what is written, byte for byte, and each public call once.
#![tactic(auto)]

#[cfg(test)]
mod tests;
