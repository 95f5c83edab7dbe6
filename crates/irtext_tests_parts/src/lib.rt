//! Worked rows of the parts of `irtext_parts`: each parsed and printed again, and what is rejected, and where.
#![tactic(auto)]

#[cfg(test)]
mod tests;
