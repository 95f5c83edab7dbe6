//! Printing of an operation, a region or a block with everything nested in it, by a loop over a stack of open frames, so no nesting is
//! too deep for it. Also: what is printed of an operation itself (the names of its results, the pieces of its format, and the canonical
//! form), what is printed of a block before its operations, and whether an operation fits its format. On an error, what was appended
//! before remains.
#![tactic(auto)]

pub mod block_heads;
pub mod canonical;
pub mod children;
pub mod fits;
pub mod formats;
pub mod frame;
pub mod front;
mod lists;
pub mod marks;
pub mod names;
pub mod nested;
mod opening;
pub mod pieces;
pub mod printer;
pub mod results;
mod step;
pub mod walk;
