//! Rows of the edits, and rows of the calls that test first what the edits require.
mod checked;
mod rows;
