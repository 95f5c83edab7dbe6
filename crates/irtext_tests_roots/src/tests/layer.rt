//! The tests of what `pliron_text` re-exports, a file for each subject.
mod apart;
pub(crate) mod beside;
mod carried;
pub(crate) mod checked;
pub(crate) mod dialects;
pub(crate) mod graphs;
pub(crate) mod macros;
pub(crate) mod reexports;
