//! The actions of the parser of nested text, over the names, the graph and the marks. The pieces of an operation are parsed and
//! gathered; at its end its results are defined and its mark is recorded. Blocks are created in their regions and labelled. Regions are
//! begun and ended.
#![tactic(auto)]

pub mod beginning;
pub mod blocks;
pub mod frame;
pub mod later;
pub mod operation_end;
pub mod regions;
