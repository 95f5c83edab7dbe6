//! The context and its objects: a graph of operations, blocks and regions.

pub mod attributes;
pub mod block;
pub mod context;
pub mod item;
pub mod operation;
pub(crate) mod types;

pub use attributes::{AttributeDict, is_outlined};
pub use block::{BlockAccess, BlockData};
pub use context::Context;
pub use irtext_graph::arena::Ptr;
pub use irtext_graph::object::{BasicBlock, Operation, Region, Value};
pub use item::Item;
pub use operation::{OperationAccess, OperationData};
