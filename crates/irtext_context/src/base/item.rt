//! Items: an item is an operation or a block that carries a mark, or may carry one.

use irtext_graph::arena::Ptr;
use irtext_graph::object::{BasicBlock, Operation};

/// An operation or a block, which may carry a mark.
#[derive(Clone, Copy, PartialEq, Eq, Debug)]
pub enum Item {
    Operation(Ptr<Operation>),
    Block(Ptr<BasicBlock>),
}
