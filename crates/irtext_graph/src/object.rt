//! The kinds of objects, objects of any kind, values, and the sites of uses.
use crate::arena::Ptr;

/// The kind of operations, for pointers to them.
#[derive(Clone, Copy, PartialEq, Eq, Hash, Debug)]
pub struct Operation;

/// The kind of blocks, for pointers to them.
#[derive(Clone, Copy, PartialEq, Eq, Hash, Debug)]
pub struct BasicBlock;

/// The kind of regions, for pointers to them.
#[derive(Clone, Copy, PartialEq, Eq, Hash, Debug)]
pub struct Region;

/// An operation, a block or a region.
#[derive(Clone, Copy, PartialEq, Eq, Hash, Debug)]
pub enum Object {
    TheOperation(Ptr<Operation>),
    TheBlock(Ptr<BasicBlock>),
    TheRegion(Ptr<Region>),
}

/// A result of an operation or an argument of a block, by its index.
#[derive(Clone, Copy, PartialEq, Eq, Hash, Debug)]
pub enum Value {
    Result(Ptr<Operation>, usize),
    Argument(Ptr<BasicBlock>, usize),
}

/// What operations use: a value, as an operand, or a block, as a successor.
#[derive(Clone, Copy, PartialEq, Eq, Hash, Debug)]
pub enum Defined {
    OfValue(Value),
    OfBlock(Ptr<BasicBlock>),
}

/// The site of a use: an operand or a successor of an operation, by its index.
#[derive(Clone, Copy, PartialEq, Eq, Hash, Debug)]
pub enum Site {
    AtOperand(Ptr<Operation>, usize),
    AtSuccessor(Ptr<Operation>, usize),
}
