//! The operations and blocks beside one, the first and the last operation of a block, and the successors of a block.
ghost use Rattle.std.specs.Prelude.{◌≡◌, ◌+◌, ◌<◌, ℕ, Option, Some, None, IfSome, option_map, slice_get, length};
ghost use Rattle.irtext_graph.specs.declared.arena.Ptr.{Ptr};
ghost use Rattle.irtext_graph.specs.declared.object.BasicBlock.{BasicBlock};
ghost use Rattle.irtext_graph.specs.declared.object.Operation.{Operation};
ghost use Rattle.irtext_graph.specs.declared.object.Object.TheVariants.{TheOperation, TheBlock, TheRegion};
ghost use Rattle.irtext_graph.specs.Graph.{IsLive, parent};
ghost use Rattle.irtext_graph.specs.Parts.{operations_in, blocks};
ghost use Rattle.irtext_walks.specs.Siblings.{item_before, last_item, succs};

use crate::siblings::{first_child, last_child, next_sibling, previous_sibling};
use irtext_graph::arena::Ptr;
use irtext_graph::graph::Graph;
use irtext_graph::held::HasGraph;
use irtext_graph::object::{BasicBlock, Object, Operation, Region};

/// The operations beside an operation in its block, in any holder of a graph. The operation must be live in the graph. Each call takes the
/// same time in a block of any length, as long as the index that is recorded with the operation is right.
pub trait OperationSiblings: Sized {
    ghost use Rattle.irtext_graph.specs.declared.arena.Ptr.{Ptr};
    ghost use Rattle.irtext_graph.specs.declared.object.Operation.{Operation};

    // the pointer
    ghost pointer: { Self → Ptr Operation };

    /// Returns the operation after this one in its block, or `None` if it is the last one or in no block.
    fn next_op<C: HasGraph>(self, ctx: &C) -> Option<Ptr<Operation>>
        requires { IsLive (C.graph ctx.now) (TheOperation (pointer self)) }
        ensures next { (b : _) (i : ℕ) → parent (C.graph ctx.now) (TheOperation (pointer self)) ≡ Some (TheBlock b)
            → slice_get (operations_in (C.graph ctx.now) b) i ≡ Some (pointer self)
            → result ≡ slice_get (operations_in (C.graph ctx.now) b) (i + 1) }
        ensures alone { parent (C.graph ctx.now) (TheOperation (pointer self)) ≡ None → result ≡ None }
        ensures alive { IfSome result (λ p. IsLive (C.graph ctx.now) (TheOperation p)) };

    /// Returns the operation before this one in its block, or `None` if it is the first one or in no block.
    fn previous_op<C: HasGraph>(self, ctx: &C) -> Option<Ptr<Operation>>
        requires { IsLive (C.graph ctx.now) (TheOperation (pointer self)) }
        ensures previous { (b : _) (i : ℕ) → parent (C.graph ctx.now) (TheOperation (pointer self)) ≡ Some (TheBlock b)
            → slice_get (operations_in (C.graph ctx.now) b) i ≡ Some (pointer self)
            → result ≡ item_before (operations_in (C.graph ctx.now) b) i }
        ensures alone { parent (C.graph ctx.now) (TheOperation (pointer self)) ≡ None → result ≡ None }
        ensures alive { IfSome result (λ p. IsLive (C.graph ctx.now) (TheOperation p)) };
}

/// The blocks beside a block in its region, its first and its last operation, and its successors, in any holder of a graph. The block must
/// be live in the graph. Each call takes the same time in a region of any length, as long as the index that is recorded with the block is
/// right.
pub trait BlockSiblings: Sized {
    ghost use Rattle.irtext_graph.specs.declared.arena.Ptr.{Ptr};
    ghost use Rattle.irtext_graph.specs.declared.object.BasicBlock.{BasicBlock};

    // the pointer
    ghost pointer: { Self → Ptr BasicBlock };

    /// Returns the block after this one in its region, or `None` if it is the last one or in no region.
    fn next_block<C: HasGraph>(self, ctx: &C) -> Option<Ptr<BasicBlock>>
        requires { IsLive (C.graph ctx.now) (TheBlock (pointer self)) }
        ensures next { (r : _) (i : ℕ) → parent (C.graph ctx.now) (TheBlock (pointer self)) ≡ Some (TheRegion r)
            → slice_get (blocks (C.graph ctx.now) r) i ≡ Some (pointer self)
            → result ≡ slice_get (blocks (C.graph ctx.now) r) (i + 1) }
        ensures alone { parent (C.graph ctx.now) (TheBlock (pointer self)) ≡ None → result ≡ None }
        ensures alive { IfSome result (λ p. IsLive (C.graph ctx.now) (TheBlock p)) };

    /// Returns the block before this one in its region, or `None` if it is the first one or in no region.
    fn previous_block<C: HasGraph>(self, ctx: &C) -> Option<Ptr<BasicBlock>>
        requires { IsLive (C.graph ctx.now) (TheBlock (pointer self)) }
        ensures previous { (r : _) (i : ℕ) → parent (C.graph ctx.now) (TheBlock (pointer self)) ≡ Some (TheRegion r)
            → slice_get (blocks (C.graph ctx.now) r) i ≡ Some (pointer self)
            → result ≡ item_before (blocks (C.graph ctx.now) r) i }
        ensures alone { parent (C.graph ctx.now) (TheBlock (pointer self)) ≡ None → result ≡ None }
        ensures alive { IfSome result (λ p. IsLive (C.graph ctx.now) (TheBlock p)) };

    /// Returns the first operation of the block, or `None` if it has none.
    fn first_op<C: HasGraph>(self, ctx: &C) -> Option<Ptr<Operation>>
        requires { IsLive (C.graph ctx.now) (TheBlock (pointer self)) }
        ensures first { result ≡ slice_get (operations_in (C.graph ctx.now) (pointer self)) 0 }
        ensures alive { IfSome result (λ p. IsLive (C.graph ctx.now) (TheOperation p)) };

    /// Returns the last operation of the block, or `None` if it has none.
    fn terminator<C: HasGraph>(self, ctx: &C) -> Option<Ptr<Operation>>
        requires { IsLive (C.graph ctx.now) (TheBlock (pointer self)) }
        ensures last { result ≡ last_item (operations_in (C.graph ctx.now) (pointer self)) }
        ensures alive { IfSome result (λ p. IsLive (C.graph ctx.now) (TheOperation p)) };

    /// Returns how many successors the block has: those of its last operation. A block that is a successor twice counts twice.
    fn num_succs<C: HasGraph>(self, ctx: &C) -> usize
        requires { IsLive (C.graph ctx.now) (TheBlock (pointer self)) }
        ensures { result ≡ length (succs (C.graph ctx.now) (pointer self)) };

    /// Returns the successor of the block at an index, which must be below their number.
    fn get_succ<C: HasGraph>(self, ctx: &C, index: usize) -> Ptr<BasicBlock>
        requires alive { IsLive (C.graph ctx.now) (TheBlock (pointer self)) }
        requires within { index < length (succs (C.graph ctx.now) (pointer self)) }
        ensures { slice_get (succs (C.graph ctx.now) (pointer self)) index ≡ Some result };
}

/// The first and the last block of a region, in any holder of a graph. The region must be live in the graph.
pub trait RegionEnds: Sized {
    ghost use Rattle.irtext_graph.specs.declared.arena.Ptr.{Ptr};
    ghost use Rattle.irtext_graph.specs.declared.object.Region.{Region};

    // the pointer
    ghost pointer: { Self → Ptr Region };

    /// Returns the first block of the region, or `None` if it has none.
    fn first_block<C: HasGraph>(self, ctx: &C) -> Option<Ptr<BasicBlock>>
        requires { IsLive (C.graph ctx.now) (TheRegion (pointer self)) }
        ensures first { result ≡ slice_get (blocks (C.graph ctx.now) (pointer self)) 0 }
        ensures alive { IfSome result (λ p. IsLive (C.graph ctx.now) (TheBlock p)) };

    /// Returns the last block of the region, or `None` if it has none.
    fn last_block<C: HasGraph>(self, ctx: &C) -> Option<Ptr<BasicBlock>>
        requires { IsLive (C.graph ctx.now) (TheRegion (pointer self)) }
        ensures last { result ≡ last_item (blocks (C.graph ctx.now) (pointer self)) }
        ensures alive { IfSome result (λ p. IsLive (C.graph ctx.now) (TheBlock p)) };
}

/// Returns the operation that an object is.
fn operation_of(o: Option<Object>) -> Option<Ptr<Operation>>
    ensures here { (p : Option (Ptr Operation)) → o ≡ option_map TheOperation p → result ≡ p }
    ensures is { IfSome result (λ p. o ≡ Some (TheOperation p)) }
{
    match o {
        Some(Object::TheOperation(p)) => Some(p),
        _ => None,
    }
}

/// Returns the block that an object is.
fn block_of(o: Option<Object>) -> Option<Ptr<BasicBlock>>
    ensures here { (p : Option (Ptr BasicBlock)) → o ≡ option_map TheBlock p → result ≡ p }
    ensures is { IfSome result (λ p. o ≡ Some (TheBlock p)) }
{
    match o {
        Some(Object::TheBlock(p)) => Some(p),
        _ => None,
    }
}

impl OperationSiblings for Ptr<Operation> {
    ghost pointer = { λ p. p };

    fn next_op<C: HasGraph>(self, ctx: &C) -> Option<Ptr<Operation>> {
        operation_of(next_sibling(ctx.graph(), Object::TheOperation(self)))
    }

    fn previous_op<C: HasGraph>(self, ctx: &C) -> Option<Ptr<Operation>> {
        operation_of(previous_sibling(ctx.graph(), Object::TheOperation(self)))
    }
}

impl BlockSiblings for Ptr<BasicBlock> {
    ghost pointer = { λ p. p };

    fn next_block<C: HasGraph>(self, ctx: &C) -> Option<Ptr<BasicBlock>> {
        block_of(next_sibling(ctx.graph(), Object::TheBlock(self)))
    }

    fn previous_block<C: HasGraph>(self, ctx: &C) -> Option<Ptr<BasicBlock>> {
        block_of(previous_sibling(ctx.graph(), Object::TheBlock(self)))
    }

    fn first_op<C: HasGraph>(self, ctx: &C) -> Option<Ptr<Operation>> {
        operation_of(first_child(ctx.graph(), Object::TheBlock(self)))
    }

    fn terminator<C: HasGraph>(self, ctx: &C) -> Option<Ptr<Operation>> {
        operation_of(last_child(ctx.graph(), Object::TheBlock(self)))
    }

    fn num_succs<C: HasGraph>(self, ctx: &C) -> usize {
        match self.terminator(ctx) {
            Some(op) => ctx.graph().num_successors(op),
            None => 0,
        }
    }

    fn get_succ<C: HasGraph>(self, ctx: &C, index: usize) -> Ptr<BasicBlock> {
        match self.terminator(ctx) {
            Some(op) => ctx.graph().get_successor(op, index),
            None => unreachable!(),
        }
    }
}

impl RegionEnds for Ptr<Region> {
    ghost pointer = { λ p. p };

    fn first_block<C: HasGraph>(self, ctx: &C) -> Option<Ptr<BasicBlock>> {
        block_of(first_child(ctx.graph(), Object::TheRegion(self)))
    }

    fn last_block<C: HasGraph>(self, ctx: &C) -> Option<Ptr<BasicBlock>> {
        block_of(last_child(ctx.graph(), Object::TheRegion(self)))
    }
}
