//! The arguments of a block, its operations, and its predecessors.
ghost use Rattle.std.specs.Prelude.{◌≡◌, ◌<◌, ◌↔◌, Some, IfOk, IsTrue, length, slice_get};
ghost use Rattle.irtext_graph.specs.declared.object.Object.TheVariants.{TheBlock};
ghost use Rattle.irtext_graph.specs.declared.object.Defined.TheVariants.{OfBlock};
ghost use Rattle.irtext_graph.specs.declared.object.Site.{Site};
ghost use Rattle.irtext_graph.specs.declared.object.Value.TheVariants.{Argument};
ghost use Rattle.irtext_graph.specs.Chained.{Counts};
ghost use Rattle.irtext_graph.specs.Graph.{IsLive};
ghost use Rattle.irtext_graph.specs.Parts.{arguments, operations_in, IsDefinedValue};
ghost use Rattle.irtext_graph.specs.Used.{IsUse};
ghost use Rattle.irtext_graph_queries.specs.Lists.{each, ArePreds};

use crate::ancestors::Ancestors;
use crate::listed::listed;
use crate::value::UseSite;
use irtext_graph::arena::Ptr;
use irtext_graph::held::HasGraph;
use irtext_graph::object::{BasicBlock, Defined, Object, Operation, Value};
use irtext_memory::{OutOfMemory, vec};

/// The arguments of a block, its operations and its predecessors, by the block's pointer, in any holder of a graph. The block must be live
/// in the graph. Calls that return a list fail only when out of memory.
pub trait BlockParts: Sized {
    ghost use Rattle.irtext_graph.specs.declared.arena.Ptr.{Ptr};
    ghost use Rattle.irtext_graph.specs.declared.object.BasicBlock.{BasicBlock};

    // the pointer
    ghost pointer: { Self → Ptr BasicBlock };

    /// Returns the number of arguments of the block.
    fn get_num_arguments<C: HasGraph>(self, ctx: &C) -> usize
        requires { IsLive (C.graph ctx.now) (TheBlock (pointer self)) }
        ensures { result ≡ length (arguments (C.graph ctx.now) (pointer self)) };

    /// Returns the argument of the block at an index, which must be below their number.
    fn get_argument<C: HasGraph>(self, ctx: &C, index: usize) -> Value
        requires { index < length (arguments (C.graph ctx.now) (pointer self)) }
        ensures value { result ≡ Argument (pointer self) index }
        ensures alive { IsDefinedValue (C.graph ctx.now) result };

    /// Returns the arguments of the block, in order.
    fn arguments<C: HasGraph>(self, ctx: &C) -> Result<Vec<Value>, OutOfMemory>
        requires { IsLive (C.graph ctx.now) (TheBlock (pointer self)) }
        ensures { IfOk result (λ all. all.items ≡ each (Argument (pointer self))
            (length (arguments (C.graph ctx.now) (pointer self)))) };

    /// Whether the block is a successor of some operation.
    fn has_pred<C: HasGraph>(self, ctx: &C) -> bool
        requires { IsLive (C.graph ctx.now) (TheBlock (pointer self)) }
        ensures { IsTrue result ↔ (u : Site) × IsUse (C.graph ctx.now) (OfBlock (pointer self)) u };

    /// Returns how many successors of operations are the block, or `usize::MAX` if there are more.
    fn num_preds<C: HasGraph>(self, ctx: &C) -> usize
        requires { IsLive (C.graph ctx.now) (TheBlock (pointer self)) }
        ensures { Counts (IsUse (C.graph ctx.now) (OfBlock (pointer self))) result };

    /// Returns the block of each operation that has the block as a successor, once for each such successor, in an unspecified order.
    /// Operations that are in no block are left out.
    fn preds<C: HasGraph>(self, ctx: &C) -> Result<Vec<Ptr<BasicBlock>>, OutOfMemory>
        requires { IsLive (C.graph ctx.now) (TheBlock (pointer self)) }
        ensures { IfOk result (λ all. ArePreds (C.graph ctx.now) (pointer self) all.items) };

    /// Returns the number of operations in the block.
    fn num_operations<C: HasGraph>(self, ctx: &C) -> usize
        requires { IsLive (C.graph ctx.now) (TheBlock (pointer self)) }
        ensures { result ≡ length (operations_in (C.graph ctx.now) (pointer self)) };

    /// Returns the operation of the block at an index, which must be below their number.
    fn get_operation<C: HasGraph>(self, ctx: &C, index: usize) -> Ptr<Operation>
        requires { index < length (operations_in (C.graph ctx.now) (pointer self)) }
        ensures { slice_get (operations_in (C.graph ctx.now) (pointer self)) index ≡ Some result };

    /// Returns the operations of the block, in order.
    fn operations<C: HasGraph>(self, ctx: &C) -> Result<Vec<Ptr<Operation>>, OutOfMemory>
        requires { IsLive (C.graph ctx.now) (TheBlock (pointer self)) }
        ensures { IfOk result (λ all. all.items ≡ operations_in (C.graph ctx.now) (pointer self)) };
}

/// Returns the operation of a block at an index.
fn operation_at<C: HasGraph>(block: Ptr<BasicBlock>, ctx: &C, index: usize) -> Ptr<Operation>
    requires { index < length (operations_in (C.graph ctx.now) block) }
    ensures { slice_get (operations_in (C.graph ctx.now) block) index ≡ Some result }
{
    match ctx.graph().get_child(Object::TheBlock(block), index) {
        Object::TheOperation(child) => child,
        _ => unreachable!(),
    }
}

impl BlockParts for Ptr<BasicBlock> {
    ghost pointer = { λ p. p };

    fn get_num_arguments<C: HasGraph>(self, ctx: &C) -> usize {
        ctx.graph().num_arguments(self)
    }

    fn get_argument<C: HasGraph>(self, ctx: &C, index: usize) -> Value {
        Value::Argument(self, index)
    }

    fn arguments<C: HasGraph>(self, ctx: &C) -> Result<Vec<Value>, OutOfMemory> {
        let alloc = ctx.graph().allocator();
        let count = self.get_num_arguments(ctx);
        listed(alloc, ctx, self, count, |_, at, i| Value::Argument(at, i))
    }

    fn has_pred<C: HasGraph>(self, ctx: &C) -> bool {
        ctx.graph().has_use(Defined::OfBlock(self))
    }

    fn num_preds<C: HasGraph>(self, ctx: &C) -> usize {
        ctx.graph().num_uses(Defined::OfBlock(self))
    }

    fn preds<C: HasGraph>(self, ctx: &C) -> Result<Vec<Ptr<BasicBlock>>, OutOfMemory> {
        let uses = ctx.graph().uses(Defined::OfBlock(self))?;
        let mut all = Vec::new(ctx.graph().allocator());
        for u in &uses {
            if let Some(block) = u.user().get_parent_block(ctx) {
                vec::push(&mut all, block)?;
            }
        }
        Ok(all)
    }

    fn num_operations<C: HasGraph>(self, ctx: &C) -> usize {
        ctx.graph().num_children(Object::TheBlock(self))
    }

    fn get_operation<C: HasGraph>(self, ctx: &C, index: usize) -> Ptr<Operation> {
        operation_at(self, ctx, index)
    }

    fn operations<C: HasGraph>(self, ctx: &C) -> Result<Vec<Ptr<Operation>>, OutOfMemory> {
        let alloc = ctx.graph().allocator();
        let count = self.num_operations(ctx);
        listed(alloc, self, ctx, count, operation_at)
    }
}
