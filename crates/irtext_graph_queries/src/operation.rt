//! The operands, successors and results of an operation, the uses of its results, and its regions.
ghost use Rattle.std.specs.Prelude.{◌≡◌, ◌<◌, ◌↔◌, ℕ, Some, IfOk, IsTrue, length, slice_get};
ghost use Rattle.irtext_graph.specs.declared.object.Object.TheVariants.{TheOperation};
ghost use Rattle.irtext_graph.specs.declared.object.Defined.TheVariants.{OfValue};
ghost use Rattle.irtext_graph.specs.declared.object.Site.{Site};
ghost use Rattle.irtext_graph.specs.declared.object.Value.TheVariants.{Result};
ghost use Rattle.irtext_graph.specs.Chained.{Lists, Counts};
ghost use Rattle.irtext_graph.specs.Graph.{IsLive};
ghost use Rattle.irtext_graph.specs.Parts.{operands, successors, results, regions, IsDefinedValue};
ghost use Rattle.irtext_graph.specs.Used.{IsUse};
ghost use Rattle.irtext_graph_queries.specs.Lists.{each};
ghost use Rattle.irtext_graph_queries.specs.ResultUses.{IsUseOf};

use crate::listed::listed;
use irtext_graph::arena::Ptr;
use irtext_graph::graph::Graph;
use irtext_graph::held::HasGraph;
use irtext_graph::object::{BasicBlock, Defined, Object, Operation, Region, Site, Value};
use irtext_memory::{OutOfMemory, vec};

/// The operands, successors, results and regions of an operation, and the uses of its results, by the operation's pointer, in any holder of
/// a graph. The operation must be live in the graph. Calls that return a list fail only when out of memory.
pub trait OperationParts: Sized {
    ghost use Rattle.irtext_graph.specs.declared.arena.Ptr.{Ptr};
    ghost use Rattle.irtext_graph.specs.declared.object.Operation.{Operation};

    // the pointer
    ghost pointer: { Self → Ptr Operation };

    /// Returns the number of operands of the operation.
    fn get_num_operands<C: HasGraph>(self, ctx: &C) -> usize
        requires { IsLive (C.graph ctx.now) (TheOperation (pointer self)) }
        ensures { result ≡ length (operands (C.graph ctx.now) (pointer self)) };

    /// Returns the operand of the operation at an index, which must be below their number.
    fn get_operand<C: HasGraph>(self, ctx: &C, index: usize) -> Value
        requires alive { IsLive (C.graph ctx.now) (TheOperation (pointer self)) }
        requires within { index < length (operands (C.graph ctx.now) (pointer self)) }
        ensures { slice_get (operands (C.graph ctx.now) (pointer self)) index ≡ Some result };

    /// Returns the operands of the operation, in order.
    fn operands<C: HasGraph>(self, ctx: &C) -> Result<Vec<Value>, OutOfMemory>
        requires { IsLive (C.graph ctx.now) (TheOperation (pointer self)) }
        ensures { IfOk result (λ all. all.items ≡ operands (C.graph ctx.now) (pointer self)) };

    /// Returns the number of successors of the operation.
    fn get_num_successors<C: HasGraph>(self, ctx: &C) -> usize
        requires { IsLive (C.graph ctx.now) (TheOperation (pointer self)) }
        ensures { result ≡ length (successors (C.graph ctx.now) (pointer self)) };

    /// Returns the successor of the operation at an index, which must be below their number.
    fn get_successor<C: HasGraph>(self, ctx: &C, index: usize) -> Ptr<BasicBlock>
        requires alive { IsLive (C.graph ctx.now) (TheOperation (pointer self)) }
        requires within { index < length (successors (C.graph ctx.now) (pointer self)) }
        ensures { slice_get (successors (C.graph ctx.now) (pointer self)) index ≡ Some result };

    /// Returns the successors of the operation, in order.
    fn successors<C: HasGraph>(self, ctx: &C) -> Result<Vec<Ptr<BasicBlock>>, OutOfMemory>
        requires { IsLive (C.graph ctx.now) (TheOperation (pointer self)) }
        ensures { IfOk result (λ all. all.items ≡ successors (C.graph ctx.now) (pointer self)) };

    /// Returns the number of results of the operation.
    fn get_num_results<C: HasGraph>(self, ctx: &C) -> usize
        requires { IsLive (C.graph ctx.now) (TheOperation (pointer self)) }
        ensures { result ≡ length (results (C.graph ctx.now) (pointer self)) };

    /// Returns the result of the operation at an index, which must be below their number.
    fn get_result<C: HasGraph>(self, ctx: &C, index: usize) -> Value
        requires { index < length (results (C.graph ctx.now) (pointer self)) }
        ensures value { result ≡ Result (pointer self) index }
        ensures alive { IsDefinedValue (C.graph ctx.now) result };

    /// Returns the results of the operation, in order.
    fn results<C: HasGraph>(self, ctx: &C) -> Result<Vec<Value>, OutOfMemory>
        requires { IsLive (C.graph ctx.now) (TheOperation (pointer self)) }
        ensures { IfOk result (λ all. all.items ≡ each (Result (pointer self))
            (length (results (C.graph ctx.now) (pointer self)))) };

    /// Whether a result of the operation is an operand of some operation.
    fn has_use<C: HasGraph>(self, ctx: &C) -> bool
        requires { IsLive (C.graph ctx.now) (TheOperation (pointer self)) }
        ensures { IsTrue result ↔ (u : Site) × IsUseOf (C.graph ctx.now) (pointer self) u };

    /// Returns how many operands are results of the operation, or `usize::MAX` if there are more.
    fn num_uses<C: HasGraph>(self, ctx: &C) -> usize
        requires { IsLive (C.graph ctx.now) (TheOperation (pointer self)) }
        ensures { Counts (IsUseOf (C.graph ctx.now) (pointer self)) result };

    /// Returns the operands that are results of the operation, each once, in an unspecified order.
    fn uses<C: HasGraph>(self, ctx: &C) -> Result<Vec<Site>, OutOfMemory>
        requires { IsLive (C.graph ctx.now) (TheOperation (pointer self)) }
        ensures { IfOk result (λ us. Lists (IsUseOf (C.graph ctx.now) (pointer self)) us.items) };

    /// Returns the number of regions of the operation.
    fn num_regions<C: HasGraph>(self, ctx: &C) -> usize
        requires { IsLive (C.graph ctx.now) (TheOperation (pointer self)) }
        ensures { result ≡ length (regions (C.graph ctx.now) (pointer self)) };

    /// Returns the region of the operation at an index, which must be below their number.
    fn get_region<C: HasGraph>(self, ctx: &C, index: usize) -> Ptr<Region>
        requires { index < length (regions (C.graph ctx.now) (pointer self)) }
        ensures { slice_get (regions (C.graph ctx.now) (pointer self)) index ≡ Some result };

    /// Returns the regions of the operation, in order.
    fn regions<C: HasGraph>(self, ctx: &C) -> Result<Vec<Ptr<Region>>, OutOfMemory>
        requires { IsLive (C.graph ctx.now) (TheOperation (pointer self)) }
        ensures { IfOk result (λ all. all.items ≡ regions (C.graph ctx.now) (pointer self)) };
}

/// Returns the number of results of an operation. An index of a result that is used is below it.
fn count_results<C: HasGraph>(ctx: &C, op: Ptr<Operation>) -> usize
    requires { IsLive (C.graph ctx.now) (TheOperation op) }
    ensures count { result ≡ length (results (C.graph ctx.now) op) }
    ensures used { (k : ℕ) (u : Site) → IsUse (C.graph ctx.now) (OfValue (Result op k)) u → k < result }
{
    let graph = ctx.graph();
    graph.keeps_nesting();
    graph.num_results(op)
}

/// Returns the region of an operation at an index.
fn region_at<C: HasGraph>(op: Ptr<Operation>, ctx: &C, index: usize) -> Ptr<Region>
    requires { index < length (regions (C.graph ctx.now) op) }
    ensures { slice_get (regions (C.graph ctx.now) op) index ≡ Some result }
{
    match ctx.graph().get_child(Object::TheOperation(op), index) {
        Object::TheRegion(child) => child,
        _ => unreachable!(),
    }
}

impl OperationParts for Ptr<Operation> {
    ghost pointer = { λ p. p };

    fn get_num_operands<C: HasGraph>(self, ctx: &C) -> usize {
        ctx.graph().num_operands(self)
    }

    fn get_operand<C: HasGraph>(self, ctx: &C, index: usize) -> Value {
        ctx.graph().get_operand(self, index)
    }

    fn operands<C: HasGraph>(self, ctx: &C) -> Result<Vec<Value>, OutOfMemory> {
        let graph = ctx.graph();
        let count = graph.num_operands(self);
        listed(graph.allocator(), graph, self, count, Graph::get_operand)
    }

    fn get_num_successors<C: HasGraph>(self, ctx: &C) -> usize {
        ctx.graph().num_successors(self)
    }

    fn get_successor<C: HasGraph>(self, ctx: &C, index: usize) -> Ptr<BasicBlock> {
        ctx.graph().get_successor(self, index)
    }

    fn successors<C: HasGraph>(self, ctx: &C) -> Result<Vec<Ptr<BasicBlock>>, OutOfMemory> {
        let graph = ctx.graph();
        let count = graph.num_successors(self);
        listed(graph.allocator(), graph, self, count, Graph::get_successor)
    }

    fn get_num_results<C: HasGraph>(self, ctx: &C) -> usize {
        ctx.graph().num_results(self)
    }

    fn get_result<C: HasGraph>(self, ctx: &C, index: usize) -> Value {
        Value::Result(self, index)
    }

    fn results<C: HasGraph>(self, ctx: &C) -> Result<Vec<Value>, OutOfMemory> {
        let alloc = ctx.graph().allocator();
        let count = self.get_num_results(ctx);
        listed(alloc, ctx, self, count, |_, op, i| Value::Result(op, i))
    }

    fn has_use<C: HasGraph>(self, ctx: &C) -> bool {
        for i in 0..count_results(ctx, self) {
            if ctx
                .graph()
                .has_use(Defined::OfValue(Value::Result(self, i)))
            {
                return true;
            }
        }
        false
    }

    fn num_uses<C: HasGraph>(self, ctx: &C) -> usize {
        let mut n = 0usize;
        for i in 0..count_results(ctx, self) {
            let uses = ctx
                .graph()
                .num_uses(Defined::OfValue(Value::Result(self, i)));
            n = n.saturating_add(uses);
        }
        n
    }

    fn uses<C: HasGraph>(self, ctx: &C) -> Result<Vec<Site>, OutOfMemory> {
        let mut all = Vec::new(ctx.graph().allocator());
        for i in 0..count_results(ctx, self) {
            let uses = ctx.graph().uses(Defined::OfValue(Value::Result(self, i)))?;
            vec::extend_from_slice(&mut all, &uses)?;
        }
        Ok(all)
    }

    fn num_regions<C: HasGraph>(self, ctx: &C) -> usize {
        ctx.graph().num_children(Object::TheOperation(self))
    }

    fn get_region<C: HasGraph>(self, ctx: &C, index: usize) -> Ptr<Region> {
        region_at(self, ctx, index)
    }

    fn regions<C: HasGraph>(self, ctx: &C) -> Result<Vec<Ptr<Region>>, OutOfMemory> {
        let alloc = ctx.graph().allocator();
        let count = self.num_regions(ctx);
        listed(alloc, self, ctx, count, region_at)
    }
}
