//! The types of an operation's results and operands as any graph has them. In a context's graph the type of a placeholder is `None`, so
//! `irtext_checked` has the calls that return a context's own types.
ghost use Rattle.std.specs.Prelude.{◌≡◌, ◌<◌, Some, IfOk, length, map, option_map, slice_get};
ghost use Rattle.irtext_graph.specs.declared.object.Object.TheVariants.{TheOperation};
ghost use Rattle.irtext_graph.specs.Graph.{IsLive};
ghost use Rattle.irtext_graph.specs.Parts.{operands, results, value_at};

use crate::listed::listed;
use irtext_graph::arena::Ptr;
use irtext_graph::graph::Graph;
use irtext_graph::held::HasGraph;
use irtext_graph::object::{Operation, Value};
use irtext_memory::OutOfMemory;

/// The types of an operation's results and operands, by the operation's pointer, in any holder of a graph. The operation must be live in
/// the graph. Each call fails only when out of memory. `Graph::type_of` returns the type of one value.
pub trait GraphTypes: Sized {
    ghost use Rattle.irtext_graph.specs.declared.arena.Ptr.{Ptr};
    ghost use Rattle.irtext_graph.specs.declared.object.Operation.{Operation};

    // the pointer
    ghost pointer: { Self → Ptr Operation };

    /// Returns the types of the results of the operation, in order.
    fn result_types<C: HasGraph>(self, ctx: &C) -> Result<Vec<&C::T>, OutOfMemory>
        requires { IsLive (C.graph ctx.now) (TheOperation (pointer self)) }
        ensures { IfOk result (λ all. map (λ t. t.now) all.items ≡ map (λ v. v.of_type)
            (results (C.graph ctx.now) (pointer self))) };

    /// Returns the types of the operands of the operation, in order.
    fn operand_types<C: HasGraph>(self, ctx: &C) -> Result<Vec<&C::T>, OutOfMemory>
        requires { IsLive (C.graph ctx.now) (TheOperation (pointer self)) }
        ensures { IfOk result (λ all. map (λ t. Some t.now) all.items
            ≡ map (λ v. option_map (λ t. t.of_type) (value_at (C.graph ctx.now) v))
            (operands (C.graph ctx.now) (pointer self))) };
}

/// Returns the type of the result of an operation at an index.
fn type_of_result<O: Drop, B: Drop, T: Drop>(
    graph: &Graph<O, B, T>,
    op: Ptr<Operation>,
    index: usize,
) -> &T
    requires { index < length (results graph.now op) }
    ensures { option_map (λ v. v.of_type) (slice_get (results graph.now op) index) ≡ Some result.now }
{
    graph.type_of(Value::Result(op, index))
}

/// Returns the type of the operand of an operation at an index.
fn type_of_operand<O: Drop, B: Drop, T: Drop>(
    graph: &Graph<O, B, T>,
    op: Ptr<Operation>,
    index: usize,
) -> &T
    requires alive { IsLive graph.now (TheOperation op) }
    requires within { index < length (operands graph.now op) }
    ensures { slice_get (map (λ v. option_map (λ t. t.of_type) (value_at graph.now v))
        (operands graph.now op)) index
        ≡ Some (Some result.now) }
{
    graph.keeps_nesting();
    graph.type_of(graph.get_operand(op, index))
}

impl GraphTypes for Ptr<Operation> {
    ghost pointer = { λ p. p };

    fn result_types<C: HasGraph>(self, ctx: &C) -> Result<Vec<&C::T>, OutOfMemory> {
        let graph = ctx.graph();
        let count = graph.num_results(self);
        listed(graph.allocator(), graph, self, count, type_of_result)
    }

    fn operand_types<C: HasGraph>(self, ctx: &C) -> Result<Vec<&C::T>, OutOfMemory> {
        let graph = ctx.graph();
        let count = graph.num_operands(self);
        listed(graph.allocator(), graph, self, count, type_of_operand)
    }
}
