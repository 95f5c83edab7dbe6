//! Whether each of several values or blocks is in a graph, so that a new operation can use them.
ghost use Rattle.std.specs.Prelude.{◌≡◌, ◌↔◌, ℕ, Some, IsTrue, slice_get};
ghost use Rattle.irtext_graph.specs.declared.arena.Ptr.{Ptr};
ghost use Rattle.irtext_graph.specs.declared.object.BasicBlock.{BasicBlock};
ghost use Rattle.irtext_graph.specs.declared.object.Object.TheVariants.{TheBlock};
ghost use Rattle.irtext_graph.specs.declared.object.Value.{Value};
ghost use Rattle.irtext_graph.specs.Graph.{IsLive};
ghost use Rattle.irtext_graph.specs.Parts.{IsDefinedValue};

use irtext_graph::arena::Ptr;
use irtext_graph::graph::Graph;
use irtext_graph::object::{BasicBlock, Object, Value};

/// Whether each of these values is defined.
pub fn contains_values<O: Drop, B: Drop, T: Drop>(graph: &Graph<O, B, T>, values: &[Value]) -> bool
    ensures { IsTrue result ↔ ((i : ℕ) (v : Value) → slice_get values.now i ≡ Some v
        → IsDefinedValue graph.now v) }
{
    for v in values {
        if !graph.contains_value(*v) {
            return false;
        }
    }
    true
}

/// Whether each of these blocks is live.
pub fn contains_blocks<O: Drop, B: Drop, T: Drop>(
    graph: &Graph<O, B, T>,
    blocks: &[Ptr<BasicBlock>],
) -> bool
    ensures { IsTrue result ↔ ((i : ℕ) (b : Ptr BasicBlock) → slice_get blocks.now i ≡ Some b
        → IsLive graph.now (TheBlock b)) }
{
    for b in blocks {
        if !graph.contains(Object::TheBlock(*b)) {
            return false;
        }
    }
    true
}
