//! The block around an operation and the regions in it, asked of the graph: the same calls on a context take seconds each to prove.
ghost use Rattle.std.specs.Prelude.{◌≡◌, Some, length, option_map, slice_get};
ghost use Rattle.irtext_graph.specs.Graph.{IsLive, parent};
ghost use Rattle.irtext_graph.specs.Parts.{regions};
ghost use Rattle.irtext_graph.specs.declared.object.Object.TheVariants.{TheOperation, TheBlock};

use irtext_context::base::{BasicBlock, Operation, Ptr, Region};
use irtext_graph::graph::Graph;
use irtext_graph::object::Object;

/// Returns the block that an operation is in, if it is in one.
pub(crate) fn block_of<O: Drop, B: Drop, T: Drop>(
    graph: &Graph<O, B, T>,
    op: Ptr<Operation>,
) -> Option<Ptr<BasicBlock>>
    requires { IsLive graph.now (TheOperation op) }
    ensures { parent graph.now (TheOperation op) ≡ option_map TheBlock result }
{
    match graph.get_parent(Object::TheOperation(op)) {
        Some(Object::TheBlock(block)) => Some(block),
        None => None,
        _ => unreachable!(),
    }
}

/// Returns the only region of an operation.
pub(crate) fn only_region<O: Drop, B: Drop, T: Drop>(
    graph: &Graph<O, B, T>,
    op: Ptr<Operation>,
) -> Ptr<Region>
    requires live { IsLive graph.now (TheOperation op) }
    requires one { length (regions graph.now op) ≡ 1 }
    ensures { slice_get (regions graph.now op) 0 ≡ Some result }
{
    match graph.get_child(Object::TheOperation(op), 0) {
        Object::TheRegion(child) => child,
        _ => unreachable!(),
    }
}
