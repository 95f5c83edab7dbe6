//! The children of operations, regions and blocks, asked of the graph: the same calls on a context take seconds each to prove.
ghost use Rattle.std.specs.Prelude.{◌≡◌, ◌+◌, ◌<◌, ◌^◌, IfSome, length, slice_get};
ghost use Rattle.irtext_graph.specs.Graph.{IsLive};
ghost use Rattle.irtext_graph.specs.Parts.{blocks, operations_in, regions};
ghost use Rattle.irtext_graph.specs.declared.object.Object.TheVariants.{TheOperation, TheBlock, TheRegion};

use irtext_context::base::{BasicBlock, Operation, Ptr, Region};
use irtext_graph::graph::Graph;
use irtext_graph::object::Object;

/// Returns the region of an operation at an index, if there is one.
#[inline(always)]
pub(crate) fn region_at<O: Drop, B: Drop, T: Drop>(
    graph: &Graph<O, B, T>,
    op: Ptr<Operation>,
    index: usize,
) -> Option<Ptr<Region>>
    requires { IsLive graph.now (TheOperation op) }
    ensures is { result ≡ slice_get (regions graph.now op) index }
    ensures fits { IfSome result (λ region. index + 1 < 2 ^ 64) }
{
    let parent = Object::TheOperation(op);
    if index >= graph.num_children(parent) {
        return None;
    }
    match graph.get_child(parent, index) {
        Object::TheRegion(child) => Some(child),
        _ => unreachable!(),
    }
}

/// Returns the block of a region at an index, if there is one.
#[inline(always)]
pub(crate) fn block_at<O: Drop, B: Drop, T: Drop>(
    graph: &Graph<O, B, T>,
    region: Ptr<Region>,
    index: usize,
) -> Option<Ptr<BasicBlock>>
    requires { IsLive graph.now (TheRegion region) }
    ensures is { result ≡ slice_get (blocks graph.now region) index }
    ensures fits { IfSome result (λ block. index + 1 < 2 ^ 64) }
{
    let parent = Object::TheRegion(region);
    if index >= graph.num_children(parent) {
        return None;
    }
    match graph.get_child(parent, index) {
        Object::TheBlock(child) => Some(child),
        _ => unreachable!(),
    }
}

/// Returns the operation of a block at an index, if there is one.
#[inline(always)]
pub(crate) fn operation_at<O: Drop, B: Drop, T: Drop>(
    graph: &Graph<O, B, T>,
    block: Ptr<BasicBlock>,
    index: usize,
) -> Option<Ptr<Operation>>
    requires { IsLive graph.now (TheBlock block) }
    ensures is { result ≡ slice_get (operations_in graph.now block) index }
    ensures fits { IfSome result (λ op. index + 1 < 2 ^ 64) }
{
    let parent = Object::TheBlock(block);
    if index >= graph.num_children(parent) {
        return None;
    }
    match graph.get_child(parent, index) {
        Object::TheOperation(child) => Some(child),
        _ => unreachable!(),
    }
}

/// The number of regions of an operation.
#[inline(always)]
pub fn count_regions<O: Drop, B: Drop, T: Drop>(graph: &Graph<O, B, T>, op: Ptr<Operation>) -> usize
    requires { IsLive graph.now (TheOperation op) }
    ensures { result ≡ length (regions graph.now op) }
{
    graph.num_children(Object::TheOperation(op))
}

/// The number of blocks of a region.
#[inline(always)]
pub(crate) fn count_blocks<O: Drop, B: Drop, T: Drop>(
    graph: &Graph<O, B, T>,
    region: Ptr<Region>,
) -> usize
    requires { IsLive graph.now (TheRegion region) }
    ensures { result ≡ length (blocks graph.now region) }
{
    graph.num_children(Object::TheRegion(region))
}
