//! Walks over everything nested in an object: the order of the walk, data that are written during it, and a walk over a deep chain.
ghost use Rattle.irtext_graph.specs.Graph.{IsLive};
ghost use Rattle.irtext_graph.specs.Throughout.{EditsObject, EditsInside};

use crate::tests::checks::Numbers;
use crate::tests::nesting::chain;
use irtext_graph::object::Object;
use std::process::Abort;

/// The data of an object, and 0 for a region.
fn data_of(graph: &Numbers, o: Object) -> u32
    requires { IsLive graph.now o }
{
    match o {
        Object::TheOperation(p) => *graph.operation(p),
        Object::TheBlock(p) => *graph.block(p),
        Object::TheRegion(_) => 0,
    }
}

/// Walks over everything nested in an object, and returns the data of each as a digit, 0 for a region, and how many there are.
fn walk(graph: &Numbers, o: Object) -> (u64, u64)
    requires { IsLive graph.now o }
{
    let mut digits: u64 = 0;
    let mut count: u64 = 0;
    let mut at = Some(o);
    while let Some(q) = at {
        digits = digits
            .wrapping_mul(10)
            .wrapping_add(data_of(graph, q) as u64);
        count = count.wrapping_add(1);
        at = graph.next_inside(o, q);
    }
    (digits, count)
}

/// Writes 7 as the data of an operation or of a block.
fn overwrite_one(graph: &mut Numbers, o: Object)
    requires { IsLive graph.old o }
    ensures { EditsObject graph.old graph.new o (λ _. 7) (λ _. 7) }
{
    match o {
        Object::TheOperation(p) => *graph.operation_mut(p) = 7,
        Object::TheBlock(p) => *graph.block_mut(p) = 7,
        Object::TheRegion(_) => (),
    }
}

/// Writes 7 as the data of each operation and each block nested in an object.
fn overwrite(graph: &mut Numbers, o: Object)
    requires { IsLive graph.old o }
    ensures { EditsInside graph.old graph.new o (λ _. 7) (λ _. 7) }
{
    graph.keeps_nesting();
    let mut at = Some(o);
    while let Some(q) = at {
        at = graph.next_inside(o, q);
        overwrite_one(graph, q);
    }
}

/// Whether the walk from an object visits these data in this order, so many.
pub(crate) fn meets(graph: &Numbers, o: Object, digits: u64, count: u64) -> bool {
    if !graph.contains(o) {
        return false;
    }
    let met = walk(graph, o);
    met.0 == digits && met.1 == count
}

/// Writes 7 to everything nested in an object if it is live, and returns whether it is.
pub(crate) fn overwritten(graph: &mut Numbers, o: Object) -> bool {
    if !graph.contains(o) {
        return false;
    }
    overwrite(graph, o);
    true
}

/// A chain of a million objects that is walked from its ends, written and walked again.
pub(crate) fn goes_deep(rt: &impl Abort, graph: &mut Numbers) -> bool {
    let ends = chain(rt, graph, 333334);
    let before = meets(graph, ends.outer, 0, 1000003) & meets(graph, ends.inner, 0, 1);
    let wrote = overwritten(graph, ends.outer);
    before & wrote & meets(graph, ends.inner, 7, 1)
}
