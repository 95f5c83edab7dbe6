//! How objects are put into others and erased, and a deeply nested chain.
ghost use Rattle.std.specs.Prelude.{◌≤◌, ℕ};
ghost use Rattle.irtext_graph.specs.Graph.{KeepsOlder};
ghost use Rattle.irtext_graph.specs.Objects.{Fits};

use crate::tests::checks::Numbers;
use irtext_few::Few;
use irtext_graph::arena::Ptr;
use irtext_graph::object::{Object, Operation};
use std::process::Abort;

/// Makes an operation that has nothing but its data.
pub(crate) fn make_operation(rt: &impl Abort, graph: &mut Numbers, value: u32) -> Ptr<Operation>
    ensures kept { (m : ℕ) → m ≤ graph.old.made → KeepsOlder m graph.old graph.new }
{
    graph
        .make_operation(value, Few::none(), &[], &[])
        .expect(rt, "out of memory")
}

/// Puts c last into k if that is allowed, and returns whether it was.
pub(crate) fn put(rt: &impl Abort, graph: &mut Numbers, k: Object, c: Object) -> bool
    requires { Fits k c }
{
    if !graph.contains(k) || !graph.contains(c) {
        return false;
    }
    if !graph.can_insert_at_back(k, c) {
        return false;
    }
    graph.insert_at_back(k, c).expect(rt, "out of memory");
    true
}

/// Whether c is a child of k, at an index.
pub(crate) fn is_child_at(graph: &Numbers, k: Object, c: Object, index: usize) -> bool {
    if !graph.contains(k) || !graph.contains(c) {
        return false;
    }
    if graph.get_parent(c) != Some(k) || index >= graph.num_children(k) {
        return false;
    }
    graph.get_child(k, index) == c && graph.find_index_in_parent(k, c) == index
}

/// Erases an object with everything nested in it, if nothing outside uses what it defines, and returns whether it did.
pub(crate) fn erases(graph: &mut Numbers, o: Object) -> bool {
    if !graph.contains(o) || !graph.can_erase(o) {
        return false;
    }
    graph.erase(o);
    true
}

/// The same after what is nested in the object uses nothing.
pub(crate) fn erased(graph: &mut Numbers, o: Object) -> bool {
    if !graph.contains(o) {
        return false;
    }
    graph.drop_all_uses(o);
    erases(graph, o)
}

/// The outermost operation of a chain, and the innermost one.
#[derive(Clone, Copy)]
pub(crate) struct Ends {
    pub(crate) outer: Object,
    pub(crate) inner: Object,
}

/// Makes a block, a region and an operation around an operation, each in the next.
fn make_around(rt: &impl Abort, graph: &mut Numbers, inner: Ptr<Operation>) -> Ptr<Operation> {
    let block = Object::TheBlock(graph.make_block(0, Few::none()).expect(rt, "out of memory"));
    let region = Object::TheRegion(graph.make_region().expect(rt, "out of memory"));
    let outer = make_operation(rt, graph, 0);
    let one = put(rt, graph, block, Object::TheOperation(inner));
    let two = put(rt, graph, region, block);
    let three = put(rt, graph, Object::TheOperation(outer), region);
    assert!(rt; one & two & three);
    outer
}

/// A chain of operations, regions and blocks, each in the next; the inner ones are made first.
pub(crate) fn chain(rt: &impl Abort, graph: &mut Numbers, depth: usize) -> Ends {
    let inner = make_operation(rt, graph, 0);
    let mut last = inner;
    for _ in 0..depth {
        last = make_around(rt, graph, last);
    }
    Ends {
        outer: Object::TheOperation(last),
        inner: Object::TheOperation(inner),
    }
}

/// Whether the innermost is nested in the outermost, which can be erased.
fn is_chained(graph: &Numbers, ends: Ends) -> bool {
    let Ends { outer, inner } = ends;
    if !graph.contains(outer) || !graph.contains(inner) {
        return false;
    }
    graph.is_inside(outer, inner) && !graph.is_inside(inner, outer) && graph.can_erase(outer)
}

/// A chain of a million levels, which is erased with its outermost operation, and another, which is released without being erased.
pub(crate) fn nests_deep(rt: &impl Abort, graph: &mut Numbers) -> bool {
    let ends = chain(rt, graph, 333334);
    let chained = is_chained(graph, ends) & (graph.num_live() == graph.made());
    let gone = erased(graph, ends.outer) & (graph.made() == 1000003) & (graph.num_live() == 0);
    let left = chain(rt, graph, 333334);
    chained & gone & graph.contains(left.outer)
}

/// A block with a hundred thousand operations, which is erased with them.
pub(crate) fn holds_many(rt: &impl Abort, graph: &mut Numbers) -> bool {
    let block = Object::TheBlock(graph.make_block(0, Few::none()).expect(rt, "out of memory"));
    let mut all = true;
    for _ in 0..100000 {
        let p = make_operation(rt, graph, 0);
        all = put(rt, graph, block, Object::TheOperation(p)) & all;
    }
    all & erased(graph, block) & (graph.num_live() == 0)
}
