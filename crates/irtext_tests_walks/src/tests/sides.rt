//! The objects beside each object of a row, its first and last child, and the successors of blocks.
use crate::tests::made::{Holder, Row, Scene, put};
use irtext_few::Few;
use irtext_graph::arena::Ptr;
use irtext_graph::graph::Graph;
use irtext_graph::object::{BasicBlock, Object};
use irtext_graph_queries::contained::contains_blocks;
use irtext_walks::operations::{BlockSiblings, OperationSiblings, RegionEnds};
use irtext_walks::siblings::{Siblings, first_child, last_child, next_sibling, previous_sibling};
use std::alloc::Global;
use std::process::Abort;

/// The objects around one, by their indices.
#[derive(Clone, Copy)]
struct Around {
    next: Option<usize>,
    previous: Option<usize>,
    first: Option<usize>,
    last: Option<usize>,
}

/// The objects of a row around one of its objects.
fn neighbours(row: Row, index: usize) -> Around {
    let depth = row.depth(index);
    let mut around = Around {
        next: None,
        previous: None,
        first: None,
        last: None,
    };
    if index > 0 && row.end(index) < row.tree.len() && row.depth(row.end(index)) == depth {
        around.next = Some(row.end(index));
    }
    for at in 0..row.tree.len() {
        if at < index && row.end(at) == index && row.depth(at) == depth {
            around.previous = Some(at);
        }
        if at > index && at < row.end(index) && row.depth(at) == depth.saturating_add(1) {
            around.first = around.first.or(Some(at));
            around.last = Some(at);
        }
    }
    around
}

/// Whether the objects around an operation are these.
fn around_op(scene: &Scene, o: Object, wanted: Around) -> bool {
    let Object::TheOperation(op) = o else {
        return true;
    };
    if !scene.holder.graph.contains(o) {
        return false;
    }
    let holder = &scene.holder;
    scene.is(op.next_sibling(holder), wanted.next)
        && scene.is(op.previous_sibling(holder), wanted.previous)
        && scene.is(op.first_child(holder), wanted.first)
        && scene.is(op.last_child(holder), wanted.last)
        && scene.is_op(op.next_op(holder), wanted.next)
        && scene.is_op(op.previous_op(holder), wanted.previous)
}

/// Whether the objects around a block are these.
fn around_block(scene: &Scene, o: Object, wanted: Around) -> bool {
    let Object::TheBlock(block) = o else {
        return true;
    };
    if !scene.holder.graph.contains(o) {
        return false;
    }
    let holder = &scene.holder;
    let graph = &scene.holder.graph;
    scene.is(next_sibling(graph, o), wanted.next)
        && scene.is(previous_sibling(graph, o), wanted.previous)
        && scene.is(first_child(graph, o), wanted.first)
        && scene.is(last_child(graph, o), wanted.last)
        && scene.is_block(block.next_block(holder), wanted.next)
        && scene.is_block(block.previous_block(holder), wanted.previous)
        && scene.is_op(block.first_op(holder), wanted.first)
        && scene.is_op(block.terminator(holder), wanted.last)
        && block.num_succs(holder) == 0
}

/// Whether the objects around a region are these.
fn around_region(scene: &Scene, o: Object, wanted: Around) -> bool {
    let Object::TheRegion(region) = o else {
        return true;
    };
    if !scene.holder.graph.contains(o) {
        return false;
    }
    let holder = &scene.holder;
    scene.is(region.next_sibling(holder), wanted.next)
        && scene.is(region.previous_sibling(holder), wanted.previous)
        && scene.is_block(region.first_block(holder), wanted.first)
        && scene.is_block(region.last_block(holder), wanted.last)
}

/// Whether the objects around one are those that the row says.
pub(crate) fn sides(scene: &Scene, row: Row, index: usize) -> bool {
    let Some(o) = scene.object(index) else {
        return false;
    };
    let wanted = neighbours(row, index);
    around_op(scene, o, wanted) && around_block(scene, o, wanted) && around_region(scene, o, wanted)
}

/// Puts an operation with these successors last into a block.
fn put_user(
    rt: &impl Abort,
    graph: &mut Graph<u32, u32, u8>,
    block: Ptr<BasicBlock>,
    successors: &[Ptr<BasicBlock>],
) -> bool {
    if !contains_blocks(graph, successors) {
        return false;
    }
    let op = graph
        .make_operation(0, Few::none(), &[], successors)
        .expect(rt, "out of memory");
    put(rt, graph, Object::TheBlock(block), Object::TheOperation(op))
}

/// Whether a block has these successors.
fn has_succs(holder: &Holder, block: Ptr<BasicBlock>, wanted: &[Ptr<BasicBlock>]) -> bool {
    if !holder.graph.contains(Object::TheBlock(block)) || block.num_succs(holder) != wanted.len() {
        return false;
    }
    for i in 0..wanted.len() {
        if block.get_succ(holder, i) != wanted[i] {
            return false;
        }
    }
    true
}

/// Whether the successors of a block are those of the last operation in it: of two operations, where the first has one successor, and the
/// second has two.
pub(crate) fn successors(rt: &impl Abort, alloc: Global) -> bool {
    let mut holder = Holder {
        graph: Graph::new(alloc),
    };
    let graph = &mut holder.graph;
    let here = graph.make_block(0, Few::none()).expect(rt, "out of memory");
    let there = graph.make_block(1, Few::none()).expect(rt, "out of memory");
    let one = put_user(rt, graph, here, &[here]);
    let two = put_user(rt, graph, here, &[there, here]);
    one & two & has_succs(&holder, here, &[there, here]) & has_succs(&holder, there, &[])
}
