//! The calls on pointers, over a type that holds a graph and something else.
ghost use Rattle.std.specs.Prelude.{refl, IsTrue};
ghost use Rattle.irtext_graph.specs.Graph.{IsLive};
ghost use Rattle.irtext_graph.specs.declared.object.Object.TheVariants.{TheOperation, TheBlock, TheRegion};

use crate::tests::checks::Numbers;
use crate::tests::nesting::make_operation;
use crate::tests::results::uses_of_results;
use crate::tests::used::uses_and_lists;
use irtext_few::Few;
use irtext_graph::arena::Ptr;
use irtext_graph::graph::Graph;
use irtext_graph::held::HasGraph;
use irtext_graph::object::{BasicBlock, Object, Operation, Region};
use irtext_graph_queries::ancestors::Ancestors;
use irtext_graph_queries::block::BlockParts;
use irtext_graph_queries::edits::ObjectEdits;
use irtext_graph_queries::operation::OperationParts;
use irtext_graph_queries::region::RegionParts;
use std::alloc::Global;
use std::process::Abort;

/// A graph and a number.
#[derive(Drop)]
pub(crate) struct Holder {
    pub(crate) graph: Numbers,
    number: u32,
}

impl HasGraph for Holder {
    type O = u32;

    type B = u32;

    type T = u8;

    ghost graph = { λ h. h.graph };

    ghost with_graph = { λ h g. record h { graph = g } };

    ghost with_own = { λ h. refl };

    ghost graph_with = { λ h g. refl };

    fn graph(&self) -> &Numbers {
        &self.graph
    }

    fn graph_mut(&mut self) -> &mut Numbers {
        &mut self.graph
    }
}

/// An operation, a region in it, a block in that, and an operation in the block.
#[derive(Clone, Copy)]
struct Chain {
    op: Ptr<Operation>,
    region: Ptr<Region>,
    block: Ptr<BasicBlock>,
    inner: Ptr<Operation>,
}

/// Whether all objects of the chain are live.
fn all_live_in(holder: &Holder, chain: Chain) -> bool
    ensures op { IsTrue result → IsLive holder.now.graph (TheOperation chain.op) }
    ensures region { IsTrue result → IsLive holder.now.graph (TheRegion chain.region) }
    ensures block { IsTrue result → IsLive holder.now.graph (TheBlock chain.block) }
    ensures inner { IsTrue result → IsLive holder.now.graph (TheOperation chain.inner) }
{
    holder.graph.contains(Object::TheOperation(chain.op))
        && holder.graph.contains(Object::TheRegion(chain.region))
        && holder.graph.contains(Object::TheBlock(chain.block))
        && holder.graph.contains(Object::TheOperation(chain.inner))
}

/// Puts each object of the chain last into the one before it if that is allowed, and returns whether it was.
fn put_together(rt: &impl Abort, holder: &mut Holder, c: Chain) -> bool {
    if !all_live_in(holder, c) || !c.region.can_insert_at_back(c.op, holder) {
        return false;
    }
    c.region
        .insert_at_back(c.op, holder)
        .expect(rt, "out of memory");
    if !all_live_in(holder, c) || !c.block.can_insert_at_back(c.region, holder) {
        return false;
    }
    c.block
        .insert_at_back(c.region, holder)
        .expect(rt, "out of memory");
    if !all_live_in(holder, c) || !c.inner.can_insert_at_back(c.block, holder) {
        return false;
    }
    c.inner
        .insert_at_back(c.block, holder)
        .expect(rt, "out of memory");
    true
}

/// Whether each object of the chain names those around it.
fn looks_up(holder: &Holder, c: Chain) -> bool {
    if !all_live_in(holder, c) {
        return false;
    }
    let ops = [
        c.inner.get_parent_op(holder),
        c.block.get_parent_op(holder),
        c.region.get_parent_op(holder),
        c.op.get_parent_op(holder),
    ];
    let regions = [
        c.inner.get_parent_region(holder),
        c.block.get_parent_region(holder),
        c.region.get_parent_region(holder),
    ];
    let blocks = [
        c.inner.get_parent_block(holder),
        c.block.get_parent_block(holder),
        c.region.get_parent_block(holder),
    ];
    let (op, region, block) = (Some(c.op), Some(c.region), Some(c.block));
    (ops.as_slice() == [op, op, op, None].as_slice())
        & (regions.as_slice() == [region, region, None].as_slice())
        & (blocks.as_slice() == [block, None, None].as_slice())
}

/// Whether each object of the chain has the next as its only child.
fn looks_down(holder: &Holder, c: Chain) -> bool {
    all_live_in(holder, c)
        && c.op.num_regions(holder) == 1
        && c.op.get_region(holder, 0) == c.region
        && c.region.num_blocks(holder) == 1
        && c.region.get_block(holder, 0) == c.block
        && c.block.num_operations(holder) == 1
        && c.block.get_operation(holder, 0) == c.inner
}

/// Detaches the three inner ones from their parents, and returns whether no parent has a child left.
fn comes_apart(holder: &mut Holder, c: Chain) -> bool {
    if holder.graph.contains(Object::TheOperation(c.inner)) {
        c.inner.unlink(holder);
    }
    if holder.graph.contains(Object::TheBlock(c.block)) {
        c.block.unlink(holder);
    }
    if holder.graph.contains(Object::TheRegion(c.region)) {
        c.region.unlink(holder);
    }
    all_live_in(holder, c)
        && c.op.num_regions(holder) == 0
        && c.region.num_blocks(holder) == 0
        && c.block.num_operations(holder) == 0
}

/// Makes a chain, looks at it from both ends, and takes it apart.
fn goes_round(rt: &impl Abort, holder: &mut Holder) -> bool {
    let graph = &mut holder.graph;
    let chain = Chain {
        op: make_operation(rt, graph, 1),
        region: graph.make_region().expect(rt, "out of memory"),
        block: graph.make_block(2, Few::none()).expect(rt, "out of memory"),
        inner: make_operation(rt, graph, 3),
    };
    let put = put_together(rt, holder, chain);
    let seen = looks_up(holder, chain) & looks_down(holder, chain);
    comes_apart(holder, chain) & put & seen
}

/// A check of a holder.
#[derive(Clone, Copy)]
enum Check {
    Pointers,
    UsesAndLists,
    UsesOfResults,
}

const CHECKS: &[Check] = &[Check::Pointers, Check::UsesAndLists, Check::UsesOfResults];

/// The result of a check.
fn result(rt: &impl Abort, holder: &mut Holder, check: Check) -> bool {
    match check {
        Check::Pointers => goes_round(rt, holder),
        Check::UsesAndLists => uses_and_lists(rt, holder),
        Check::UsesOfResults => uses_of_results(rt, holder),
    }
}

/// Whether a check of an empty graph beside a number succeeds, and leaves the number.
fn holds_held(rt: &impl Abort, alloc: Global, check: Check) -> bool {
    let mut holder = Holder {
        graph: Graph::new(alloc),
        number: 7,
    };
    result(rt, &mut holder, check) & (holder.number == 7)
}

#[test]
fn each_call_over_a_holder(rt: HostRuntime) {
    for check in CHECKS {
        assert!(rt; holds_held(&rt, rt.alloc(), *check));
    }
}
