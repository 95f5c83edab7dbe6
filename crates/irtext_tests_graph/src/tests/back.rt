//! Everything made since a mark is rolled back.
ghost use Rattle.std.specs.Prelude.{◌≡◌, ◌≤◌, ℕ, None};
ghost use Rattle.irtext_graph.specs.Graph.{KeepsOlder, IsLive};
ghost use Rattle.irtext_graph.specs.Store.{get, before};
ghost use Rattle.irtext_graph.specs.declared.arena.Ptr.{Ptr};
ghost use Rattle.irtext_graph.specs.declared.object.Operation.{Operation};
ghost use Rattle.irtext_graph.specs.declared.object.Region.{Region};
ghost use Rattle.irtext_graph.specs.declared.object.Object.TheVariants.{TheOperation};

use crate::tests::checks::Numbers;
use crate::tests::nesting::{is_child_at, make_operation};
use irtext_few::Few;
use irtext_graph::arena::Ptr;
use irtext_graph::object::{Object, Operation, Region};
use std::process::Abort;

/// An object of each kind that were made: an operation, a block and a region.
type Three = [Object; 3];

/// Makes an object of each kind.
fn makes_three(rt: &impl Abort, graph: &mut Numbers, data: u32) -> Three
    ensures kept { (m : ℕ) → m ≤ graph.old.made → KeepsOlder m graph.old graph.new }
{
    let operation = make_operation(rt, graph, data);
    let block = graph
        .make_block(data, Few::none())
        .expect(rt, "out of memory");
    let region = graph.make_region().expect(rt, "out of memory");
    [
        Object::TheOperation(operation),
        Object::TheBlock(block),
        Object::TheRegion(region),
    ]
}

/// How many of these objects are live.
fn num_live(graph: &Numbers, objects: &[Object]) -> usize {
    let mut count: usize = 0;
    for o in objects {
        if graph.contains(*o) {
            count = count.wrapping_add(1);
        }
    }
    count
}

/// Makes the seventh object, and returns whether it is an operation at the second place, with the next generation there.
fn goes_on(rt: &impl Abort, graph: &mut Numbers) -> bool {
    let again = make_operation(rt, graph, 3);
    (again.place() == 2) & (again.generation() == 2) & (graph.made() == 7)
}

/// Whether what was made after a mark is removed, older objects are live, and places are used again with their next generation.
pub(crate) fn gives_back(rt: &impl Abort, graph: &mut Numbers) -> bool {
    let older = makes_three(rt, graph, 1);
    let mark = graph.made();
    let newer = makes_three(rt, graph, 2);
    let before = (graph.num_live() == 6) & (num_live(graph, &newer) == 3);
    graph.roll_back(mark);
    let left = (graph.num_live() == 3) & (num_live(graph, &older) == 3);
    let gone = num_live(graph, &newer) == 0;
    goes_on(rt, graph) & before & left & gone
}

/// Whether an operation has two regions in this order, and there is no other object.
fn has_two(graph: &Numbers, op: Ptr<Operation>, first: Ptr<Region>, second: Ptr<Region>) -> bool {
    let module = Object::TheOperation(op);
    graph.contains(module)
        && graph.num_children(module) == 2
        && is_child_at(graph, module, Object::TheRegion(first), 0)
        && is_child_at(graph, module, Object::TheRegion(second), 1)
        && graph.num_live() == 3
}

/// Adds two regions to the only object, an operation, and returns whether they are in it in the order in which they were added.
fn adds_two(rt: &impl Abort, graph: &mut Numbers, op: Ptr<Operation>) -> bool
    requires { IsLive graph.old (TheOperation op) }
    ensures kept { (m : ℕ) → m ≤ graph.old.made → before m graph.old.operations op ≡ None
        → KeepsOlder m graph.old graph.new }
{
    let first = graph.add_region(op).expect(rt, "out of memory");
    let second = graph.add_region(op).expect(rt, "out of memory");
    has_two(graph, op, first, second)
}

/// Makes an operation with two regions, and returns whether they are in it.
fn makes_with_two(rt: &impl Abort, graph: &mut Numbers) -> bool
    ensures kept { (m : ℕ) → m ≤ graph.old.made → KeepsOlder m graph.old graph.new }
{
    let op = graph
        .make_operation(1, Few::none(), &[], &[])
        .expect(rt, "out of memory");
    adds_two(rt, graph, op)
}

/// Whether an operation with two regions is made and rolled back.
pub(crate) fn gives_regions_back(rt: &impl Abort, graph: &mut Numbers) -> bool
    ensures operations { (p : Ptr Operation) → get graph.new.operations p ≡ get graph.old.operations p }
    ensures regions { (p : Ptr Region) → get graph.new.regions p ≡ get graph.old.regions p }
{
    let mark = graph.made();
    let made = makes_with_two(rt, graph);
    graph.roll_back(mark);
    made
}
