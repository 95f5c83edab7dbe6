//! Operations of a context that are made with results, operands, successors and regions, or fail.
use crate::tests::checks::{Check, alone, counting};
use crate::tests::must::{is_allowed, must, same, told};
use crate::tests::unique::make_block;
use irtext_base::result::Result as Answer;
use irtext_checked::make::NewOperation;
use irtext_context::base::{BasicBlock, Operation, OperationAccess, Ptr, Region, Value};
use irtext_demo::dialects::register_demo;
use irtext_demo::{DemoAttr, DemoType, IntegerType, Signedness, Width};
use irtext_few::Few;
use irtext_graph::graph::Graph;
use irtext_graph::held::HasGraph;
use irtext_graph::object::{Defined, Object};
use irtext_graph_queries::contained::{contains_blocks, contains_values};
use irtext_tests_common::building::id;
use irtext_tests_common::contexts::Ctx;
use std::alloc::Global;
use std::process::Abort;

/// Registers the demo dialects.
fn add_demo(rt: &impl Abort, ctx: &mut Ctx) {
    assert!(rt; is_allowed(register_demo(ctx)));
}

/// The result of making an operation with two results, a pointer and a byte, with these operands and successors, and with
/// two regions.
fn answered(
    rt: &impl Abort,
    alloc: Global,
    ctx: &mut Ctx,
    words: (&str, &str),
    operands: &[Value],
    successors: &[Ptr<BasicBlock>],
) -> Answer<Ptr<Operation>, DemoAttr> {
    assert!(rt; contains_values(ctx.graph(), operands) && contains_blocks(ctx.graph(), successors));
    let types = Few::two(DemoType::Pointer, byte(rt));
    let id = must(rt, id(alloc, words));
    Operation::new(ctx, id, types, operands, successors, 2)
}

/// Makes such an operation of a demo dialect.
fn made(
    rt: &impl Abort,
    alloc: Global,
    ctx: &mut Ctx,
    operands: &[Value],
    successors: &[Ptr<BasicBlock>],
) -> Ptr<Operation> {
    let answer = answered(rt, alloc, ctx, ("builtin", "module"), operands, successors);
    answer.ok().expect(rt, "refused")
}

/// Whether an operation uses these three values and this block, and nothing else.
fn is_linked<O: Drop, B: Drop, T: Drop>(
    graph: &Graph<O, B, T>,
    op: Ptr<Operation>,
    operands: [Value; 3],
    block: Ptr<BasicBlock>,
) -> bool {
    graph.contains(Object::TheOperation(op))
        && graph.num_operands(op) == 3
        && graph.num_successors(op) == 1
        && (graph.get_operand(op, 0) == operands[0])
            & (graph.get_operand(op, 1) == operands[1])
            & (graph.get_operand(op, 2) == operands[2])
            & (graph.get_successor(op, 0) == block)
}

/// The type of signed integers of eight bits.
fn byte(rt: &impl Abort) -> DemoType {
    let kind = Signedness::Signed;
    let width = Width::new(8).expect(rt, "no such width");
    DemoType::Integer(IntegerType { kind, width })
}

/// Whether a value has this type.
pub(crate) fn has_type<O: Drop, B: Drop>(
    graph: &Graph<O, B, Option<DemoType>>,
    value: Value,
    of_type: DemoType,
) -> bool {
    graph.contains_value(value) && *graph.type_of(value) == Some(of_type)
}

/// Whether an operation has two results, a pointer and a byte.
fn is_typed<O: Drop, B: Drop>(
    rt: &impl Abort,
    graph: &Graph<O, B, Option<DemoType>>,
    op: Ptr<Operation>,
) -> bool {
    has_type(graph, Value::Result(op, 0), DemoType::Pointer)
        && has_type(graph, Value::Result(op, 1), byte(rt))
        && !graph.contains_value(Value::Result(op, 2))
}

/// The number of operands that are a value, if it is live.
fn num_uses<O: Drop, B: Drop, T: Drop>(graph: &Graph<O, B, T>, value: Value) -> Option<usize> {
    if !graph.contains_value(value) {
        return None;
    }
    Some(graph.num_uses(Defined::OfValue(value)))
}

/// Whether an operation has so many regions, of which this is one.
fn has_region<O: Drop, B: Drop, T: Drop>(
    graph: &Graph<O, B, T>,
    op: Ptr<Operation>,
    count: usize,
    region: Ptr<Region>,
) -> bool {
    let op = Object::TheOperation(op);
    let region = Object::TheRegion(region);
    graph.contains(op)
        && graph.contains(region)
        && graph.num_children(op) == count
        && graph.get_parent(region) == Some(op)
}

/// Checks that a region that is added to an operation with two regions is its third.
fn grow(rt: &impl Abort, ctx: &mut Ctx, op: Ptr<Operation>) {
    assert!(rt; ctx.contains_operation(op));
    let region = op.add_region(ctx).expect(rt, "out of memory");
    assert!(rt; has_region(ctx.graph(), op, 3, region));
}

/// Checks that an operation uses a result twice, an argument and a block, and has its results.
fn check_parts<O: Drop, B: Drop>(
    rt: &impl Abort,
    graph: &Graph<O, B, Option<DemoType>>,
    op: Ptr<Operation>,
    used: (Value, Value),
    block: Ptr<BasicBlock>,
) {
    let (result, argument) = used;
    assert!(rt; is_linked(graph, op, [result, argument, result], block) & is_typed(rt, graph, op));
    assert!(rt; (num_uses(graph, result) == Some(2)) & (num_uses(graph, argument) == Some(1)));
}

/// Checks that an operation that uses a result twice, an argument and a block has the parts that it was made with.
pub(crate) fn link(rt: &impl Abort, alloc: Global, ctx: &mut Ctx) {
    add_demo(rt, ctx);
    let first = made(rt, alloc, ctx, &[], &[]);
    let block = make_block(rt, alloc, ctx, "", "p");
    let (result, argument) = (Value::Result(first, 1), Value::Argument(block, 0));
    let op = made(rt, alloc, ctx, &[result, argument, result], &[block]);
    check_parts(rt, ctx.graph(), op, (result, argument), block);
    grow(rt, ctx, op);
}

#[test]
fn operations_are_made_with_all_that_they_have(rt: HostRuntime) {
    alone(&rt, rt.alloc(), Check::Made);
}

/// Ids that are not registered with the demo dialects, and the error for an operation of each.
const UNREGISTERED: &[(&str, &str, &str)] = &[
    ("other", "module", "Unregistered dialect other"),
    ("builtin", "other", "Unregistered Op builtin.other"),
];

/// Checks that an operation of the id of a row that is to use a value has this error, and leaves no trace.
pub(crate) fn refuse(rt: &impl Abort, alloc: Global, ctx: &mut Ctx, row: usize) {
    add_demo(rt, ctx);
    let row = UNREGISTERED.get(row).expect(rt, "no such row");
    let used = Value::Result(made(rt, alloc, ctx, &[], &[]), 0);
    let answer = answered(rt, alloc, ctx, (row.0, row.1), &[used], &[]);
    same(rt, told(rt, alloc, answer, "made"), row.2);
    assert!(rt; (ctx.num_live() == 3) & (num_uses(ctx.graph(), used) == Some(0)));
}

#[test]
fn what_is_not_registered_is_not_made(rt: HostRuntime) {
    for row in 0..UNREGISTERED.len() {
        alone(&rt, rt.alloc(), Check::Unregistered(row));
    }
}

/// Checks that there is no number for an operation that is to use a result of another, and that all objects and uses are unchanged then.
pub(crate) fn fill(rt: &impl Abort, alloc: Global, ctx: &mut Ctx) {
    add_demo(rt, ctx);
    let used = Value::Result(made(rt, alloc, ctx, &[], &[]), 0);
    let block = make_block(rt, alloc, ctx, "", "p");
    let answer = answered(rt, alloc, ctx, ("builtin", "module"), &[used], &[block]);
    same(rt, told(rt, alloc, answer, "made"), "Out of memory");
    assert!(rt; (ctx.num_live() == 4) & (num_uses(ctx.graph(), used) == Some(0)));
}

#[test]
fn a_full_counter_leaves_all_as_it_was(rt: HostRuntime) {
    for counters in &[(u64::MAX - 4, 1), (0, u32::MAX - 3)] {
        counting(&rt, rt.alloc(), counters.0, counters.1, Check::FullCounter);
    }
}
