//! Results that are named outside of every region: no scope is open there, so each is an error.
ghost use Rattle.std.specs.Prelude.{IsTrue, IsSome};
ghost use Rattle.irtext_context.specs.Context.{operation};

use crate::tests::checks::{Check, alone};
use crate::tests::reading::root;
use crate::tests::value::{held, name_of, same, value_of};
use irtext_demo::{DemoAttr, DemoType};
use irtext_graph::graph::Graph;
use irtext_graph::held::HasGraph;
use irtext_graph::object::Object;
use irtext_tests_common::answers::result_text;
use irtext_tests_common::contexts::{Ctx, Stream};
use pliron_text::base::{Identifier, Operation, Ptr};
use pliron_text::irfmt::parsers::process_parsed_ssa_defs;
use pliron_text::location::{Location, Source};
use pliron_text::parsable::{
    CharStream, ParseResult, SourcePosition, State, StateStream, TextStream,
};
use std::alloc::Global;
use std::process::Abort;

/// A root with an operation without results and one with a result.
const ROOT: &str = "builtin.module @m { ^a(): test.nop; x = test.make: test.ptr }";

/// A name, with the line and column of its location if it has one.
type Named<'t> = (&'t str, Option<(i32, i32)>);

/// The index of an operation in the block of the root, the names of its results, and the expected result.
const RESULTS: &[(usize, &[Named<'static>], &str)] = &[
    (0, &[], "named"),
    (
        1,
        &[],
        "line: 1, column: 3: Operation has 1 results and 0 names!",
    ),
    (
        0,
        &[("x", Some((4, 5)))],
        "line: 1, column: 3: Operation has 0 results and 1 names!",
    ),
    (
        1,
        &[("x", Some((4, 5)))],
        "line: 4, column: 5: No active scope for identifier x!",
    ),
    (
        1,
        &[("x", None)],
        "line: 1, column: 1: No active scope for identifier x!",
    ),
];

/// The location at a line and a column, or an unknown one.
fn location(at: Option<(i32, i32)>) -> Location<DemoAttr> {
    match at {
        Some((line, column)) => Location::SrcPos {
            src: Source::InMemory,
            pos: SourcePosition { line, column },
        },
        None => Location::Unknown,
    }
}

/// Names with their locations.
fn names(
    rt: &impl Abort,
    alloc: Global,
    row: &[Named<'_>],
) -> Vec<(Identifier, Location<DemoAttr>)> {
    let mut names = Vec::new(alloc);
    for (name, at) in row {
        let name = (name_of(rt, alloc, name), location(*at));
        names.push(name).expect(rt, "out of memory");
    }
    names
}

/// The part of an object at an index: a region of an operation, a block of a region, or an operation of a block.
fn part<O: Drop, B: Drop, T: Drop>(
    rt: &impl Abort,
    graph: &Graph<O, B, T>,
    whole: Object,
    index: usize,
) -> Object {
    if !graph.contains(whole) || index >= graph.num_children(whole) {
        rt.panic("no such part");
    }
    graph.get_child(whole, index)
}

/// The operation of an index in the first block of a root's first region.
fn inside<O: Drop, B: Drop, T: Drop>(
    rt: &impl Abort,
    graph: &Graph<O, B, T>,
    root: Ptr<Operation>,
    index: usize,
) -> Ptr<Operation> {
    let region = part(rt, graph, Object::TheOperation(root), 0);
    let block = part(rt, graph, region, 0);
    match part(rt, graph, block, index) {
        Object::TheOperation(op) => op,
        _ => rt.panic("no operation"),
    }
}

/// The text of a result, which ends here: `named`, or the fault.
fn told(rt: &impl Abort, alloc: Global, answer: ParseResult<(), DemoAttr>) -> String {
    let text = match &answer {
        Ok(()) => held(rt, alloc, "named"),
        Err(fault) => value_of(rt, result_text(alloc, fault), "out of memory"),
    };
    drop(answer);
    text
}

/// Whether an operation is in the context of a state.
fn is_live(state: &State<'_, DemoType, DemoAttr, ()>, op: Ptr<Operation>) -> bool
    ensures { IsTrue result → IsSome (operation state.now.ctx.now op) }
{
    state.ctx.contains_operation(op)
}

/// The result for the names of an operation's results, in the third column of the stream.
fn result(
    rt: &impl Abort,
    alloc: Global,
    s: &mut Stream<'_>,
    names: &[(Identifier, Location<DemoAttr>)],
    op: Ptr<Operation>,
) -> String {
    s.stream.take();
    s.stream.take();
    if !is_live(&s.state, op) {
        rt.panic("no such operation");
    }
    told(rt, alloc, process_parsed_ssa_defs(s, names, op))
}

/// The same on a stream of its own.
fn on_stream(
    rt: &impl Abort,
    alloc: Global,
    ctx: &mut Ctx,
    names: &[(Identifier, Location<DemoAttr>)],
    op: Ptr<Operation>,
) -> String {
    let stream = TextStream::new(alloc, "ab").expect(rt, "out of memory");
    let state = State::new(ctx, Source::InMemory, ());
    let mut s = StateStream { stream, state };
    let text = result(rt, alloc, &mut s, names, op);
    drop(s);
    text
}

/// Checks the result of a row.
pub(crate) fn check(rt: &impl Abort, alloc: Global, ctx: &mut Ctx, row: usize) {
    let row = RESULTS.get(row).expect(rt, "no such row");
    let root = root(ctx, ROOT).expect(rt, "refused");
    let op = inside(rt, ctx.graph(), root, row.0);
    let names = names(rt, alloc, row.1);
    same(rt, on_stream(rt, alloc, ctx, names.as_slice(), op), row.2);
    drop(names);
}

#[test]
fn results_are_named_inside_of_regions_alone(rt: HostRuntime) {
    for row in 0..RESULTS.len() {
        alone(&rt, rt.alloc(), Check::Outside(row));
    }
}
