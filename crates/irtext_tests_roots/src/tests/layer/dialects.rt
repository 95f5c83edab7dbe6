//! The dialects of a context: how they are registered and looked up, and how their names are parsed and printed.
use crate::tests::checks::{Check, alone};
use crate::tests::value::{held, id_of, name_of, same, to_text, told, value_of};
use irtext_demo::{DemoAttr, DemoType};
use irtext_graph::graph::Graph;
use irtext_graph::held::HasGraph;
use irtext_graph::object::Object;
use irtext_tests_common::building::register;
use irtext_tests_common::contexts::Ctx;
use pliron_text::base::{NewBareOperation, Operation, Ptr};
use pliron_text::dialect::{Dialect, DialectName};
use pliron_text::parsable::{Parsable, parse_from_str};
use pliron_text::printable::Disp;
use pliron_text::result::Result as Answer;
use std::alloc::Global;
use std::convert::AsStr;
use std::process::Abort;

/// The text of each step, one after the other, with one context.
const STEPS: &[&str] = &[
    "unknown",
    "Compilation error: invalid argument.\nUnregistered dialect test",
    "added",
    "isolated",
    "Compilation error: invalid argument.\nUnregistered Op test.y",
    "0",
    "2",
    "3",
    "test true",
    "isolated",
    "unknown",
    "false",
    "test",
    "test",
    "test",
    "Compilation error: invalid input program.\nParse error at line: 1, column: 1\nUnregistered dialect non_existant\n",
    "Compilation error: invalid input program.\nParse error at line: 1, column: 1\nUnexpected ` `, expected identifier\n",
    "test z false",
    "unknown",
];

/// The name of the dialect `test`.
fn test_name(rt: &impl Abort, alloc: Global) -> DialectName {
    DialectName::from(name_of(rt, alloc, "test"))
}

/// Registers the operation `test.z`, isolated, with the canonical form.
fn add(rt: &impl Abort, alloc: Global, ctx: &mut Ctx) -> String {
    value_of(
        rt,
        register(alloc, ctx, ("test", "z"), "-", true),
        "refused",
    );
    held(rt, alloc, "added")
}

/// Registers the dialect once more: its name, and whether it has the operation `test.z`.
fn again(rt: &impl Abort, alloc: Global, ctx: &mut Ctx) -> String {
    let id = id_of(rt, alloc, ("test", "z"));
    let name = test_name(rt, alloc);
    let dialect = Dialect::register(ctx, &name).expect(rt, "refused");
    let text = format!(in alloc; "{} {}", dialect.name().as_str(), dialect.op(&id).is_some());
    drop(id);
    drop(name);
    text.expect(rt, "out of memory")
}

/// The entry of an operation of the dialect `test`, as a text.
fn known(rt: &impl Abort, alloc: Global, ctx: &Ctx, name: &str) -> String {
    let id = id_of(rt, alloc, ("test", name));
    let word = match ctx.op_info(&id) {
        Some(info) => { if info.isolated { "isolated" } else { "open" } }
        None => "unknown",
    };
    drop(id);
    held(rt, alloc, word)
}

/// The entry of an operation of the dialect `test`, looked up by the texts of its id: these, and whether its format has a symbol's name.
fn found(rt: &impl Abort, alloc: Global, ctx: &Ctx, name: &str) -> String {
    let (key, dialect) = ctx.dialect_named("test").expect(rt, "not registered");
    let Some((id, info)) = dialect.op_named("test", name) else {
        return held(rt, alloc, "unknown");
    };
    let has_header = info.sym_name_key().is_some();
    format!(in alloc; "{} {} {has_header}", key.as_str(), id.name.as_str()).expect(
        rt,
        "out of memory",
    )
}

/// The printed text of the registered dialect.
fn shown(rt: &impl Abort, alloc: Global, ctx: &Ctx) -> String {
    let name = test_name(rt, alloc);
    let dialect = ctx.dialect(&name).expect(rt, "not registered");
    let text = format!(in alloc; "{}", dialect.disp(ctx));
    drop(name);
    text.expect(rt, "out of memory")
}

/// The name that a text is parsed as, or the error.
fn read(rt: &impl Abort, alloc: Global, ctx: &mut Ctx, text: &str) -> String {
    let answer = parse_from_str(
        |s| <DialectName as Parsable<DemoType, DemoAttr, ()>>::parse(s, ()),
        ctx,
        text,
    );
    told(rt, alloc, answer)
}

/// The result of making an operation of this name with two regions: how many it has, or the error.
fn made(rt: &impl Abort, alloc: Global, ctx: &mut Ctx, name: &str) -> String {
    let id = id_of(rt, alloc, ("test", name));
    let answer: Answer<Ptr<Operation>, DemoAttr> = Operation::new(ctx, id, 2);
    match answer {
        Ok(op) => to_text(rt, alloc, regions(rt, ctx.graph(), op)),
        Err(error) => to_text(rt, alloc, error),
    }
}

/// How many regions an operation has.
fn regions<O: Drop, B: Drop, T: Drop>(
    rt: &impl Abort,
    graph: &Graph<O, B, T>,
    op: Ptr<Operation>,
) -> usize {
    let op = Object::TheOperation(op);
    assert!(rt; graph.contains(op));
    graph.num_children(op)
}

/// Whether a dialect that was not registered is found.
fn other(rt: &impl Abort, alloc: Global, ctx: &Ctx) -> String {
    let name = name_of(rt, alloc, "other");
    let has = ctx.has_dialect(&name);
    drop(name);
    to_text(rt, alloc, has)
}

/// The text of a step.
fn step(rt: &impl Abort, alloc: Global, ctx: &mut Ctx, number: usize) -> String {
    match number {
        0 | 3 | 9 => known(rt, alloc, ctx, "z"),
        1 | 6 => made(rt, alloc, ctx, "z"),
        2 => add(rt, alloc, ctx),
        4 => made(rt, alloc, ctx, "y"),
        5 | 7 => to_text(rt, alloc, ctx.num_live()),
        8 => again(rt, alloc, ctx),
        10 => known(rt, alloc, ctx, "y"),
        11 => other(rt, alloc, ctx),
        12 => shown(rt, alloc, ctx),
        13 => read(rt, alloc, ctx, "test"),
        14 => read(rt, alloc, ctx, "test.x"),
        15 => read(rt, alloc, ctx, "non_existant"),
        16 => read(rt, alloc, ctx, " test"),
        17 => found(rt, alloc, ctx, "z"),
        _ => found(rt, alloc, ctx, "y"),
    }
}

/// Checks the text of each step.
pub(crate) fn check(rt: &impl Abort, alloc: Global, ctx: &mut Ctx) {
    for (number, wanted) in STEPS.iter().enumerate() {
        same(rt, step(rt, alloc, ctx, number), *wanted);
    }
}

#[test]
fn dialects_of_a_context(rt: HostRuntime) {
    alone(&rt, rt.alloc(), Check::Dialects);
}
