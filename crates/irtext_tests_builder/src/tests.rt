//! The tests: drafts with all their parts, and a row for each error.
use irtext_base::base::{AttrObj, GIVEN_NAMES_KEY, Identifier, SYM_NAME_KEY};
use irtext_base::result::Result as Answer;
use irtext_builder::block::BlockDraft;
use irtext_builder::operation::OpDraft;
use irtext_checked::access::TryAccess;
use irtext_context::base::{
    AttributeDict, BasicBlock, BlockAccess, Operation, OperationAccess, Ptr, Value,
};
use irtext_demo::{DemoAttr, DemoType};
use irtext_few::Few;
use irtext_graph::graph::Graph;
use irtext_graph::held::HasGraph;
use irtext_graph::object::Object;
use irtext_tests_common::answers::{accepted, done_or_cause};
use irtext_tests_common::building::{at, attribute};
use irtext_tests_common::contexts::{Ctx, with_demo};
use std::alloc::Global;
use std::process::Abort;
use std::test::Fail;

/// The result of a call.
type Built<X> = Answer<X, DemoAttr>;

/// A draft of an operation.
type Draft<'a> = OpDraft<'a, DemoType, DemoAttr>;

/// The value of a call that has to succeed.
fn must<X>(rt: &impl Abort, answer: Result<X, Fail>) -> X {
    match answer {
        Ok(value) => value,
        Err(_) => rt.panic("a call has failed"),
    }
}

/// Fails with this reason unless the condition holds.
fn check(holds: bool, why: &str) -> Result<(), Fail> {
    if holds {
        return Ok(());
    }
    Err(Fail::from(why))
}

/// Whether a name is this one.
fn is_named(given: &Option<Identifier>, name: &str) -> bool {
    match given {
        Some(given) => given.as_str() == name,
        None => false,
    }
}

/// Whether a label is this one.
fn is_labelled(label: Option<&Identifier>, name: &str) -> bool {
    match label {
        Some(label) => label.as_str() == name,
        None => false,
    }
}

/// Whether the given names in a dictionary are these two.
fn gives(attributes: &AttributeDict<DemoAttr>, names: (&str, &str)) -> bool {
    match attributes.get_str(GIVEN_NAMES_KEY) {
        Some(AttrObj::GivenNames(given)) => {
            given.len() == 2 && is_named(&given[0], names.0) && is_named(&given[1], names.1)
        }
        _ => false,
    }
}

/// Whether a dictionary has this identifier under a key.
fn has(attributes: &AttributeDict<DemoAttr>, key: &str, name: &str) -> bool {
    match attributes.get_str(key) {
        Some(AttrObj::Ident(found)) => found.as_str() == name,
        _ => false,
    }
}

/// A module with a region and a symbol.
fn module(ctx: &mut Ctx) -> Built<Ptr<Operation>> {
    Draft::new(ctx, "builtin", "module")?
        .regions(1)
        .symbol("m")?
        .at(at(3))
        .build(ctx)
}

/// A block in the region of a module, with a label, two named arguments and this attribute.
fn block(ctx: &mut Ctx, module: Ptr<Operation>, mark: AttrObj<DemoAttr>) -> Built<Ptr<BasicBlock>> {
    let region = module.try_get_region(ctx, 0)?;
    BlockDraft::new(ctx)
        .label("entry")?
        .arguments(Few::two(DemoType::Pointer, DemoType::Pointer))
        .names(&["x", "y"])?
        .attribute("test_mark", mark)?
        .at(at(7))
        .build_in(ctx, region)
}

/// An operation at the end of a block that uses the block and its arguments, and has two named results and this attribute.
fn user(ctx: &mut Ctx, block: Ptr<BasicBlock>, mark: AttrObj<DemoAttr>) -> Built<Ptr<Operation>> {
    let operands = [Value::Argument(block, 1), Value::Argument(block, 0)];
    let successors = [block];
    Draft::new(ctx, "test", "global")?
        .results(Few::two(DemoType::Pointer, DemoType::Pointer))
        .operands(&operands)
        .successors(&successors)
        .names(&["a", "b"])?
        .attribute("test_mark", mark)?
        .build_in(ctx, block)
}

/// Whether an operation uses the arguments of a block in this order, and the block, and is the only one in it.
fn is_linked<O: Drop, B: Drop, T: Drop>(
    graph: &Graph<O, B, T>,
    op: Ptr<Operation>,
    block: Ptr<BasicBlock>,
) -> bool {
    let (holder, item) = (Object::TheBlock(block), Object::TheOperation(op));
    graph.contains(holder)
        && graph.contains(item)
        && graph.num_children(holder) == 1
        && graph.get_parent(item) == Some(holder)
        && graph.num_operands(op) == 2
        && graph.get_operand(op, 0) == Value::Argument(block, 1)
        && graph.get_operand(op, 1) == Value::Argument(block, 0)
        && graph.num_successors(op) == 1
        && graph.get_successor(op, 0) == block
        && graph.contains_value(Value::Result(op, 1))
}

/// Checks the symbol and the location of a module.
fn check_module(ctx: &Ctx, module: Ptr<Operation>) -> Result<(), Fail> {
    if !ctx.contains_operation(module) {
        return Err(Fail::from("no module"));
    }
    check(has(module.attributes(ctx), SYM_NAME_KEY, "m"), "no symbol")?;
    check(*module.loc(ctx) == at(3), "the module is elsewhere")
}

/// Checks the label, the attributes and the location of a block.
fn check_block(ctx: &Ctx, block: Ptr<BasicBlock>) -> Result<(), Fail> {
    if !ctx.contains_block(block) {
        return Err(Fail::from("no block"));
    }
    check(gives(block.attributes(ctx), ("x", "y")), "no arguments")?;
    check(has(block.attributes(ctx), "test_mark", "x"), "no mark")?;
    check(is_labelled(block.label(ctx), "entry"), "no label")?;
    check(*block.loc(ctx) == at(7), "the block is elsewhere")
}

/// Checks the attributes of an operation.
fn check_user(ctx: &Ctx, op: Ptr<Operation>) -> Result<(), Fail> {
    if !ctx.contains_operation(op) {
        return Err(Fail::from("no operation"));
    }
    check(gives(op.attributes(ctx), ("a", "b")), "no results")?;
    check(has(op.attributes(ctx), "test_mark", "x"), "no mark")
}

/// Builds a module, a block in it and an operation in that, and checks all that was said of them.
fn build_all(alloc: Global, ctx: &mut Ctx) -> Result<(), Fail> {
    let module = accepted(module(ctx), "no module")?;
    let mark = attribute(alloc, 'i')?;
    let block = accepted(block(ctx, module, mark), "no block")?;
    let mark = attribute(alloc, 'i')?;
    let op = accepted(user(ctx, block, mark), "no operation")?;
    check(is_linked(ctx.graph(), op, block), "not linked")?;
    check_module(ctx, module)?;
    check_block(ctx, block)?;
    check_user(ctx, op)
}

#[test]
fn parts(rt: HostRuntime) {
    let done = with_demo(rt.alloc(), |alloc, ctx| build_all(alloc, ctx));
    must(&rt, done);
}

/// A draft that is not built: its id, its key, its names, its symbol, or one of its names is no identifier, or its key takes only given
/// names.
fn drafted(ctx: &Ctx, row: usize, mark: AttrObj<DemoAttr>) -> Built<Draft<'static>> {
    match row {
        0 => Draft::new(ctx, "te-st", "make"),
        1 => Draft::new(ctx, "test", ""),
        2 => Draft::new(ctx, "test", "make")?.attribute("a key", mark),
        3 => Draft::new(ctx, "test", "make")?.attribute(GIVEN_NAMES_KEY, mark),
        4 => Draft::new(ctx, "test", "make")?.names(&["x", "y z", "-"]),
        5 => Draft::new(ctx, "test", "make")?.name("1"),
        _ => Draft::new(ctx, "test", "make")?.symbol("@m"),
    }
}

/// Builds an operation that is not registered, uses what is not in the context, or goes into a block that is not in the context.
fn built(ctx: &mut Ctx, row: usize) -> Built<Ptr<Operation>> {
    let block = BlockDraft::new(ctx).build(ctx)?;
    let values = [Value::Argument(block, 0)];
    match row {
        7 => Draft::new(ctx, "none", "make")?.build_in(ctx, block),
        8 => Draft::new(ctx, "test", "none")?.build_in(ctx, block),
        _ => Draft::new(ctx, "test", "use")?
            .operands(&values)
            .build_in(ctx, block),
    }
}

/// Builds a block of which one part is wrong.
fn blocked(ctx: &mut Ctx, row: usize, mark: AttrObj<DemoAttr>) -> Built<Ptr<BasicBlock>> {
    let draft = BlockDraft::new(ctx);
    match row {
        10 => draft.label("")?.build(ctx),
        11 => draft.name("x-")?.build(ctx),
        12 => draft.names(&["x", "y-"])?.build(ctx),
        13 => draft.attribute("", mark)?.build(ctx),
        _ => draft.attribute(GIVEN_NAMES_KEY, mark)?.build(ctx),
    }
}

/// What is said of each.
const ERRORS: [&str; 15] = [
    "Unexpected `-`, expected identifier",
    "Unexpected end of input, expected identifier",
    "Unexpected ` `, expected identifier",
    "Reserved attribute key: builtin_given_names",
    "Unexpected ` `, expected identifier",
    "Unexpected `1`, expected identifier",
    "Unexpected `@`, expected identifier",
    "Unregistered dialect none",
    "Unregistered Op test.none",
    "an operand is not in the context",
    "Unexpected end of input, expected identifier",
    "Unexpected `-`, expected identifier",
    "Unexpected `-`, expected identifier",
    "Unexpected end of input, expected identifier",
    "Reserved attribute key: builtin_given_names",
];

/// What is said of a row.
fn said(alloc: Global, ctx: &mut Ctx, row: usize) -> Result<String, Fail> {
    let mark = attribute(alloc, 'i')?;
    if row < 7 {
        return done_or_cause(alloc, &drafted(ctx, row, mark), "done");
    }
    if row < 10 {
        return done_or_cause(alloc, &built(ctx, row), "done");
    }
    done_or_cause(alloc, &blocked(ctx, row, mark), "done")
}

/// Checks what is said of each row.
fn check_rows(alloc: Global, ctx: &mut Ctx) -> Result<(), Fail> {
    for (row, wanted) in ERRORS.iter().enumerate() {
        let text = said(alloc, ctx, row)?;
        let same = text.as_str() == *wanted;
        drop(text);
        check(same, *wanted)?;
    }
    Ok(())
}

#[test]
fn errors(rt: HostRuntime) {
    let done = with_demo(rt.alloc(), |alloc, ctx| check_rows(alloc, ctx));
    must(&rt, done);
}
