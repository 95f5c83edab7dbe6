//! The text of demo operations that calls have made, with everything nested in them, as users print it: roots, concrete texts, blocks and
//! regions.
use crate::tests::checks::{Check, in_demo};
use crate::tests::must::{must, same};
use irtext_base::base::{AttrObj, GIVEN_NAMES_KEY};
use irtext_base::parsable::{ParseFault, TextStream};
use irtext_base::text::IrText;
use irtext_context::base::{BasicBlock, Item, Operation, OperationAccess, Ptr, Value};
use irtext_demo::{DemoAttr, DemoType};
use irtext_few::Few;
use irtext_graph_queries::operation::OperationParts;
use irtext_print_ir::ir::print::OpObj;
use irtext_print_ir::ir::print::debug::{OpDbg, print_elided};
use irtext_print_ir::irfmt::printers::op::region;
use irtext_print_ir::printable::{Disp, Printable};
use irtext_tests_common::building::{
    block_inside, give, id, into_block, module, name, one_name, operation, register, types,
};
use irtext_tests_common::contexts::Ctx;
use std::alloc::Global;
use std::process::Abort;

/// The attribute with this text.
fn attribute(rt: &impl Abort, alloc: Global, text: &str) -> AttrObj<DemoAttr> {
    let mut stream = TextStream::new(alloc, text).expect(rt, "out of memory");
    let answer: Result<DemoAttr, ParseFault<DemoAttr>> = <DemoAttr as IrText<DemoAttr>>::read(
        &mut stream,
    );
    AttrObj::Own(answer.ok().expect(rt, "no attribute"))
}

/// The text of a number as an attribute.
const ZERO: &str = "builtin.integer <0: si64>";

/// The text of a function's type as an attribute.
const FUNCTION_TYPE: &str = "builtin.function <()->(builtin.integer si64)>";

/// Gives an operation the attribute with this text.
fn give_text(
    rt: &impl Abort,
    alloc: Global,
    ctx: &mut Ctx,
    op: Ptr<Operation>,
    key: &str,
    text: &str,
) {
    let attr = attribute(rt, alloc, text);
    must(rt, give(alloc, ctx, Item::Operation(op), key, attr));
}

/// The demo operations that use or define values and blocks, and the letters of their formats.
const FORMATS: &[(&str, &str)] = &[("constant", "c:v"), ("return", "O"), ("global", "-")];

/// Registers these operations.
fn register_all(rt: &impl Abort, alloc: Global, ctx: &mut Ctx) {
    for (name, letters) in FORMATS {
        must(rt, register(alloc, ctx, ("test", name), letters, false));
    }
}

/// Makes an operation with one result, signed integers of 64 bits or another type, which uses nothing.
fn with_result(
    rt: &impl Abort,
    alloc: Global,
    ctx: &mut Ctx,
    words: (&str, &str),
    letter: &str,
) -> Ptr<Operation> {
    let id = must(rt, id(alloc, words));
    let types = must(rt, types(alloc, letter));
    must(rt, operation(ctx, id, types, &[], &[], 0))
}

/// The text of a value that is `Printable`, with a new state.
fn shown<X: Printable<(), DemoType, DemoAttr>>(
    rt: &impl Abort,
    alloc: Global,
    ctx: &Ctx,
    x: &X,
) -> String
    requires { X.can_print x.now ctx.now }
{
    format!(in alloc; "{}", x.disp(ctx)).expect(rt, "out of memory")
}

/// The whole text of an operation.
fn whole(rt: &impl Abort, alloc: Global, ctx: &Ctx, op: Ptr<Operation>) -> String {
    assert!(rt; ctx.contains_operation(op));
    shown(rt, alloc, ctx, &op)
}

/// The concrete text of an operation.
fn concrete(rt: &impl Abort, alloc: Global, ctx: &Ctx, op: Ptr<Operation>) -> String {
    assert!(rt; ctx.contains_operation(op));
    shown(rt, alloc, ctx, &OpObj { op })
}

/// The printed texts of a module with one empty block, in this order: its concrete text, the module, its region by a pointer and by the
/// printer of an operation's one region, and its block.
const MODULE: &[&str] = &[
    "builtin.module @bar \n{\n  ^block1v1():\n    \n}",
    "builtin.module @bar \n{\n  ^block1v1():\n    \n}",
    "\n{\n  ^block1v1():\n    \n}",
    "\n{\n  ^block1v1():\n    \n}",
    "^block1v1():\n  ",
];

/// The text of an operation's first region.
fn region_text(rt: &impl Abort, alloc: Global, ctx: &Ctx, op: Ptr<Operation>) -> String {
    assert!(rt; ctx.contains_operation(op) && op.num_regions(ctx) != 0);
    let inside = op.get_region(ctx, 0);
    assert!(rt; ctx.contains_region(inside));
    shown(rt, alloc, ctx, &inside)
}

/// The text of a block.
fn block_text(rt: &impl Abort, alloc: Global, ctx: &Ctx, block: Ptr<BasicBlock>) -> String {
    assert!(rt; ctx.contains_block(block));
    shown(rt, alloc, ctx, &block)
}

/// The printed text of a part of the module, by its number.
fn module_text(
    rt: &impl Abort,
    alloc: Global,
    ctx: &Ctx,
    op: Ptr<Operation>,
    entry: Ptr<BasicBlock>,
    number: usize,
) -> String {
    assert!(rt; ctx.contains_operation(op));
    match number {
        0 => concrete(rt, alloc, ctx, op),
        1 => whole(rt, alloc, ctx, op),
        2 => region_text(rt, alloc, ctx, op),
        3 => shown(rt, alloc, ctx, &region(op)),
        _ => block_text(rt, alloc, ctx, entry),
    }
}

/// The text of an operation with its regions elided, or why there is none.
fn elided(rt: &impl Abort, alloc: Global, ctx: &Ctx, op: Ptr<Operation>) -> String {
    assert!(rt; ctx.contains_operation(op));
    let mut text = String::new(alloc);
    let Err(refusal) = print_elided(ctx, op, &mut text) else {
        return text;
    };
    drop(text);
    format!(in alloc; "{refusal:?}").expect(rt, "out of memory")
}

/// Checks the text of a module with its regions elided, and that of a function without a type.
fn check_elided(rt: &impl Abort, alloc: Global, ctx: &mut Ctx, op: Ptr<Operation>) {
    let wanted = "builtin.module @bar {..}";
    same(rt, elided(rt, alloc, ctx, op).as_str(), wanted);
    let shown = format!(in alloc; "{:?}", OpDbg { op, ctx }).expect(rt, "out of memory");
    same(rt, shown.as_str(), wanted);
    let id = must(rt, id(alloc, ("builtin", "func")));
    let untyped = must(rt, operation(ctx, id, Few::none(), &[], &[], 1));
    same(rt, elided(rt, alloc, ctx, untyped).as_str(), "Misfit");
}

/// Checks the text of each part of a module.
pub(crate) fn check_module(rt: &impl Abort, alloc: Global, ctx: &mut Ctx) {
    let op = must(rt, module(alloc, ctx, "bar"));
    let entry = must(rt, block_inside(alloc, ctx, op, "", Few::none()));
    for (number, wanted) in MODULE.iter().enumerate() {
        same(
            rt,
            module_text(rt, alloc, ctx, op, entry, number).as_str(),
            *wanted,
        );
    }
    check_elided(rt, alloc, ctx, op);
}

/// A module with a function that returns a constant: its concrete text, and its section.
const FUNCTION: (&str, &str) = (
    "builtin.module @bar \n{\n  ^block1v1():\n    builtin.func @foo: builtin.function <()->(builtin.integer si64)> \n    {\n      ^entry_block2v1() !0:\n        c0_v0 = test.constant builtin.integer <0: si64>: builtin.integer si64 !1;\n        test.return c0_v0\n    }\n}",
    "\n\noutlined_attributes:\n!0 = [builtin_block_label = builtin.identifier entry]\n!1 = [builtin_given_names = builtin.given_names [c0]]\n",
);

/// Makes a constant whose result has a name, last in a block.
fn constant(rt: &impl Abort, alloc: Global, ctx: &mut Ctx, entry: Ptr<BasicBlock>) -> Value {
    let op = with_result(rt, alloc, ctx, ("test", "constant"), "i");
    give_text(rt, alloc, ctx, op, "test_value", ZERO);
    let names = must(rt, one_name(alloc, "c0"));
    must(
        rt,
        give(alloc, ctx, Item::Operation(op), GIVEN_NAMES_KEY, names),
    );
    must(rt, into_block(ctx, op, entry));
    Value::Result(op, 0)
}

/// Makes an operation that returns a value, last in a block.
fn returned(rt: &impl Abort, alloc: Global, ctx: &mut Ctx, entry: Ptr<BasicBlock>, value: Value) {
    let id = must(rt, id(alloc, ("test", "return")));
    let op = must(rt, operation(ctx, id, Few::none(), &[value], &[], 0));
    must(rt, into_block(ctx, op, entry));
}

/// Makes a function with one block, last in a block.
fn function(rt: &impl Abort, alloc: Global, ctx: &mut Ctx, outer: Ptr<BasicBlock>) {
    let id = must(rt, id(alloc, ("builtin", "func")));
    let op = must(rt, operation(ctx, id, Few::none(), &[], &[], 1));
    must(rt, name(alloc, ctx, op, "foo"));
    give_text(rt, alloc, ctx, op, "builtin_func_type", FUNCTION_TYPE);
    must(rt, into_block(ctx, op, outer));
    let entry = must(rt, block_inside(alloc, ctx, op, "entry", Few::none()));
    let value = constant(rt, alloc, ctx, entry);
    returned(rt, alloc, ctx, entry, value);
}

/// Makes a module with a function.
fn functions(rt: &impl Abort, alloc: Global, ctx: &mut Ctx) -> Ptr<Operation> {
    register_all(rt, alloc, ctx);
    let op = must(rt, module(alloc, ctx, "bar"));
    let outer = must(rt, block_inside(alloc, ctx, op, "", Few::none()));
    function(rt, alloc, ctx, outer);
    op
}

/// Checks that a module with a function is printed as its concrete text, and with its section.
pub(crate) fn check_function(rt: &impl Abort, alloc: Global, ctx: &mut Ctx) {
    let op = functions(rt, alloc, ctx);
    let (text, section) = FUNCTION;
    same(rt, concrete(rt, alloc, ctx, op).as_str(), text);
    assert!(rt; whole(rt, alloc, ctx, op).strip_prefix(text) == Some(section));
}

/// An operation in the canonical form, whose result is the second value.
const GLOBAL: &str =
    "v1 = test.global () [] [builtin_sym_name: builtin.identifier global_0, test_global_op_const_val: builtin.integer <0: si64>]: <() -> (test.ptr )>";

/// Checks the text of this operation.
pub(crate) fn check_global(rt: &impl Abort, alloc: Global, ctx: &mut Ctx) {
    register_all(rt, alloc, ctx);
    with_result(rt, alloc, ctx, ("test", "constant"), "i");
    let op = with_result(rt, alloc, ctx, ("test", "global"), "p");
    must(rt, name(alloc, ctx, op, "global_0"));
    give_text(rt, alloc, ctx, op, "test_global_op_const_val", ZERO);
    same(rt, concrete(rt, alloc, ctx, op).as_str(), GLOBAL);
}

#[test]
fn modules_and_an_operation_without_a_format_of_its_own_are_printed(rt: HostRuntime) {
    for check in &[Check::Module, Check::Function, Check::Global] {
        in_demo(&rt, rt.alloc(), *check);
    }
}
