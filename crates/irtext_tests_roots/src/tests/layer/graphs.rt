//! Graphs with blocks and values that a caller makes, and their printed texts.
use crate::tests::checks::{Check, alone};
use crate::tests::reading::{concrete, whole};
use crate::tests::value::{id_of, same, value_of};
use irtext_context::base::Item;
use irtext_tests_common::building::{
    block_inside, give, into_block, module, note, one_name, operation, place, register, types,
};
use irtext_tests_common::contexts::Ctx;
use pliron_text::base::{BasicBlock, Few, GIVEN_NAMES_KEY, Operation, Ptr, Value};
use pliron_text::ir::print_root;
use pliron_text::printable::State;
use std::alloc::Global;
use std::process::Abort;

/// Registers an operation of the dialect `test` with the format of these letters.
fn add(rt: &impl Abort, alloc: Global, ctx: &mut Ctx, name: &str, letters: &str) {
    let added = register(alloc, ctx, ("test", name), letters, false);
    value_of(rt, added, "refused");
}

/// Makes an operation of the dialect `test`, last in a block.
fn inner(
    rt: &impl Abort,
    alloc: Global,
    ctx: &mut Ctx,
    block: Ptr<BasicBlock>,
    name: &str,
    letters: &str,
    operands: &[Value],
) -> Ptr<Operation> {
    let id = id_of(rt, alloc, ("test", name));
    let types = value_of(rt, types(alloc, letters), "no types");
    let op = value_of(rt, operation(ctx, id, types, operands, &[], 0), "not made");
    value_of(rt, into_block(ctx, op, block), "not inserted");
    op
}

/// Makes a block with this label at a place, last in a root's region.
fn block_at(
    rt: &impl Abort,
    alloc: Global,
    ctx: &mut Ctx,
    root: Ptr<Operation>,
    label: &str,
    letters: &str,
    column: i32,
) -> Ptr<BasicBlock> {
    let types = value_of(rt, types(alloc, letters), "no types");
    let block = block_inside(alloc, ctx, root, label, types);
    let block = value_of(rt, block, "not made");
    value_of(rt, place(ctx, Item::Block(block), column), "not placed");
    block
}

/// Gives an operation the debug note `s`.
fn remark(rt: &impl Abort, alloc: Global, ctx: &mut Ctx, op: Ptr<Operation>, key: &str) {
    let note = value_of(rt, note(alloc, "s"), "out of memory");
    let given = give(alloc, ctx, Item::Operation(op), key, note);
    value_of(rt, given, "not given");
}

/// Gives a result, or an argument, the name `x`.
fn name(rt: &impl Abort, alloc: Global, ctx: &mut Ctx, item: Item) {
    let name = value_of(rt, one_name(alloc, "x"), "no identifier");
    let given = give(alloc, ctx, item, GIVEN_NAMES_KEY, name);
    value_of(rt, given, "not given");
}

/// Gives an operation a place.
fn operation_at(rt: &impl Abort, ctx: &mut Ctx, op: Ptr<Operation>, column: i32) {
    value_of(rt, place(ctx, Item::Operation(op), column), "not placed");
}

/// The root `builtin.module @m`, at a place.
fn placed(rt: &impl Abort, alloc: Global, ctx: &mut Ctx) -> Ptr<Operation> {
    let root = value_of(rt, module(alloc, ctx, "m"), "not made");
    operation_at(rt, ctx, root, 1);
    root
}

/// A root with two operations that have one note.
fn shared(rt: &impl Abort, alloc: Global, ctx: &mut Ctx) -> Ptr<Operation> {
    let root = value_of(rt, module(alloc, ctx, "m"), "not made");
    let inside = block_inside(alloc, ctx, root, "", Few::none());
    let inside = value_of(rt, inside, "not made");
    for _operation in 0..2 {
        let op = inner(rt, alloc, ctx, inside, "nop", "", &[]);
        remark(rt, alloc, ctx, op, "dbg");
    }
    root
}

/// A root with a block whose argument is used.
fn used(rt: &impl Abort, alloc: Global, ctx: &mut Ctx) -> Ptr<Operation> {
    let root = placed(rt, alloc, ctx);
    let inside = block_at(rt, alloc, ctx, root, "b", "i", 21);
    name(rt, alloc, ctx, Item::Block(inside));
    let op = inner(
        rt,
        alloc,
        ctx,
        inside,
        "use",
        "",
        &[Value::Argument(inside, 0)],
    );
    operation_at(rt, ctx, op, 50);
    root
}

/// A root with a constant that has no value, and the constant.
fn valueless(rt: &impl Abort, alloc: Global, ctx: &mut Ctx) -> (Ptr<Operation>, Ptr<Operation>) {
    let root = placed(rt, alloc, ctx);
    let inside = block_at(rt, alloc, ctx, root, "a", "", 21);
    let op = inner(rt, alloc, ctx, inside, "constant", "i", &[]);
    operation_at(rt, ctx, op, 27);
    name(rt, alloc, ctx, Item::Operation(op));
    (root, op)
}

/// A root that a caller makes.
#[derive(Clone, Copy)]
enum Root {
    /// With a note, at a place.
    Noted,
    /// With two operations that have one note.
    Shared,
    /// With a block whose argument is used.
    Used,
    /// With a constant whose value is a note, so that the section has it.
    Constant,
    /// With a constant that has no value.
    Misfit,
}

/// The roots, made one after the other in one context, and the printed text of each, or the reason why it is not printed.
const ROOTS: &[(Root, &str)] = &[
    (
        Root::Noted,
        "builtin.module @m \n{\n  \n} !0\n\noutlined_attributes:\n!0 = @[<in-memory>: line: 1, column: 1], [dbg = !1]\n!1 = test.dbg \"s\"\n",
    ),
    (
        Root::Shared,
        "builtin.module @m \n{\n  ^block1v1():\n    test.nop !0;\n    test.nop !1\n}\n\noutlined_attributes:\n!0 = [dbg = !2]\n!1 = [dbg = !2]\n!2 = test.dbg \"s\"\n",
    ),
    (
        Root::Used,
        "builtin.module @m \n{\n  ^b_block2v1(x_v0: builtin.integer si64) !0:\n    test.use x_v0 !1\n} !2\n\noutlined_attributes:\n!0 = @[<in-memory>: line: 1, column: 21], [builtin_block_label = builtin.identifier b, builtin_given_names = builtin.given_names [x]]\n!1 = @[<in-memory>: line: 1, column: 50], []\n!2 = @[<in-memory>: line: 1, column: 1], []\n",
    ),
    (
        Root::Constant,
        "builtin.module @m \n{\n  ^a_block3v1() !0:\n    x_v1 = test.constant !outlined: builtin.integer si64 !1\n} !2\n\noutlined_attributes:\n!0 = @[<in-memory>: line: 1, column: 21], [builtin_block_label = builtin.identifier a]\n!1 = @[<in-memory>: line: 1, column: 27], [builtin_given_names = builtin.given_names [x], test_value = !3]\n!2 = @[<in-memory>: line: 1, column: 1], []\n!3 = test.dbg \"s\"\n",
    ),
    (Root::Misfit, "Misfit"),
];

/// The reason why a root is not printed.
fn refusal(rt: &impl Abort, alloc: Global, ctx: &Ctx, root: Ptr<Operation>) -> String {
    assert!(rt; ctx.contains_operation(root));
    let mut state: State<()> = State::new(alloc, ());
    let mut text = String::new(alloc);
    let answer = print_root(ctx, root, &mut state, &mut text);
    drop(state);
    drop(text);
    let refusal = answer.err().expect(rt, "printed");
    format!(in alloc; "{refusal:?}").expect(rt, "out of memory")
}

/// Makes a root. If it has a constant, that is given a note as its value, unless it has to be without one.
fn made(rt: &impl Abort, alloc: Global, ctx: &mut Ctx, root: Root) -> Ptr<Operation> {
    let (op, noted, key) = match root {
        Root::Shared => return shared(rt, alloc, ctx),
        Root::Used => return used(rt, alloc, ctx),
        Root::Misfit => return valueless(rt, alloc, ctx).0,
        Root::Noted => {
            let op = placed(rt, alloc, ctx);
            (op, op, "dbg")
        }
        Root::Constant => {
            let (op, constant) = valueless(rt, alloc, ctx);
            (op, constant, "test_value")
        }
    };
    remark(rt, alloc, ctx, noted, key);
    op
}

/// The printed text of a root, or the reason why it is not printed.
fn printed(rt: &impl Abort, alloc: Global, ctx: &Ctx, op: Ptr<Operation>, root: Root) -> String {
    match root {
        Root::Misfit => refusal(rt, alloc, ctx, op),
        _ => value_of(rt, whole(alloc, ctx, op), "no text"),
    }
}

/// Checks the text of each root.
pub(crate) fn check(rt: &impl Abort, alloc: Global, ctx: &mut Ctx) {
    add(rt, alloc, ctx, "constant", "c:v");
    add(rt, alloc, ctx, "use", "0");
    for row in ROOTS {
        let op = made(rt, alloc, ctx, row.0);
        same(rt, printed(rt, alloc, ctx, op, row.0), row.1);
    }
}

#[test]
fn graphs_made_by_a_caller_are_printed(rt: HostRuntime) {
    alone(&rt, rt.alloc(), Check::Roots);
}

/// A root with two blocks, made with counters that are nearly full.
const LAST: &str =
    "test.scope \n{\n  ^a_block4294967293v1() !0:\n    \n\n  ^b_block4294967294v1() !1:\n    \n}";

/// Checks the printed text of this root.
pub(crate) fn check_last(rt: &impl Abort, alloc: Global, ctx: &mut Ctx) {
    add(rt, alloc, ctx, "scope", "a");
    let id = id_of(rt, alloc, ("test", "scope"));
    let root = operation(ctx, id, Few::none(), &[], &[], 1);
    let root = value_of(rt, root, "not made");
    block_at(rt, alloc, ctx, root, "a", "", 21);
    block_at(rt, alloc, ctx, root, "b", "", 27);
    let text = value_of(rt, concrete(alloc, ctx, root), "no text");
    same(rt, text, LAST);
}

#[test]
fn the_last_places_are_printed(rt: HostRuntime) {
    alone(&rt, rt.alloc(), Check::LastPlaces);
}
