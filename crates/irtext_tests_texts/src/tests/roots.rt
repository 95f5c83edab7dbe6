//! Roots that are printed by the call that returns why it fails.
use crate::tests::checks::{Check, in_demo};
use crate::tests::must::must;
use crate::tests::nested::nested::{ALL, NONE};
use irtext_context::base::context::making::Making;
use irtext_context::base::{Item, Operation, Ptr};
use irtext_few::Few;
use irtext_print_ir::ir::print::print_root;
use irtext_print_ir::printable::{RegionPrintDepthLimit, State};
use irtext_tests_common::building::{id, name, operation, place};
use irtext_tests_common::contexts::Ctx;
use std::alloc::Global;
use std::process::Abort;

/// The widths of an indentation and of the first one, and the limit on levels of regions.
type Layout = (u16, u16, RegionPrintDepthLimit);

/// For `builtin.module @m`: a text to which it is appended, the layout, or none for that of a new state, how many times it is printed
/// with one state, and the text then, or the error.
type Row = (&'static str, Option<Layout>, usize, &'static str);

/// The module has a region.
const ROWS: &[Row] = &[
    (
        "text: ",
        None,
        1,
        "text: builtin.module @m \n{\n  \n} !0\n\noutlined_attributes:\n!0 = @[<in-memory>: line: 1, column: 2], []\n",
    ),
    (
        "",
        None,
        2,
        "builtin.module @m \n{\n  \n} !0\n\noutlined_attributes:\n!0 = @[<in-memory>: line: 1, column: 2], []\nbuiltin.module @m \n{\n  \n} !0\n\noutlined_attributes:\n!0 = @[<in-memory>: line: 1, column: 2], []\n",
    ),
    (
        "",
        Some((4, 1, ALL)),
        1,
        "builtin.module @m \n {\n     \n } !0\n\noutlined_attributes:\n!0 = @[<in-memory>: line: 1, column: 2], []\n",
    ),
    (
        "",
        Some((4, 1, NONE)),
        1,
        "builtin.module @m {..} !0\n\noutlined_attributes:\n!0 = @[<in-memory>: line: 1, column: 2], []\n",
    ),
    ("", Some((2, 65534, ALL)), 1, "Depth"),
];

/// Makes `builtin.module @m` at a place in memory, without regions.
fn make(rt: &impl Abort, alloc: Global, ctx: &mut Ctx) -> Ptr<Operation> {
    let id = must(rt, id(alloc, ("builtin", "module")));
    let op = must(rt, operation(ctx, id, Few::none(), &[], &[], 0));
    must(rt, name(alloc, ctx, op, "m"));
    must(rt, place(ctx, Item::Operation(op), 2));
    op
}

/// Appends the text of a root so many times, with one state: the text, or the error.
fn appended(
    rt: &impl Abort,
    alloc: Global,
    ctx: &Ctx,
    op: Ptr<Operation>,
    state: &mut State<()>,
    mut text: String,
    times: usize,
) -> String {
    for _time in 0..times {
        assert!(rt; ctx.contains_operation(op));
        match print_root(ctx, op, state, &mut text) {
            Ok(()) => {}
            Err(refusal) => return format!(in alloc; "{refusal:?}").expect(rt, "out of memory"),
        }
    }
    text
}

/// The state with a layout, or a new one.
fn state_of(alloc: Global, layout: Option<Layout>) -> State<()> {
    match layout {
        Some((width, indent, limit)) => State::with_layout(alloc, width, indent, limit, ()),
        None => State::new(alloc, ()),
    }
}

/// Whether a root is printed as in a row.
fn is_printed(rt: &impl Abort, alloc: Global, ctx: &Ctx, op: Ptr<Operation>, row: &Row) -> bool {
    let text = String::from_str(alloc, row.0).expect(rt, "out of memory");
    let mut state = state_of(alloc, row.1);
    appended(rt, alloc, ctx, op, &mut state, text, row.2).as_str() == row.3
}

/// Checks that a module without regions is a misfit, and then each row.
pub(crate) fn check(rt: &impl Abort, alloc: Global, ctx: &mut Ctx) {
    let op = make(rt, alloc, ctx);
    assert!(rt; is_printed(rt, alloc, ctx, op, &("", None, 1, "Misfit")));
    assert!(rt; ctx.contains_operation(op));
    ctx.add_region(op).expect(rt, "out of memory");
    for row in ROWS {
        assert!(rt; is_printed(rt, alloc, ctx, op, row));
    }
}

#[test]
fn roots_are_printed_or_refused(rt: HostRuntime) {
    in_demo(&rt, rt.alloc(), Check::Roots);
}
