//! A root is printed before and after another text is parsed in its context, where the context keeps the files of its locations.
use crate::tests::checks::{Check, alone};
use crate::tests::reading::root;
use crate::tests::value::same;
use irtext_demo::DemoAttr;
use irtext_tests_common::contexts::Ctx;
use pliron_text::base::{Context, Operation, OperationAccess, Ptr};
use pliron_text::ir::is_located;
use pliron_text::laws::two_calls::printed_before_and_after;
use pliron_text::location::Location;
use pliron_text::parsable::{Parsable, parse_from_str};
use pliron_text::printable::State;
use pliron_text::result::Result as Answer;
use std::alloc::Global;
use std::process::Abort;

/// A root, and in it one that says its file.
const ROOT: &str =
    "builtin.module @m { ^a(): builtin.module @n {} !0 } outlined_attributes: !0 = @[\"f\": line: 1, column: 2], []";

/// Texts that are parsed beside it: two roots, one with a file of its own, and texts that are rejected.
const BESIDE: &[&str] = &[
    "builtin.module @x {}",
    "builtin.module @x { ^a(): } !0 outlined_attributes: !0 = @[\"g\": line: 3, column: 4], []",
    "builtin.module @x { ^a(): builtin.module @y { } ^a(): }",
    "",
];

/// The printed text of the root, each time.
const PRINTED: &str =
    "builtin.module @m \n{\n  ^a_block1v1() !0:\n    builtin.module @n \n    {\n      \n    } !1\n} !2\n\noutlined_attributes:\n!0 = @[<in-memory>: line: 1, column: 21], [builtin_block_label = builtin.identifier a]\n!1 = @[\"f\": line: 1, column: 2], []\n!2 = @[<in-memory>: line: 1, column: 1], []\n";

/// Checks the text of a root before and after another text is parsed.
fn check_text(rt: &impl Abort, alloc: Global, ctx: &mut Ctx, op: Ptr<Operation>, text: &str) {
    assert!(rt; is_located(ctx, op));
    let layout = State::new(alloc, ());
    let (before, after) = printed_before_and_after(ctx, op, &layout, text);
    drop(layout);
    same(rt, before.ok().expect(rt, "not printed"), PRINTED);
    same(rt, after.ok().expect(rt, "not printed"), PRINTED);
}

/// A location of three files.
const FILES: &str =
    "fused[\"a\": line: 1, column: 1, \"b\": line: 1, column: 1, \"c\": line: 1, column: 1]";

/// The location of three files in another context. The context of the root keeps two files.
fn elsewhere(rt: &impl Abort, alloc: Global) -> Location<DemoAttr> {
    let mut other: Ctx = Context::new(alloc);
    let answer: Answer<Location<DemoAttr>, DemoAttr> = parse_from_str(
        |s| Location::parse(s, ()),
        &mut other,
        FILES,
    );
    drop(other);
    answer.ok().expect(rt, "no location")
}

/// Checks that a root is printed as before beside each text, and that it is tested whether its files are kept.
pub(crate) fn check(rt: &impl Abort, alloc: Global, ctx: &mut Ctx) {
    let op = root(ctx, ROOT).expect(rt, "not parsed");
    for text in BESIDE {
        check_text(rt, alloc, ctx, op, *text);
    }
    assert!(rt; ctx.contains_operation(op));
    op.set_loc(ctx, elsewhere(rt, alloc));
    assert!(rt; !is_located(ctx, op));
}

#[test]
fn a_root_is_printed_as_before_beside_other_texts(rt: HostRuntime) {
    alone(&rt, rt.alloc(), Check::Beside);
}
