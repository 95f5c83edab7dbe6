//! Operations that are printed with everything nested in them, with the items (operations and blocks with a mark); or why they are not.
use crate::tests::checks::{Check, in_demo};
use crate::tests::must::same;
use crate::tests::nested::steps::{FUNCTION, Made, Part, Step, Used, built, operation_of};
use irtext_context::base::Item;
use irtext_print::printable::{RegionPrintDepthLimit, State};
use irtext_print_ops::nested::print_nested;
use irtext_tests_common::contexts::Ctx;
use std::alloc::Global;
use std::process::Abort;

/// The layout: the width of an indentation, the indentation, the limit on levels of regions, and whether with its own mark.
type Layout = (u16, u16, RegionPrintDepthLimit, bool);

/// The steps that build the context, and for each layout in which its first operation is printed the printed text, with the items after it.
type Row = (&'static [Step], &'static [(Layout, &'static str)]);

/// No limit.
pub(crate) const ALL: RegionPrintDepthLimit = RegionPrintDepthLimit::Unlimited;

/// At most one level.
const ONE: RegionPrintDepthLimit = RegionPrintDepthLimit::Max(1);

/// No level.
pub(crate) const NONE: RegionPrintDepthLimit = RegionPrintDepthLimit::Max(0);

/// The layout of a new state.
const PLAIN: Layout = (2, 0, ALL, true);

/// Operations in the canonical form, with operands, results, a successor and a block.
const ANY: &[Step] = &[
    Step::Register("any", "-"),
    Step::Root("any", 1),
    Step::Block(0, 0, "entry", "pb"),
    Step::Using(0, "any", "p", &[Used::Argument(0, 0)]),
    Step::Using(
        0,
        "any",
        "",
        &[Used::Result(1, 0), Used::Argument(0, 1), Used::Block(0)],
    ),
];

/// An operation with three regions, of which the second holds one with two.
const PAIRS: &[Step] = &[
    Step::Register("pair", "aR"),
    Step::Root("pair", 3),
    Step::Block(0, 1, "", ""),
    Step::Inner(0, "pair", 2),
];

/// An operation with a region that holds one which does not fit its format.
const MISFIT: &[Step] = &[
    Step::Register("one", "a"),
    Step::Root("one", 1),
    Step::Block(0, 0, "", ""),
    Step::Inner(0, "one", 0),
];

/// Blocks with attributes and a location, and operations between placeholders.
const BLOCKS: &[Step] = &[
    Step::Register("one", "a"),
    Step::Register("nop", ""),
    Step::Root("one", 1),
    Step::Block(0, 0, "", "p"),
    Step::Give(Part::Block(0), 'k'),
    Step::Give(Part::Block(0), 'n'),
    Step::Give(Part::Block(0), 'g'),
    Step::Block(0, 0, "", ""),
    Step::Place(Part::Block(1)),
    Step::Placeholder(1),
    Step::Inner(1, "nop", 0),
    Step::Placeholder(1),
    Step::Inner(1, "nop", 0),
];

const ROWS: &[Row] = &[
    (
        ANY,
        &[(
            PLAIN,
            "lab.any () [] []: <() -> ()>\n{\n  ^entry_block1v1(v0: test.ptr , v1: builtin.integer si8) !0:\n    v2 = lab.any (v0) [] []: <(test.ptr ) -> (test.ptr )>;\n    lab.any (v2, v1) [^entry_block1v1] []: <(test.ptr , builtin.integer si8) -> ()>\n}| b0",
        )],
    ),
    (
        FUNCTION,
        &[
            (
                PLAIN,
                "lab.fn @x [k: builtin.identifier x] \n{\n  ^block1v1():\n    x_v1 = lab.const builtin.identifier x: test.ptr  !0;\n    v2 = lab.add x_v1, x_v1: test.ptr ;\n    lab.br ^exit_block2v1 !1\n\n  ^exit_block2v1(v0: test.ptr ) !2:\n    \n} !3| o1 o3 b1 o0",
            ),
            (
                (1, 3, ALL, false),
                "lab.fn @x [k: builtin.identifier x] \n   {\n    ^block1v1():\n     x_v1 = lab.const builtin.identifier x: test.ptr  !0;\n     v2 = lab.add x_v1, x_v1: test.ptr ;\n     lab.br ^exit_block2v1 !1\n\n    ^exit_block2v1(v0: test.ptr ) !2:\n     \n   }| o1 o3 b1",
            ),
            (
                (2, 65535, NONE, true),
                "lab.fn @x [k: builtin.identifier x] {..} !0| o0",
            ),
        ],
    ),
    (
        PAIRS,
        &[
            (
                PLAIN,
                "lab.pair \n{\n  \n} \n{\n  ^block1v1():\n    lab.pair \n    {\n      \n    } \n    {\n      \n    }\n}\n{\n  \n}|",
            ),
            (
                (2, 0, ONE, false),
                "lab.pair \n{\n  \n} \n{\n  ^block1v1():\n    lab.pair {..} {..}\n}\n{\n  \n}|",
            ),
            ((2, 0, NONE, true), "lab.pair {..} {..}{..}|"),
            (
                (4, 1, ONE, true),
                "lab.pair \n {\n     \n } \n {\n     ^block1v1():\n         lab.pair {..} {..}\n }\n {\n     \n }|",
            ),
            ((2, 65532, ALL, true), "Depth"),
            ((2, 65534, ALL, true), "Depth"),
            ((2, 65534, ONE, true), "Depth"),
        ],
    ),
    (
        MISFIT,
        &[(PLAIN, "Misfit"), ((2, 0, NONE, true), "lab.one {..}|")],
    ),
    (
        BLOCKS,
        &[(
            PLAIN,
            "lab.one \n{\n  ^block1v1(x_v0: test.ptr ) [k: builtin.identifier x] !0:\n    \n\n  ^block2v1() !1:\n    lab.nop;\n    lab.nop\n}| b0 b1",
        )],
    ),
];

/// Appends the letter and the number of an item.
fn fmt_item(rt: &impl Abort, made: &Made, item: Item, text: &mut String) {
    let (letter, number) = match item {
        Item::Operation(op) => ('o', made.operations.iter().position(|p| *p == op)),
        Item::Block(block) => ('b', made.blocks.iter().position(|p| *p == block)),
    };
    let number = number.expect(rt, "not made");
    write!(text, " {letter}{number}").expect(rt, "out of memory");
}

/// The text with the letters and numbers of the items after it.
fn with_items(rt: &impl Abort, made: &Made, items: &[Item], mut text: String) -> String {
    text.push_str("|").expect(rt, "out of memory");
    for item in items {
        fmt_item(rt, made, *item, &mut text);
    }
    text
}

/// The printed text of the first operation, or the error.
fn printed(rt: &impl Abort, alloc: Global, ctx: &Ctx, made: &Made, layout: Layout) -> String {
    let op = operation_of(rt, made, 0);
    assert!(rt; ctx.contains_operation(op));
    let state = State::with_layout(alloc, layout.0, layout.1, layout.2, ());
    let mut items = Vec::new(alloc);
    let mut text = String::new(alloc);
    match print_nested(ctx, op, layout.3, &state, &mut items, &mut text) {
        Ok(()) => with_items(rt, made, &items, text),
        Err(refusal) => format!(in alloc; "{refusal:?}").expect(rt, "out of memory"),
    }
}

/// The rows.
fn rows() -> &'static [Row] {
    ROWS
}

/// Checks that the first operation of a row is printed so in each layout.
pub(crate) fn check(rt: &impl Abort, alloc: Global, ctx: &mut Ctx, number: usize) {
    let row = rows().get(number).expect(rt, "no such row");
    let made = built(rt, alloc, ctx, row.0);
    for (layout, text) in row.1 {
        same(rt, printed(rt, alloc, ctx, &made, *layout).as_str(), *text);
    }
}

#[test]
fn operations_are_printed_with_all_that_nests_in_them(rt: HostRuntime) {
    for row in 0..rows().len() {
        in_demo(&rt, rt.alloc(), Check::Nested(row));
    }
}
