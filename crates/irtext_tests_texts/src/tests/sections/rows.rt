//! The sections of items (operations and blocks), and which of these have a mark.
use crate::tests::checks::{Check, in_demo};
use crate::tests::must::same;
use crate::tests::sections::building::Step::{Block, Erase, Ident, Name, Nop, Note};
use crate::tests::sections::building::{Step, built};
use irtext_context::base::Item;
use irtext_print::given::is_marked;
use irtext_print::section::print_section;
use irtext_tests_common::contexts::Ctx;
use std::alloc::Global;
use std::process::Abort;

/// The steps that make the items, the section of all of them, and which have a mark: `!` for each that has one, else `.`.
type Row = (&'static [Step], &'static str, &'static str);

const ROWS: &[Row] = &[
    // nothing was marked
    (&[], "", ""),
    // two operations with one note, which is printed once
    (
        &[Nop(0), Note(0, "dbg", "s"), Nop(0), Note(1, "dbg", "s")],
        "\n\noutlined_attributes:\n!0 = [dbg = !2]\n!1 = [dbg = !2]\n!2 = test.dbg \"s\"\n",
        "!!",
    ),
    // a label first, then positions
    (
        &[Block("a", 21), Nop(27), Block("b", 38), Nop(44), Nop(1)],
        "\n\noutlined_attributes:\n!0 = @[<in-memory>: line: 1, column: 21], [builtin_block_label = builtin.identifier a]\n!1 = @[<in-memory>: line: 1, column: 27], []\n!2 = @[<in-memory>: line: 1, column: 38], [builtin_block_label = builtin.identifier b]\n!3 = @[<in-memory>: line: 1, column: 44], []\n!4 = @[<in-memory>: line: 1, column: 1], []\n",
        "!!!!!",
    ),
    // a label before given names
    (
        &[Block("b", 21), Name(0, "x"), Nop(50), Nop(1)],
        "\n\noutlined_attributes:\n!0 = @[<in-memory>: line: 1, column: 21], [builtin_block_label = builtin.identifier b, builtin_given_names = builtin.given_names [x]]\n!1 = @[<in-memory>: line: 1, column: 50], []\n!2 = @[<in-memory>: line: 1, column: 1], []\n",
        "!!!",
    ),
    // a label alone, and names without a location
    (
        &[Block("entry", 0), Nop(0), Name(1, "c0")],
        "\n\noutlined_attributes:\n!0 = [builtin_block_label = builtin.identifier entry]\n!1 = [builtin_given_names = builtin.given_names [c0]]\n",
        "!!",
    ),
    // one note of a root
    (
        &[Nop(1), Note(0, "dbg", "s")],
        "\n\noutlined_attributes:\n!0 = @[<in-memory>: line: 1, column: 1], [dbg = !1]\n!1 = test.dbg \"s\"\n",
        "!",
    ),
    // names and an outlined attribute, in the dictionary's order
    (
        &[
            Block("a", 21),
            Nop(27),
            Name(1, "x"),
            Note(1, "test_value", "s"),
            Nop(1),
        ],
        "\n\noutlined_attributes:\n!0 = @[<in-memory>: line: 1, column: 21], [builtin_block_label = builtin.identifier a]\n!1 = @[<in-memory>: line: 1, column: 27], [builtin_given_names = builtin.given_names [x], test_value = !3]\n!2 = @[<in-memory>: line: 1, column: 1], []\n!3 = test.dbg \"s\"\n",
        "!!!",
    ),
    // an item that was erased keeps its index
    (
        &[
            Nop(27),
            Note(0, "dbg", "gone"),
            Block("a", 21),
            Nop(44),
            Note(2, "dbg", "s"),
            Erase(0),
        ],
        "\n\noutlined_attributes:\n!1 = @[<in-memory>: line: 1, column: 21], [builtin_block_label = builtin.identifier a]\n!2 = @[<in-memory>: line: 1, column: 44], [dbg = !3]\n!3 = test.dbg \"s\"\n",
        ".!!",
    ),
    // all were erased
    (
        &[Nop(27), Block("a", 0), Erase(0), Erase(1)],
        "\n\noutlined_attributes:\n",
        "..",
    ),
    // what is not outlined is not printed, and an item for which the section has nothing is not marked
    (
        &[
            Nop(0),
            Ident(0, "k"),
            Block("", 0),
            Note(1, "b", "t"),
            Note(1, "a", "s"),
            Note(1, "c", "t"),
            Nop(0),
            Note(2, "k", "s"),
        ],
        "\n\noutlined_attributes:\n!0 = []\n!1 = [b = !3, a = !4, c = !3]\n!2 = [k = !4]\n!3 = test.dbg \"t\"\n!4 = test.dbg \"s\"\n",
        ".!!",
    ),
];

/// The section of all items.
fn section(rt: &impl Abort, alloc: Global, ctx: &Ctx, items: &[Item]) -> String {
    let mut text = String::new(alloc);
    print_section(ctx, items, &mut text)
        .ok()
        .expect(rt, "refused");
    text
}

/// For each item whether it has a mark.
fn marks(rt: &impl Abort, alloc: Global, ctx: &Ctx, items: &[Item]) -> String {
    let mut text = String::new(alloc);
    for item in items {
        let mark = if is_marked(ctx, *item) { "!" } else { "." };
        text.push_str(mark).expect(rt, "out of memory");
    }
    text
}

/// The rows.
fn rows() -> &'static [Row] {
    ROWS
}

/// Checks that the items of a row have its section, and its marks.
pub(crate) fn check(rt: &impl Abort, alloc: Global, ctx: &mut Ctx, number: usize) {
    let row = rows().get(number).expect(rt, "no such row");
    let items = built(rt, alloc, ctx, row.0);
    same(rt, section(rt, alloc, ctx, &items).as_str(), row.1);
    same(rt, marks(rt, alloc, ctx, &items).as_str(), row.2);
}

#[test]
fn sections_give_each_marked_item_an_entry(rt: HostRuntime) {
    for row in 0..rows().len() {
        in_demo(&rt, rt.alloc(), Check::Section(row));
    }
}
