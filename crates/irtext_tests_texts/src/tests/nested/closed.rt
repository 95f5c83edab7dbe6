//! Which roots are closed, and the first reason why the others are not.
use crate::tests::checks::{Check, in_demo};
use crate::tests::must::same;
use crate::tests::nested::steps::{Part, Step, Used, build, built, operation_of};
use irtext_closed::check::check_closed;
use irtext_closed::not_closed::NotClosed;
use irtext_tests_common::contexts::Ctx;
use std::alloc::Global;
use std::process::Abort;

/// A root with a block, in which an operation uses the block's argument, and then an isolated operation has a block of its own.
const ROOT: &[Step] = &[
    Step::Register("op", "-"),
    Step::Isolated("fn"),
    Step::Root("fn", 1),
    Step::Block(0, 0, "", "p"),
    Step::Using(0, "op", "p", &[Used::Argument(0, 0)]),
    Step::Inner(0, "fn", 1),
    Step::Block(2, 0, "", "p"),
    Step::Using(1, "op", "", &[Used::Argument(1, 0)]),
];

/// Further steps, the number of the operation that is checked, and the answer.
type Row = (&'static [Step], usize, &'static str);

/// The first operation that is made here has the number 4, and the first block the number 2.
const ROWS: &[Row] = &[
    (&[], 0, "closed"),
    (&[], 2, "The root is in a block"),
    (&[Step::Root("op", 0)], 4, "closed"),
    (
        &[Step::Root("op", 1)],
        4,
        "The root has a region and is not isolated from above",
    ),
    (&[Step::Loose("op", "p", &[])], 4, "The root has results"),
    (
        &[Step::Loose("op", "", &[Used::Argument(0, 0)])],
        4,
        "The root has operands",
    ),
    (
        &[Step::Loose("op", "", &[Used::Block(0)])],
        4,
        "The root has successors",
    ),
    (
        &[Step::Root("op", 0), Step::Erase(Part::Operation(4))],
        4,
        "There is no such operation",
    ),
    (
        &[Step::Using(1, "op", "", &[Used::Result(1, 0)])],
        0,
        "Operand 0 of an operation is not a value of its isolated scope",
    ),
    (
        &[Step::Using(1, "op", "", &[Used::Argument(1, 0), Used::Argument(0, 0)])],
        0,
        "Operand 1 of an operation is not a value of its isolated scope",
    ),
    (
        &[Step::Using(0, "op", "", &[Used::Argument(1, 0)])],
        0,
        "Operand 0 of an operation is not a value of its isolated scope",
    ),
    (
        &[
            Step::Inner(0, "op", 1),
            Step::Block(4, 0, "", "p"),
            Step::Using(2, "op", "", &[Used::Argument(0, 0)]),
            Step::Using(0, "op", "", &[Used::Argument(2, 0)]),
        ],
        0,
        "closed",
    ),
    (&[Step::Using(0, "op", "", &[Used::Block(0)])], 0, "closed"),
    (
        &[Step::Using(0, "op", "", &[Used::Block(0), Used::Block(1)])],
        0,
        "Successor 1 of an operation is not a block of its region",
    ),
    (
        &[Step::Give(Part::Block(1), 'l')],
        0,
        "The attributes of a block have a label",
    ),
    (
        &[
            Step::Using(0, "op", "", &[Used::Argument(1, 0)]),
            Step::Placeholder(1),
        ],
        0,
        "An operation is a placeholder",
    ),
];

/// The text of an answer.
fn said(rt: &impl Abort, alloc: Global, answer: Result<(), NotClosed>) -> String {
    let text = match answer {
        Ok(()) => String::from_str(alloc, "closed"),
        Err(reason) => format!(in alloc; "{reason}"),
    };
    text.expect(rt, "out of memory")
}

/// The rows.
fn rows() -> &'static [Row] {
    ROWS
}

/// Checks the answer of a row.
pub(crate) fn check(rt: &impl Abort, alloc: Global, ctx: &mut Ctx, number: usize) {
    let row = rows().get(number).expect(rt, "no such row");
    let mut made = built(rt, alloc, ctx, ROOT);
    build(rt, alloc, ctx, &mut made, row.0);
    let answer = check_closed(ctx, operation_of(rt, &made, row.1));
    drop(made);
    same(rt, said(rt, alloc, answer).as_str(), row.2);
}

#[test]
fn roots_are_closed_or_say_the_first_reason(rt: HostRuntime) {
    for row in 0..rows().len() {
        in_demo(&rt, rt.alloc(), Check::Closed(row));
    }
}
