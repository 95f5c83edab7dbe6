//! Whether another context knows the operations of a root alike, and the first one that it knows otherwise.
use crate::tests::must::same;
use crate::tests::nested::steps::{Step, build, built, operation_of};
use irtext_alike::dialects::same_dialects;
use irtext_alike::root::knows_root;
use irtext_alike::unlike::UnlikeOperation;
use irtext_tests_common::contexts::{Ctx, with_contexts};
use std::alloc::Global;
use std::process::Abort;

/// A root with a block, in which an operation is followed by another one with a block.
const ROOT: &[Step] = &[
    Step::Register("op", "0>k"),
    Step::Register("use", "-"),
    Step::Isolated("fn"),
    Step::Root("fn", 1),
    Step::Block(0, 0, "", ""),
    Step::Inner(0, "fn", 1),
    Step::Block(1, 0, "", ""),
    Step::Inner(1, "use", 0),
];

/// Further steps in the first context, the steps in the second, the number of the operation that is compared, the answer, and whether the
/// contexts know all operations alike.
type Row = (&'static [Step], &'static [Step], usize, &'static str, bool);

/// The first operation that is made in a row has the number 3.
const ROWS: &[Row] = &[
    (
        &[],
        &[
            Step::Isolated("fn"),
            Step::Register("use", "-"),
            Step::Register("op", "0>k"),
        ],
        0,
        "known",
        true,
    ),
    (
        &[],
        &[Step::Isolated("fn"), Step::Register("use", "-")],
        0,
        "known",
        false,
    ),
    (
        &[],
        &[
            Step::Isolated("fn"),
            Step::Register("use", "-"),
            Step::Register("op", "0>c"),
        ],
        0,
        "known",
        false,
    ),
    (
        &[],
        &[
            Step::Isolated("fn"),
            Step::Register("use", "-"),
            Step::Register("op", "0>k"),
            Step::Register("more", "-"),
        ],
        0,
        "known",
        false,
    ),
    (
        &[],
        &[Step::Register("use", "-")],
        0,
        "An operation is not registered in the other context",
        false,
    ),
    (
        &[],
        &[Step::Register("fn", "-")],
        0,
        "An operation is isolated from above in one context alone",
        false,
    ),
    (
        &[],
        &[Step::Isolated("fn"), Step::Register("use", "")],
        0,
        "An operation is registered with another format",
        false,
    ),
    (&[], &[Step::Register("use", "-")], 2, "known", false),
    (
        &[Step::Inner(1, "op", 0)],
        &[Step::Register("use", "-"), Step::Register("op", "0k>")],
        3,
        "An operation is registered with another format",
        false,
    ),
    (
        &[Step::Inner(1, "op", 0)],
        &[Step::Register("op", "0:k")],
        3,
        "An operation is registered with another format",
        false,
    ),
    (
        &[Step::Inner(1, "op", 0)],
        &[Step::Register("op", "0>kO")],
        3,
        "An operation is registered with another format",
        false,
    ),
];

/// The text of an answer.
fn said(rt: &impl Abort, alloc: Global, answer: Result<(), UnlikeOperation>) -> String {
    let text = match answer {
        Ok(()) => String::from_str(alloc, "known"),
        Err(unlike) => format!(in alloc; "{unlike}"),
    };
    text.expect(rt, "out of memory")
}

/// The rows.
fn rows() -> &'static [Row] {
    ROWS
}

/// Checks the answers of a row.
fn check(rt: &impl Abort, alloc: Global, ctx: &mut Ctx, other: &mut Ctx, number: usize) {
    let row = rows().get(number).expect(rt, "no such row");
    let mut made = built(rt, alloc, ctx, ROOT);
    build(rt, alloc, ctx, &mut made, row.0);
    let op = operation_of(rt, &made, row.2);
    drop(made);
    drop(built(rt, alloc, other, row.1));
    same(
        rt,
        said(rt, alloc, knows_root(ctx, op, other)).as_str(),
        row.3,
    );
    assert_eq!(rt; same_dialects(ctx, other), row.4);
    assert_eq!(rt; same_dialects(other, ctx), row.4);
}

#[test]
fn contexts_know_a_root_alike_or_say_the_first_operation(rt: HostRuntime) {
    for row in 0..rows().len() {
        with_contexts(
            rt.alloc(),
            |alloc, ctx, other| check(&rt, alloc, ctx, other, row),
        );
    }
}
