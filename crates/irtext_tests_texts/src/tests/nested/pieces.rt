//! The pieces of the texts of operations and blocks, each by its own call; and which of these are marked, and fit their formats.
use crate::tests::checks::{Check, in_demo};
use crate::tests::must::same;
use crate::tests::nested::steps::{FUNCTION, Made, block_of, built, operation_of};
use irtext_context::base::{BasicBlock, Operation, OperationAccess, Ptr, Value};
use irtext_graph::held::HasGraph;
use irtext_print_ops::block_heads::fmt_block_head;
use irtext_print_ops::fits::check_fits;
use irtext_print_ops::formats::{directives_in, is_canonical};
use irtext_print_ops::front::begin_front;
use irtext_print_ops::marks::{is_block_marked, is_operation_marked};
use irtext_print_ops::names::{fmt_block_label, fmt_value_name};
use irtext_print_ops::pieces::fmt_piece;
use irtext_print_ops::printer::Printer;
use irtext_tests_common::contexts::Ctx;
use std::alloc::Global;
use std::process::Abort;

/// A call that prints a piece of an operation or a block, given by its number.
#[derive(Clone, Copy)]
enum Call {
    /// The name of a result.
    Result(usize),
    /// The name of an argument.
    Argument(usize),
    /// The label of a block.
    Label(usize),
    /// The text before a block's operations.
    Head(usize),
    /// Whether a block is marked.
    Marked(usize),
    /// Whether an operation is marked, fits its format, and has the canonical form.
    Known(usize),
    /// The names of an operation's results.
    Results(usize),
    /// Results and id.
    Front(usize),
    /// The canonical form.
    Canonical(usize),
    /// The text of the directive of an index.
    Piece(usize, usize),
}

/// The texts that the calls print in the function.
const CALLS: &[(Call, &str)] = &[
    (Call::Result(1), "x_v1"),
    (Call::Result(2), "v2"),
    (Call::Argument(1), "v0"),
    (Call::Label(0), "^block1v1"),
    (Call::Label(1), "^exit_block2v1"),
    (Call::Head(0), "^block1v1()"),
    (Call::Head(1), "^exit_block2v1(v0: test.ptr )"),
    (Call::Marked(0), "false"),
    (Call::Marked(1), "true"),
    (Call::Known(0), "true true false"),
    (Call::Known(1), "true true false"),
    (Call::Known(2), "false true false"),
    (Call::Known(3), "true true false"),
    (Call::Results(1), "x_v1 = "),
    (Call::Results(3), ""),
    (Call::Front(0), "lab.fn"),
    (Call::Front(1), "x_v1 = lab.const"),
    (
        Call::Canonical(2),
        " (x_v1, x_v1) [] []: <(test.ptr , test.ptr ) -> (test.ptr )>",
    ),
    (Call::Canonical(3), " () [^exit_block2v1] []: <() -> ()>"),
    (Call::Piece(0, 0), " @x"),
    (Call::Piece(1, 1), ":"),
    (Call::Piece(2, 2), " x_v1"),
    (Call::Piece(2, 4), " test.ptr "),
    (Call::Piece(3, 0), " ^exit_block2v1"),
    (Call::Piece(0, 1), " [k: builtin.identifier x]"),
    (Call::Piece(1, 0), " builtin.identifier x"),
];

/// Appends the name of a value.
fn value_name(rt: &impl Abort, ctx: &Ctx, value: Value, text: &mut String) {
    assert!(rt; ctx.graph().contains_value(value));
    fmt_value_name(ctx, value, text).ok().expect(rt, "refused");
}

/// Appends the text of a call on a block: everything before its operations, whether it is marked, or its label.
fn of_block(rt: &impl Abort, ctx: &Ctx, block: Ptr<BasicBlock>, call: Call, text: &mut String) {
    assert!(rt; ctx.contains_block(block));
    match call {
        Call::Head(_) => fmt_block_head(ctx, block, text).ok().expect(rt, "refused"),
        Call::Marked(_) => {
            let marked = is_block_marked(ctx, block);
            write!(text, "{marked}").expect(rt, "out of memory");
        }
        _ => fmt_block_label(ctx, block, text).ok().expect(rt, "refused"),
    }
}

/// Appends the text of the directive of an index.
fn piece(rt: &impl Abort, ctx: &Ctx, op: Ptr<Operation>, index: usize, text: &mut String) {
    assert!(rt; ctx.contains_operation(op));
    let directives = directives_in(ctx, op.get_opid(ctx)).expect(rt, "no directives");
    let directive = directives.get(index).expect(rt, "no such directive");
    let answer = fmt_piece(ctx, op, directives, directive, text);
    answer.ok().expect(rt, "refused");
}

/// Appends the text of a call on an operation.
fn of_operation(rt: &impl Abort, ctx: &Ctx, op: Ptr<Operation>, call: Call, text: &mut String) {
    assert!(rt; ctx.contains_operation(op));
    let answer = match call {
        Call::Results(_) => Printer { ctx }.fmt_results(op, text),
        Call::Front(_) => begin_front(ctx, op, text).map(|_| ()),
        _ => Printer { ctx }.fmt_canonical_front(op, text),
    };
    answer.ok().expect(rt, "refused");
}

/// Appends whether an operation is marked, fits its format, and has the canonical form.
fn known(rt: &impl Abort, ctx: &Ctx, op: Ptr<Operation>, text: &mut String) {
    assert!(rt; ctx.contains_operation(op));
    let marked = is_operation_marked(ctx, op);
    let fits = check_fits(ctx, op).is_ok();
    let canonical = is_canonical(ctx, op);
    write!(text, "{marked} {fits} {canonical}").expect(rt, "out of memory");
}

/// Appends the text of a call.
fn write(rt: &impl Abort, ctx: &Ctx, made: &Made, call: Call, text: &mut String) {
    match call {
        Call::Result(op) => {
            value_name(rt, ctx, Value::Result(operation_of(rt, made, op), 0), text)
        }
        Call::Argument(block) => {
            value_name(rt, ctx, Value::Argument(block_of(rt, made, block), 0), text)
        }
        Call::Label(block) | Call::Head(block) | Call::Marked(block) => {
            of_block(rt, ctx, block_of(rt, made, block), call, text)
        }
        Call::Known(op) => known(rt, ctx, operation_of(rt, made, op), text),
        Call::Piece(op, index) => piece(rt, ctx, operation_of(rt, made, op), index, text),
        Call::Results(op) | Call::Front(op) | Call::Canonical(op) => {
            of_operation(rt, ctx, operation_of(rt, made, op), call, text)
        }
    }
}

/// The text of a call.
fn written(rt: &impl Abort, alloc: Global, ctx: &Ctx, made: &Made, call: Call) -> String {
    let mut text = String::new(alloc);
    write(rt, ctx, made, call, &mut text);
    text
}

/// Checks that each call prints its text, in a context in which the function is made.
pub(crate) fn check(rt: &impl Abort, alloc: Global, ctx: &mut Ctx) {
    let made = built(rt, alloc, ctx, FUNCTION);
    for row in CALLS {
        same(rt, written(rt, alloc, ctx, &made, row.0).as_str(), row.1);
    }
}

#[test]
fn pieces_and_marks_are_written_by_their_calls(rt: HostRuntime) {
    in_demo(&rt, rt.alloc(), Check::Pieces);
}
