//! Which operations fit their formats, and the first reason why the others do not.
use crate::tests::checks::{Check, in_demo};
use crate::tests::must::must;
use crate::tests::nested::steps::give_letter;
use irtext_base::location::Location;
use irtext_context::base::context::making::Making;
use irtext_context::base::{AttributeDict, BasicBlock, Item, Operation, Ptr, Value};
use irtext_few::Few;
use irtext_print_ops::fits::{FitFault, check_fits};
use irtext_tests_common::building::{block, id, operation, register, types};
use irtext_tests_common::contexts::Ctx;
use std::alloc::Global;
use std::process::Abort;

/// The id of the operations.
pub(crate) const ID: (&str, &str) = ("lab", "d");

/// The number of operands, successors and regions.
type Counts = (usize, usize, usize);

/// What the check of an operation says: a word, and a number or a key beside it.
type Said<'c> = (&'static str, usize, &'c str);

/// The format of `lab.d` by its letters, the types of the results of such an operation, the numbers of its parts, its attributes,
/// and what the check says.
type Row = (
    &'static str,
    &'static str,
    Counts,
    &'static str,
    Said<'static>,
);

/// Operations with their formats. If several things don't fit, the first in the order of `FitFault` is returned.
const ROWS: &[Row] = &[
    ("?", "", (0, 0, 0), "", ("not registered", 0, "")),
    ("-", "pb", (2, 1, 2), "kng", ("fits", 0, "")),
    ("0,1:v", "p", (2, 0, 0), "", ("fits", 0, "")),
    ("0,1:v", "p", (1, 0, 0), "", ("operands", 1, "")),
    ("0,O:", "", (2, 0, 0), "", ("fits", 0, "")),
    ("0,O:", "", (0, 0, 0), "", ("operands", 0, "")),
    ("O", "", (0, 2, 1), "k", ("successors", 2, "")),
    ("s", "", (0, 1, 0), "", ("fits", 0, "")),
    ("s", "p", (0, 2, 0), "", ("successors", 2, "")),
    ("S:", "", (0, 2, 0), "", ("fits", 0, "")),
    ("v", "pb", (0, 0, 1), "", ("results", 2, "")),
    ("a", "", (0, 0, 2), "k", ("regions", 2, "")),
    ("aR", "", (0, 0, 2), "", ("fits", 0, "")),
    ("hk", "", (0, 0, 0), "", ("no attribute", 0, "k")),
    ("h", "", (0, 0, 0), "tk", ("no symbol", 0, "")),
    ("h", "", (0, 0, 0), "s", ("fits", 0, "")),
    ("h", "", (0, 0, 0), "sk", ("not written", 0, "k")),
    ("", "", (0, 0, 0), "n", ("fits", 0, "")),
    ("d", "", (0, 0, 0), "kn", ("fits", 0, "")),
];

/// What a result says.
fn said(answer: Result<(), FitFault<'_>>) -> Said<'_> {
    match answer {
        Ok(()) => ("fits", 0, ""),
        Err(FitFault::NotRegistered) => ("not registered", 0, ""),
        Err(FitFault::OperandCount(count)) => ("operands", count, ""),
        Err(FitFault::SuccessorCount(count)) => ("successors", count, ""),
        Err(FitFault::ResultCount(count)) => ("results", count, ""),
        Err(FitFault::RegionCount(count)) => ("regions", count, ""),
        Err(FitFault::MissingAttribute(key)) => ("no attribute", 0, key.as_str()),
        Err(FitFault::NoSymbol) => ("no symbol", 0, ""),
        Err(FitFault::UnwrittenAttribute(key)) => ("not written", 0, key.as_str()),
        Err(_) => ("another reason", 0, ""),
    }
}

/// Makes an operation without attributes, whether it is registered or not.
pub(crate) fn bare(rt: &impl Abort, alloc: Global, ctx: &mut Ctx) -> Ptr<Operation> {
    let id = must(rt, id(alloc, ID));
    let made = ctx.make_operation(id, AttributeDict::new(alloc), Location::Unknown);
    made.expect(rt, "out of memory")
}

/// Makes the operation of a row, which uses the first of the arguments of a block and the first of these blocks.
fn made(
    rt: &impl Abort,
    alloc: Global,
    ctx: &mut Ctx,
    row: &Row,
    blocks: [Ptr<BasicBlock>; 2],
) -> Ptr<Operation> {
    let (operands, successors, regions) = row.2;
    assert!(rt; operands <= 2 && successors <= 2, "too many parts");
    let values = [Value::Argument(blocks[0], 0), Value::Argument(blocks[0], 1)];
    let (id, results) = (must(rt, id(alloc, ID)), must(rt, types(alloc, row.1)));
    let made = operation(
        ctx,
        id,
        results,
        &values[..operands],
        &blocks[..successors],
        regions,
    );
    must(rt, made)
}

/// Makes the operation of a row that is registered.
fn registered(rt: &impl Abort, alloc: Global, ctx: &mut Ctx, row: &Row) -> Ptr<Operation> {
    must(rt, register(alloc, ctx, ID, row.0, false));
    let arguments = must(rt, types(alloc, "pp"));
    let first = must(rt, block(alloc, ctx, "", arguments));
    let second = must(rt, block(alloc, ctx, "", Few::none()));
    let op = made(rt, alloc, ctx, row, [first, second]);
    for letter in row.3.chars() {
        give_letter(rt, alloc, ctx, Item::Operation(op), letter);
    }
    op
}

/// The rows.
fn rows() -> &'static [Row] {
    ROWS
}

/// Checks that the check of the operation of a row says what it has to.
pub(crate) fn check(rt: &impl Abort, alloc: Global, ctx: &mut Ctx, number: usize) {
    let row = rows().get(number).expect(rt, "no such row");
    let op = if row.0 == "?" {
        bare(rt, alloc, ctx)
    } else {
        registered(rt, alloc, ctx, row)
    };
    assert!(rt; ctx.contains_operation(op));
    assert!(rt; said(check_fits(ctx, op)) == row.4);
}

#[test]
fn operations_fit_or_say_the_first_reason(rt: HostRuntime) {
    for row in 0..rows().len() {
        in_demo(&rt, rt.alloc(), Check::Misfit(row));
    }
}
