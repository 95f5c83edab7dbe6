//! Which operations fit their formats, and the reason why the others don't.
use crate::tests::checks::{Check, in_demo};
use crate::tests::must::{must, same};
use crate::tests::nested::misfits::{ID, bare};
use crate::tests::nested::steps::give_under;
use irtext_base::base::SYM_NAME_KEY;
use irtext_checked::make::operation::add_regions;
use irtext_context::base::{Item, Operation, Ptr};
use irtext_print_ops::fits::check_fits;
use irtext_tests_common::building::register;
use irtext_tests_common::contexts::Ctx;
use std::alloc::Global;
use std::process::Abort;

/// The format of `lab.d` by its letters, how many regions and which attributes such an operation has, and the expected text.
type Row = (&'static str, usize, &'static str, &'static str);

/// Operations with their formats. If several things don't fit, the first in the order of `FitFault` is returned.
const ROWS: &[Row] = &[
    ("?", 1, "k", "The operation is not registered"),
    ("-", 0, "", "fits"),
    ("", 0, "", "fits"),
    ("x", 0, "", "fits"),
    ("v", 0, "", "The format does not write 0 result types"),
    ("0", 1, "", "The format does not write 0 operands"),
    ("kO", 0, "", "The operation has no attribute k"),
    ("s", 0, "", "The format does not write 0 successors"),
    ("S:", 0, "", "fits"),
    ("x", 2, "k", "The format does not write 2 regions"),
    ("ak", 0, "", "The format does not write 0 regions"),
    ("ab", 1, "", "The format does not write 1 regions"),
    ("aR", 0, "", "The format does not write 0 regions"),
    ("aR", 3, "", "fits"),
    ("R", 0, "", "fits"),
    ("hk", 0, "", "The operation has no attribute k"),
    ("k", 0, "s", "The operation has no attribute k"),
    ("k", 0, "k", "fits"),
    ("h", 0, "k", "The operation has no symbol"),
    ("h", 0, "t", "The operation has no symbol"),
    ("h", 0, "s", "fits"),
    ("h", 0, "sk", "The format does not write the attribute k"),
    (
        "",
        0,
        "ns",
        "The format does not write the attribute builtin_sym_name",
    ),
    ("d", 0, "ks", "fits"),
    ("d", 0, "sn", "fits"),
    ("ka", 1, "n", "fits"),
];

/// The key of the attribute for a letter.
fn key_of(letter: char) -> &'static str {
    match letter {
        's' | 't' => SYM_NAME_KEY,
        _ => "k",
    }
}

/// The text of the result for an operation, after it got so many regions.
fn said(
    rt: &impl Abort,
    alloc: Global,
    ctx: &mut Ctx,
    op: Ptr<Operation>,
    regions: usize,
) -> String {
    assert!(rt; ctx.contains_operation(op));
    add_regions(ctx, op, regions).expect(rt, "out of memory");
    assert!(rt; ctx.contains_operation(op));
    let text = match check_fits(ctx, op) {
        Ok(()) => String::from_str(alloc, "fits"),
        Err(fault) => format!(in alloc; "{fault}"),
    };
    text.expect(rt, "out of memory")
}

/// Makes the operation of a row, without regions.
fn made(rt: &impl Abort, alloc: Global, ctx: &mut Ctx, row: &Row) -> Ptr<Operation> {
    if row.0 != "?" {
        must(rt, register(alloc, ctx, ID, row.0, false));
    }
    let op = bare(rt, alloc, ctx);
    for letter in row.2.chars() {
        give_under(rt, alloc, ctx, Item::Operation(op), key_of(letter), letter);
    }
    op
}

/// The rows.
fn rows() -> &'static [Row] {
    ROWS
}

/// Checks that the operation of a row has this result.
pub(crate) fn check(rt: &impl Abort, alloc: Global, ctx: &mut Ctx, number: usize) {
    let row = rows().get(number).expect(rt, "no such row");
    let op = made(rt, alloc, ctx, row);
    same(rt, said(rt, alloc, ctx, op, row.1).as_str(), row.3);
}

#[test]
fn operations_fit_their_formats(rt: HostRuntime) {
    for row in 0..rows().len() {
        in_demo(&rt, rt.alloc(), Check::Fits(row));
    }
}
