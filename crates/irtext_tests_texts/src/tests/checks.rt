//! The checks that need a context, and the one place where it is made for them.
use crate::tests::must::must;
use crate::tests::nested::{closed, misfits, nested, pieces, printed};
use crate::tests::sections::rows;
use crate::tests::{fits, location_texts, roots, separators};
use irtext_tests_common::contexts::{Ctx, with_demo};
use std::alloc::Global;
use std::process::Abort;

/// What is checked with a context that has the demo dialects and no objects; of a table with a context for each row, a row by its number.
#[derive(Clone, Copy)]
pub(crate) enum Check {
    Closed(usize),
    Misfit(usize),
    Nested(usize),
    Pieces,
    Module,
    Function,
    Global,
    Section(usize),
    Fits(usize),
    Locations,
    DeepLocation(usize),
    Roots,
    Values,
}

/// Makes a check with a context of its own.
pub(crate) fn in_demo(rt: &impl Abort, alloc: Global, check: Check) {
    let done = with_demo(alloc, |alloc, ctx| Ok(make(rt, alloc, ctx, check)));
    must(rt, done);
}

/// Makes a check.
fn make(rt: &impl Abort, alloc: Global, ctx: &mut Ctx, check: Check) {
    match check {
        Check::Closed(row) => closed::check(rt, alloc, ctx, row),
        Check::Misfit(row) => misfits::check(rt, alloc, ctx, row),
        Check::Nested(row) => nested::check(rt, alloc, ctx, row),
        Check::Pieces => pieces::check(rt, alloc, ctx),
        Check::Module => printed::check_module(rt, alloc, ctx),
        Check::Function => printed::check_function(rt, alloc, ctx),
        Check::Global => printed::check_global(rt, alloc, ctx),
        Check::Section(row) => rows::check(rt, alloc, ctx, row),
        Check::Fits(row) => fits::check(rt, alloc, ctx, row),
        Check::Locations => location_texts::check(rt, alloc, ctx),
        Check::DeepLocation(row) => location_texts::check_deep(rt, alloc, ctx, row),
        Check::Roots => roots::check(rt, alloc, ctx),
        Check::Values => separators::check(rt, alloc, ctx),
    }
}
