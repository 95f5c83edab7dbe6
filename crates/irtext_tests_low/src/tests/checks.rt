//! The checks that need a context, and the one place where it is made for them.
use crate::tests::must::must;
use crate::tests::{blocks, contexts, edges, lent, locations, made, unique};
use irtext_tests_common::contexts::{Ctx, with_counters};
use std::alloc::Global;
use std::process::Abort;

/// What is checked with an empty context; of a table with a context for each row, a row by its number.
#[derive(Clone, Copy)]
pub(crate) enum Check {
    Blocks,
    LastArguments,
    InnerLocations,
    Objects,
    LastPlaces,
    Keys,
    Named,
    Contained,
    Locations,
    Made,
    Unregistered(usize),
    FullCounter,
    Names(usize),
}

/// Makes a check with a context of its own.
pub(crate) fn alone(rt: &impl Abort, alloc: Global, check: Check) {
    counting(rt, alloc, 0, 1, check);
}

/// Makes a check with a context of its own, in which values and places count from these numbers.
pub(crate) fn counting(rt: &impl Abort, alloc: Global, values: u64, places: u32, check: Check) {
    let done = with_counters(
        alloc,
        values,
        places,
        |alloc, ctx| Ok(make(rt, alloc, ctx, check)),
    );
    must(rt, done);
}

/// Makes a check.
fn make(rt: &impl Abort, alloc: Global, ctx: &mut Ctx, check: Check) {
    match check {
        Check::Blocks => blocks::check_steps(rt, alloc, ctx),
        Check::LastArguments => blocks::fill(rt, alloc, ctx),
        Check::InnerLocations => blocks::erase_inside(rt, alloc, ctx),
        Check::Objects => contexts::rolls_back(rt, alloc, ctx),
        Check::LastPlaces => contexts::fill(rt, alloc, ctx),
        Check::Keys => edges::check_keys(rt, alloc, ctx),
        Check::Named => lent::name_each(rt, alloc, ctx),
        Check::Contained => lent::contains_what_is_left(rt, alloc, ctx),
        Check::Locations => locations::keep(rt, alloc, ctx),
        Check::Made => made::link(rt, alloc, ctx),
        Check::Unregistered(row) => made::refuse(rt, alloc, ctx, row),
        Check::FullCounter => made::fill(rt, alloc, ctx),
        Check::Names(row) => unique::check(rt, alloc, ctx, row),
    }
}
