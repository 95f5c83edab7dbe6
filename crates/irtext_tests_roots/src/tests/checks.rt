//! The checks that need a context, and the one place where it is made for them.
use crate::tests::dialects_page;
use crate::tests::layer::{beside, checked, dialects, graphs, macros, reexports};
use crate::tests::parse::{errors, location_readings, outside, refused, regions};
use crate::tests::value::{is_done, value_of};
use irtext_demo::dialects::register_demo;
use irtext_tests_common::contexts::{Ctx, with_counters};
use std::alloc::Global;
use std::process::Abort;

/// What is checked with a context that has no objects.
#[derive(Clone, Copy)]
pub(crate) enum Check<'t> {
    /// The steps on dialects, none of which is registered before.
    Dialects,
    /// A root whose blocks have the last places.
    LastPlaces,
    /// The texts of errors that hold others.
    Errors,
    /// The printed text of the location that a text is parsed as, or the error.
    Location(&'t str, &'t str),
    /// Whether a text is parsed as a location.
    IsLocation(&'t str, bool),
    /// A file with quotation marks in its name.
    File,
    /// Sources and positions.
    Places,
    /// The macros of a set.
    Macros(usize),
    Calls,
    Roots,
    Objects,
    /// A row of the results that are named outside of regions.
    Outside(usize),
    /// Regions, and the section after them.
    Regions,
    /// A text that is no root.
    Refused,
    /// A root beside other texts.
    Beside,
    /// The example of docs/DIALECTS.md.
    Page,
}

/// Makes a check with a context of its own.
pub(crate) fn alone(rt: &impl Abort, alloc: Global, check: Check<'_>) {
    let places = match check {
        Check::LastPlaces => u32::MAX - 2,
        _ => 1,
    };
    let done = with_counters(
        alloc,
        0,
        places,
        |alloc, ctx| Ok(make(rt, alloc, ctx, check)),
    );
    value_of(rt, done, "no context");
}

/// Makes a check.
fn make(rt: &impl Abort, alloc: Global, ctx: &mut Ctx, check: Check<'_>) {
    match check {
        Check::Dialects => dialects::check(rt, alloc, ctx),
        Check::LastPlaces => graphs::check_last(rt, alloc, ctx),
        Check::Errors => errors::check(rt, alloc, ctx),
        Check::Location(text, wanted) => location_readings::check(rt, alloc, ctx, text, wanted),
        Check::IsLocation(text, wanted) => location_readings::check_read(rt, ctx, text, wanted),
        Check::File => location_readings::check_file(rt, alloc, ctx),
        Check::Places => location_readings::check_places(rt, alloc, ctx),
        Check::Macros(set) => macros::check(rt, alloc, ctx, set),
        _ => {
            add_demo(rt, ctx);
            make_in_demo(rt, alloc, ctx, check);
        }
    }
}

/// Registers the demo dialects.
fn add_demo(rt: &impl Abort, ctx: &mut Ctx) {
    assert!(rt; is_done(register_demo(ctx)));
}

/// Makes a check that needs the demo dialects.
fn make_in_demo(rt: &impl Abort, alloc: Global, ctx: &mut Ctx, check: Check<'_>) {
    match check {
        Check::Calls => checked::check(rt, alloc, ctx),
        Check::Roots => graphs::check(rt, alloc, ctx),
        Check::Objects => reexports::check(rt, alloc, ctx),
        Check::Outside(row) => outside::check(rt, alloc, ctx, row),
        Check::Regions => regions::check(rt, alloc, ctx),
        Check::Refused => refused::check(rt, alloc, ctx),
        Check::Beside => beside::check(rt, alloc, ctx),
        _ => dialects_page::check(rt, alloc, ctx),
    }
}
