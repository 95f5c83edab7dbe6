//! Locations nested deeper than the stack allows: searched, compared, copied, moved into another context and released.
use crate::tests::locations::{at, file, has_sources};
use irtext_base::location::{Location, Source};
use irtext_demo::DemoAttr;
use irtext_tests_common::contexts::Ctx;
use irtext_tests_common::nesting::{NESTINGS, Nesting, inside, nested};
use std::alloc::Global;
use std::process::Abort;

/// The number of locations around the innermost one.
const DEPTH: usize = 100_000;

/// Whether the nested location is the last, so that calls without allocation follow it by a loop.
fn is_last_nested(nesting: Nesting) -> bool {
    matches!(nesting, Nesting::Child | Nesting::Caller | Nesting::Last)
}

/// Whether so many locations are around a place of the source.
fn is_nested(nesting: Nesting, location: &Location<DemoAttr>, source: Source) -> bool {
    let mut innermost = location;
    for _ in 0..DEPTH {
        match inside(nesting, innermost) {
            Some(location) => innermost = location,
            None => return false,
        }
    }
    let place = at(source);
    let same = *innermost == place;
    drop(place);
    same
}

fn is_copied(rt: &impl Abort, alloc: Global, nesting: Nesting) -> bool {
    let location = nested(alloc, nesting, DEPTH, at(Source::InMemory)).expect(rt, "out of memory");
    let copied = has_copy(rt, alloc, nesting, &location);
    drop(location);
    copied
}

/// Whether a nested location is copied, and its source, a text in memory, found in the copy.
fn has_copy(
    rt: &impl Abort,
    alloc: Global,
    nesting: Nesting,
    location: &Location<DemoAttr>,
) -> bool {
    let copy = location.try_clone(alloc).ok().expect(rt, "out of memory");
    let nested = is_nested(nesting, &copy, Source::InMemory);
    let listed = has_sources(rt, alloc, &copy, &[Source::InMemory]);
    let equal = !is_last_nested(nesting) || copy == *location;
    let found = !is_last_nested(nesting) || copy.source() == Some(Source::InMemory);
    drop(copy);
    nested & listed & equal & found
}

fn is_carried(
    rt: &impl Abort,
    alloc: Global,
    nesting: Nesting,
    from: &mut Ctx,
    to: &mut Ctx,
) -> bool {
    let place = at(file(rt, from, "e"));
    let location = nested(alloc, nesting, DEPTH, place).expect(rt, "out of memory");
    let moved = comes_over(rt, nesting, &location, from, to);
    drop(location);
    moved
}

/// Whether a nested location moves to another context.
fn comes_over(
    rt: &impl Abort,
    nesting: Nesting,
    location: &Location<DemoAttr>,
    from: &Ctx,
    to: &mut Ctx,
) -> bool {
    assert!(rt; from.contains_paths(location));
    let moved = location
        .clone_into_context(from, to)
        .ok()
        .expect(rt, "out of memory");
    let nested = is_nested(nesting, &moved, file(rt, to, "e"));
    drop(moved);
    nested
}

/// Checks that locations nested in every way are copied, and their sources found.
pub fn check_copies(rt: &impl Abort, alloc: Global) {
    for nesting in NESTINGS {
        assert!(rt; is_copied(rt, alloc, *nesting));
    }
}

/// Checks that locations move to another context, at any depth if each is the last in the one around it.
pub fn check_moves(rt: &impl Abort, alloc: Global, from: &mut Ctx, to: &mut Ctx) {
    for nesting in NESTINGS {
        assert!(rt; !is_last_nested(*nesting) || is_carried(rt, alloc, *nesting, from, to));
    }
}
