//! The sources, copies and hashes of locations, and the paths that a context keeps.
use crate::tests::checks::{Check, alone};
use crate::tests::must::must;
use crate::tests::nested;
use irtext_base::base::AttrObj;
use irtext_base::location::{CloneIntoContext, Location, Source};
use irtext_base::parsable::SourcePosition;
use irtext_context::base::context::making::Making;
use irtext_context::base::{AttributeDict, Operation, OperationAccess, Ptr};
use irtext_context::location::erase_locations;
use irtext_demo::DemoAttr;
use irtext_tests_common::building::id;
use irtext_tests_common::contexts::{Ctx, named, with_contexts};
use std::alloc::Global;
use std::hash::{DefaultHasher, Hash, Hasher};
use std::process::Abort;

/// The source of a file.
pub fn file(rt: &impl Abort, ctx: &mut Ctx, path: &str) -> Source {
    Source::new_from_file(ctx, path)
        .ok()
        .expect(rt, "out of memory")
}

/// Line 1, column 2 of a source.
pub fn at(src: Source) -> Location<DemoAttr> {
    Location::SrcPos {
        src,
        pos: SourcePosition { line: 1, column: 2 },
    }
}

/// The name `m`, as metadata.
fn metadata(rt: &impl Abort, alloc: Global) -> Option<AttrObj<DemoAttr>> {
    Some(AttrObj::Ident(must(rt, named(alloc, "m"))))
}

/// A location fused of these, with a name as metadata.
fn fused_of(
    rt: &impl Abort,
    alloc: Global,
    locations: Vec<Location<DemoAttr>>,
) -> Location<DemoAttr> {
    let metadata: Result<_, _> = Box::new(alloc, metadata(rt, alloc));
    Location::Fused {
        metadata: metadata.expect(rt, "out of memory"),
        locations: Box::new(alloc, locations).expect(rt, "out of memory"),
    }
}

/// A location fused of two others, with a name as metadata.
fn fused(
    rt: &impl Abort,
    alloc: Global,
    first: Location<DemoAttr>,
    second: Location<DemoAttr>,
) -> Location<DemoAttr> {
    let locations = Vec::from_array(alloc, [first, second]);
    fused_of(rt, alloc, locations.expect(rt, "out of memory"))
}

/// The hash of a new hasher after a location of the context's paths is hashed.
fn hash_of(ctx: &Ctx, location: &Location<DemoAttr>) -> u64 {
    let mut state = DefaultHasher::new();
    if ctx.contains_paths(location) {
        location.stable_hash(ctx, &mut state);
    }
    state.finish()
}

/// Checks that a context keeps each path once.
fn keep_once(rt: &impl Abort, alloc: Global, ctx: &mut Ctx, other: &Ctx) {
    let b = file(rt, ctx, "b");
    let c = file(rt, ctx, "c");
    let again = file(rt, ctx, "b");
    assert!(rt; (b != c) & (b == again) & (ctx.num_paths() == 2));
    assert!(rt; b.is_of(ctx) & !b.is_of(other) & !has_path(other, b));
    assert!(rt; has_single(rt, alloc, b) & in_order(rt, alloc, b) & lists_once(rt, alloc, b));
    assert!(rt; path_of(ctx, b) == "b");
}

/// Whether a context keeps the path of a place of the source.
fn has_path(ctx: &Ctx, source: Source) -> bool {
    let place = at(source);
    let kept = ctx.contains_paths(&place);
    drop(place);
    kept
}

/// The path of a source of the context.
fn path_of(ctx: &Ctx, source: Source) -> &str {
    if let Source::File(key) = source {
        if source.is_of(ctx) {
            return ctx.path(key);
        }
    }
    ""
}

/// Whether these are the sources of a location.
pub fn has_sources(
    rt: &impl Abort,
    alloc: Global,
    location: &Location<DemoAttr>,
    wanted: &[Source],
) -> bool {
    let sources = location.sources(alloc).ok().expect(rt, "out of memory");
    let same = sources.as_slice() == wanted;
    drop(sources);
    same
}

/// Whether a location of one source has that alone.
fn has_single(rt: &impl Abort, alloc: Global, b: Source) -> bool {
    let one = fused(rt, alloc, at(b), at(b));
    let source = one.source();
    drop(one);
    source == Some(b)
}

/// Whether the sources of a location in another are in the order of their first mention.
fn in_order(rt: &impl Abort, alloc: Global, b: Source) -> bool {
    let one = fused(rt, alloc, at(b), at(b));
    let all = fused(rt, alloc, one, at(Source::InMemory));
    let listed = has_sources(rt, alloc, &all, &[b, Source::InMemory]);
    let source = all.source();
    drop(all);
    listed & source.is_none()
}

/// Whether a source that is mentioned first and last is listed once, first.
fn lists_once(rt: &impl Abort, alloc: Global, b: Source) -> bool {
    let locations = Vec::from_array(alloc, [at(b), at(Source::InMemory), at(b)]);
    let all = fused_of(rt, alloc, locations.expect(rt, "out of memory"));
    let listed = has_sources(rt, alloc, &all, &[b, Source::InMemory]);
    drop(all);
    listed
}

/// Whether a copy equals its source.
fn copied(rt: &impl Abort, alloc: Global) -> bool {
    let location = fused(rt, alloc, at(Source::InMemory), Location::Unknown);
    let same = equals_copy(rt, alloc, &location);
    drop(location);
    same
}

/// Whether the copy of a location equals it.
fn equals_copy(rt: &impl Abort, alloc: Global, location: &Location<DemoAttr>) -> bool {
    let copy = location.try_clone(alloc).ok().expect(rt, "out of memory");
    let same = copy == *location;
    drop(copy);
    same
}

/// Whether the copy of an attribute equals it.
fn attribute_copied(rt: &impl Abort, alloc: Global) -> bool {
    let attribute: AttrObj<DemoAttr> = AttrObj::Ident(must(rt, named(alloc, "x")));
    let copy = attribute.try_clone(alloc).expect(rt, "out of memory");
    let same = copy == attribute;
    drop(copy);
    drop(attribute);
    same
}

/// Whether the hash of a place is computed from its path.
fn hashed(rt: &impl Abort, ctx: &mut Ctx) -> bool {
    let place = at(file(rt, ctx, "b"));
    let mut wanted = DefaultHasher::new();
    wanted.write_u8(0);
    wanted.write_u8(0);
    "b".hash(&mut wanted);
    wanted.write_i32(1);
    wanted.write_i32(2);
    let hash = hash_of(ctx, &place);
    drop(place);
    hash == wanted.finish()
}

/// Whether the hash of fused locations counts them.
fn counted(rt: &impl Abort, alloc: Global, ctx: &Ctx) -> bool {
    let metadata: Result<_, _> = Box::new(alloc, None);
    let none: Location<DemoAttr> = Location::Fused {
        metadata: metadata.expect(rt, "out of memory"),
        locations: Box::new(alloc, Vec::new(alloc)).expect(rt, "out of memory"),
    };
    let mut wanted = DefaultHasher::new();
    wanted.write_u8(1);
    wanted.write_u8(0);
    wanted.write_u64(0);
    let hash = hash_of(ctx, &none);
    drop(none);
    hash == wanted.finish()
}

/// Checks that a source moves to another context under the same path, and a place without a path stays the same.
fn move_source(rt: &impl Abort, from: &mut Ctx, to: &mut Ctx) {
    let b = file(rt, from, "b");
    let a = file(rt, to, "a");
    assert!(rt; b.is_of(from));
    let moved = b
        .clone_into_context(from, to)
        .ok()
        .expect(rt, "out of memory");
    assert!(rt; a == b && moved != b && moved == file(rt, to, "b"));
    let position = SourcePosition { line: 3, column: 4 };
    assert!(rt; position.clone_into_context(from, to).ok() == Some(position));
}

/// Whether a location moves to another context with the same text.
fn is_alike(rt: &impl Abort, location: &Location<DemoAttr>, from: &Ctx, to: &mut Ctx) -> bool {
    assert!(rt; from.contains_paths(location));
    let moved = location
        .clone_into_context(from, to)
        .ok()
        .expect(rt, "out of memory");
    let hash = hash_of(to, &moved);
    let kept = moved == *location;
    drop(moved);
    !kept && hash == hash_of(from, location)
}

/// Checks that for a location of two files, of which one path is new in the other context.
fn carry(rt: &impl Abort, alloc: Global, from: &mut Ctx, to: &mut Ctx) {
    let (d, a) = (file(rt, from, "d"), file(rt, from, "a"));
    let location = fused(rt, alloc, at(d), at(a));
    assert!(rt; is_alike(rt, &location, from, to) && to.num_paths() == 3);
    drop(location);
}

/// Makes a module with a place.
pub(crate) fn make(rt: &impl Abort, alloc: Global, ctx: &mut Ctx) -> Ptr<Operation> {
    let id = must(rt, id(alloc, ("builtin", "module")));
    let attributes = AttributeDict::new(alloc);
    let made = ctx.make_operation(id, attributes, at(Source::InMemory));
    made.expect(rt, "out of memory")
}

/// Checks that a location that was there is erased.
fn erase(rt: &impl Abort, alloc: Global, ctx: &mut Ctx) {
    let op = make(rt, alloc, ctx);
    assert!(rt; ctx.contains_operation(op) && !op.loc(ctx).is_unknown());
    erase_locations(ctx, op);
    assert!(rt; ctx.contains_operation(op) && op.loc(ctx).is_unknown());
}

/// Checks that locations of a context are copied, hashed and erased.
pub(crate) fn keep(rt: &impl Abort, alloc: Global, ctx: &mut Ctx) {
    assert!(rt; copied(rt, alloc) & attribute_copied(rt, alloc));
    assert!(rt; hashed(rt, ctx) & counted(rt, alloc, ctx));
    erase(rt, alloc, ctx);
    nested::check_copies(rt, alloc);
}

#[test]
fn copies_and_hashes_of_locations(rt: HostRuntime) {
    alone(&rt, rt.alloc(), Check::Locations);
}

/// Checks that two contexts keep each path once, and locations move from one to the other.
fn exchange(rt: &impl Abort, alloc: Global, ctx: &mut Ctx, other: &mut Ctx) {
    keep_once(rt, alloc, ctx, other);
    move_source(rt, ctx, other);
    carry(rt, alloc, ctx, other);
    nested::check_moves(rt, alloc, ctx, other);
}

#[test]
fn sources_and_locations_of_two_contexts(rt: HostRuntime) {
    with_contexts(
        rt.alloc(),
        |alloc, ctx, other| exchange(&rt, alloc, ctx, other),
    );
}
