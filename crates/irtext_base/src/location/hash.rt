//! Stable hashes of sources and locations. They are made from the texts of paths and not from keys, so they are the same in any two
//! contexts.
ghost use Rattle.std.specs.Prelude.{◌≡◌, length, fold, IsTrue};
ghost use Rattle.irtext_base.specs.Locations.{location_view, attr_view, attr_view_in};
ghost use Rattle.irtext_base.specs.Paths.{is_known, are_known};
ghost use Rattle.irtext_base.specs.StableHash.{source_writes, attr_writes, metadata_writes, location_writes};

use crate::base::AttrObj;
use crate::location::paths::{HasPaths, Paths};
use crate::location::visit::{Visitor, visit};
use crate::location::{Location, Source};
use crate::parsable::SourcePosition;
use crate::text::AttrText;
use std::hash::{Hash, Hasher};

/// Feeds a source to a hasher. For a file whose path is not kept, no path is fed.
fn hash_source<H: Hasher>(source: Source, paths: &Paths, state: &mut H)
    ensures { state.new ≡ fold H.write state.old (source_writes paths.now source) }
{
    match source {
        Source::File(key) => {
            state.write_u8(0);
            if source.is_among(paths.len()) {
                paths.path(key).hash(state);
            }
        }
        Source::InMemory => state.write_u8(1),
    }
}

pub(super) fn hash_attr<A: Hash, H: Hasher>(attr: &AttrObj<A>, state: &mut H)
    ensures { state.new ≡ fold H.write state.old (attr_writes A.hash_input (attr_view attr.now)) }
{
    attr.hash(state);
}

fn hash_metadata<A: AttrText<A>, H: Hasher>(metadata: &Option<AttrObj<A>>, state: &mut H)
    ensures { state.new ≡ fold H.write state.old (metadata_writes A.hash_input (attr_view_in metadata.now)) }
{
    match metadata {
        Some(attr) => {
            state.write_u8(1);
            hash_attr(attr, state);
        }
        None => state.write_u8(0),
    }
}

/// A visitor that feeds each location to a hasher, with the texts of these paths.
impl<A: AttrText<A>, H: Hasher> Visitor<A, H> for Paths {
    ghost use Rattle.irtext_base.specs.Feeds.{hashing};

    ghost visit = { λ paths. hashing H.write A.hash_input paths };

    fn place(&self, src: Source, at: &SourcePosition, state: &mut H) {
        state.write_u8(0);
        hash_source(src, self, state);
        at.stable_hash(self, state);
    }

    fn fused(&self, metadata: &Option<AttrObj<A>>, count: usize, state: &mut H) {
        state.write_u8(1);
        hash_metadata(metadata, state);
        state.write_u64(count as u64);
    }

    fn named(&self, name: &str, state: &mut H) {
        state.write_u8(2);
        name.hash(state);
    }

    fn called(&self, state: &mut H) {
        state.write_u8(3);
    }

    fn unknown(&self, state: &mut H) {
        state.write_u8(4);
    }
}

fn hash_location<A: AttrText<A>, H: Hasher>(location: &Location<A>, paths: &Paths, state: &mut H)
    ensures { state.new ≡ fold H.write state.old (location_writes A.hash_input paths.now
        (location_view location.now)) }
{
    visit(location, paths, state);
}

impl Source {
    /// Feeds the source to a hasher: 0 and the text of the path for a file, or 1 for `InMemory`. The context must have the file's path.
    pub fn stable_hash<C: HasPaths<A>, A, H: Hasher>(&self, ctx: &C, state: &mut H)
        requires { IsTrue (is_known (length (C.paths ctx.now)) self.now) }
        ensures { state.new ≡ fold H.write state.old (source_writes (C.paths ctx.now) self.now) }
    {
        hash_source(*self, ctx.paths(), state);
    }
}

impl<A: AttrText<A>> Location<A> {
    /// Feeds the location to a hasher: the number of its variant, and then its parts in order. Locations that differ only in the keys that
    /// their contexts have for the same paths feed the same. The context must have the paths of all files in the location. Recurses into
    /// the nested locations, but not into the last one in each location.
    pub fn stable_hash<C: HasPaths<A>, H: Hasher>(&self, ctx: &C, state: &mut H)
        requires { IsTrue (are_known (length (C.paths ctx.now)) (location_view self.now)) }
        ensures { state.new ≡ fold H.write state.old (location_writes A.hash_input (C.paths ctx.now)
            (location_view self.now)) }
    {
        hash_location(self, ctx.paths(), state);
    }
}
