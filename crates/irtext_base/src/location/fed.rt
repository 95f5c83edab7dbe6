//! What the `Hash` of a location feeds a hasher.
ghost use Rattle.std.specs.Prelude.{◌≡◌, fold};
ghost use Rattle.std.specs.Hash as fed;
ghost use Rattle.irtext_base.specs.Locations.{location_view, attr_view_in};
ghost use Rattle.irtext_base.specs.SameLocations.{fed_view};
ghost use Rattle.irtext_base.specs.StableHash.{attr_writes};

use crate::base::AttrObj;
use crate::location::hash::hash_attr;
use crate::location::visit::{Visitor, visit};
use crate::location::{Location, Source};
use crate::parsable::SourcePosition;
use std::hash::{Hash, Hasher};

fn feed_metadata<A: Hash, H: Hasher>(metadata: &Option<AttrObj<A>>, state: &mut H)
    ensures { state.new ≡ fold H.write state.old (fed.option (attr_writes A.hash_input)
        (attr_view_in metadata.now)) }
{
    match metadata {
        Some(attr) => {
            state.write_isize(1);
            hash_attr(attr, state);
        }
        None => state.write_isize(0),
    }
}

/// A visitor that feeds each location to a hasher.
#[derive(Drop)]
struct Feeding;

impl<A: Hash, H: Hasher> Visitor<A, H> for Feeding {
    ghost use Rattle.irtext_base.specs.Feeds.{feeding};

    ghost visit = { λ _. feeding H.write A.hash_input };

    fn place(&self, src: Source, at: &SourcePosition, state: &mut H) {
        state.write_isize(0);
        src.hash(state);
        at.hash(state);
    }

    fn fused(&self, metadata: &Option<AttrObj<A>>, count: usize, state: &mut H) {
        state.write_isize(1);
        feed_metadata(metadata, state);
        state.write_usize(count);
    }

    fn named(&self, name: &str, state: &mut H) {
        state.write_isize(2);
        name.hash(state);
    }

    fn called(&self, state: &mut H) {
        state.write_isize(3);
    }

    fn unknown(&self, state: &mut H) {
        state.write_isize(4);
    }
}

/// Feeds a location to a hasher, as its `Hash` does.
pub(super) fn feed<A: Hash, H: Hasher>(location: &Location<A>, state: &mut H)
    ensures { state.new ≡ fold H.write state.old (fed_view A.hash_input (location_view location.now)) }
{
    visit(location, &Feeding, state);
}
