//! Visits of locations: a loop along the last location in each, and recursion into the others.
ghost use Rattle.std.specs.Prelude.{◌≡◌, map};
ghost use Rattle.irtext_base.specs.Locations.{location_view, in_row};
ghost use Rattle.irtext_base.specs.Visits.{visited, row_visited};

use crate::base::AttrObj;
use crate::location::{Location, Source};
use crate::parsable::SourcePosition;

/// What is done to a state at each location that is visited. A location is visited before those that are nested in it.
pub(super) trait Visitor<A, S> {
    ghost use Rattle.irtext_base.specs.Locations.{attr_view_in};
    ghost use Rattle.irtext_base.specs.Visits.{Visit};

    // the state after a location of each kind
    ghost visit: { Self → Visit S A };

    /// Visits a `SrcPos`.
    fn place(&self, src: Source, at: &SourcePosition, state: &mut S)
        ensures { state.new ≡ (visit self.now).place state.old src at.now };

    /// Visits a `Fused` of `count` locations.
    fn fused(&self, metadata: &Option<AttrObj<A>>, count: usize, state: &mut S)
        ensures { state.new ≡ (visit self.now).fused state.old (attr_view_in metadata.now) count };

    /// Visits a `Named`.
    fn named(&self, name: &str, state: &mut S)
        ensures { state.new ≡ (visit self.now).named state.old name.now };

    /// Visits a `CallSite`.
    fn called(&self, state: &mut S)
        ensures { state.new ≡ (visit self.now).called state.old };

    /// Visits an `Unknown`.
    fn unknown(&self, state: &mut S)
        ensures { state.new ≡ (visit self.now).unknown state.old };
}

/// Visits a location and all that are nested in it. Recurses into the nested locations, but not into the last one in each location.
#[cycle(visit)]
pub(super) fn visit<A, S, V: Visitor<A, S>>(location: &Location<A>, visitor: &V, state: &mut S)
    ensures { state.new ≡ visited (V.visit visitor.now) state.old (location_view location.now) }
{
    let mut next = location;
    loop {
        match next {
            Location::SrcPos { src, pos } => return visitor.place(*src, pos, state),
            Location::Fused {
                metadata,
                locations,
            } => {
                visitor.fused(metadata, locations.len(), state);
                let Some((last, others)) = locations.split_last() else {
                    return;
                };
                visit_all(others, visitor, state);
                next = last;
            }
            Location::Named { name, child_loc } => {
                visitor.named(name.as_str(), state);
                next = child_loc;
            }
            Location::CallSite { callee, caller } => {
                visitor.called(state);
                visit(callee, visitor, state);
                next = caller;
            }
            Location::Unknown => return visitor.unknown(state),
        }
    }
}

#[cycle(visit)]
fn visit_all<A, S, V: Visitor<A, S>>(locations: &[Location<A>], visitor: &V, state: &mut S)
    ensures { state.new ≡ row_visited (V.visit visitor.now) state.old
        (in_row (map location_view locations.now)) }
{
    for location in locations {
        visit(location, visitor, state);
    }
}
