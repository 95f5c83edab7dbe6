//! Drops a location by a loop that allocates nothing, so that locations may be nested to any depth. The locations that are left to drop
//! form a chain: the first place in each holds the rest of the chain.
ghost use Rattle.std.specs.Prelude.{◌≡◌, ◌+◌, ◌<◌, IfSome};
ghost use Rattle.irtext_base.specs.Weights.{weight_of, waiting_of, weight_all, waiting_all, left_of, parts_weight, parts_waiting};

use crate::base::AttrObj;
use crate::location::Location;
use std::mem;

/// The parts of a location: the locations that are nested in it, in the boxes from which a location of the chain is built again.
enum Parts<A> {
    Leaf,
    Many(Box<Option<AttrObj<A>>>, Box<Vec<Location<A>>>),
    One(Box<Location<A>>),
    Two(Box<Location<A>>, Box<Location<A>>),
}

impl<A> Location<A> {
    fn into_parts(self) -> Parts<A>
        ensures weight { parts_weight result ≡ weight_of self }
        ensures waiting { parts_waiting result ≡ waiting_of self }
    {
        match self {
            Location::SrcPos { src: _, pos: _ } => Parts::Leaf,
            Location::Fused {
                metadata,
                locations,
            } => Parts::Many(metadata, locations),
            Location::Named { name: _, child_loc } => Parts::One(child_loc),
            Location::CallSite { callee, caller } => Parts::Two(callee, caller),
            Location::Unknown => Parts::Leaf,
        }
    }
}

/// Returns the next location to drop, and the rest of the chain, where the chain begins with a `Fused` of these parts; or `None` if the
/// chain ends there.
fn take_last<A: Drop>(
    metadata: Box<Option<AttrObj<A>>>,
    locations: Box<Vec<Location<A>>>,
) -> Option<(Location<A>, Location<A>)>
    ensures { IfSome result (λ both. left_of both.0 both.1 < 1 + waiting_all locations.value.items) }
{
    let mut locations = locations;
    let Some(last) = locations.pop() else {
        Box::into_inner(locations).destroy_empty();
        return None;
    };
    if locations.is_empty() {
        Box::into_inner(locations).destroy_empty();
        return Some((Location::Unknown, last));
    }
    Some((
        last,
        Location::Fused {
            metadata,
            locations,
        },
    ))
}

/// Returns the next location to drop, and the rest of the chain; or `None` if the chain is at its end.
fn take_next<A: Drop>(rest: Location<A>) -> Option<(Location<A>, Location<A>)>
    ensures { IfSome result (λ both. left_of both.0 both.1 < waiting_of rest) }
{
    match rest.into_parts() {
        Parts::Leaf => None,
        Parts::One(child) => Some((Box::into_inner(child), Location::Unknown)),
        Parts::Two(callee, caller) => Some((Box::into_inner(caller), Box::into_inner(callee))),
        Parts::Many(metadata, locations) => take_last(metadata, locations),
    }
}

/// Returns the first of several locations, and the chain with the others added in front.
fn enter<A: Drop>(
    metadata: Box<Option<AttrObj<A>>>,
    locations: Box<Vec<Location<A>>>,
    rest: Location<A>,
) -> (Location<A>, Location<A>)
    ensures { left_of result.0 result.1 < 1 + weight_all locations.value.items + waiting_of rest }
{
    let mut locations = locations;
    if locations.is_empty() {
        Box::into_inner(locations).destroy_empty();
        return (Location::Unknown, rest);
    }
    let first = mem::replace(&mut locations[0], rest);
    (
        first,
        Location::Fused {
            metadata,
            locations,
        },
    )
}

/// Drops one location but not those that are nested in it. Returns the next location to drop, and the rest of the chain; or `None` if
/// nothing is left.
fn step<A: Drop>(next: Location<A>, rest: Location<A>) -> Option<(Location<A>, Location<A>)>
    ensures { IfSome result (λ both. left_of both.0 both.1 < left_of next rest) }
{
    match next.into_parts() {
        Parts::Leaf => take_next(rest),
        Parts::One(child) => Some((Box::into_inner(child), rest)),
        Parts::Two(callee, caller) => {
            let mut callee = callee;
            let next = mem::replace(&mut *callee, rest);
            Some((next, Location::CallSite { callee, caller }))
        }
        Parts::Many(metadata, locations) => Some(enter(metadata, locations, rest)),
    }
}

/// Drops a location and all that are nested in it.
pub(super) fn release<A: Drop>(location: Location<A>) {
    let mut next = location;
    let mut rest = Location::Unknown;
    loop {
        match step(next, rest) {
            Some((location, others)) => {
                next = location;
                rest = others;
            }
            None => return,
        }
    }
}
