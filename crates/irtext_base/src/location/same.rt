//! Equality of locations: a loop along the last location in each, and recursion into the others.
ghost use Rattle.std.specs.Prelude.{◌≡◌, ◌≤◌, ◌&&◌, suc, map};
ghost use Rattle.std.specs.Option.{option_eq};
ghost use Rattle.irtext_base.specs.Locations.{location_view, attr_view_in, in_row, src_pos};
ghost use Rattle.irtext_base.specs.SameLocations.{same_attr, same_view, same_rows};
ghost use Rattle.irtext_base.specs.SameLeft.{left_same, left_weight, several};
ghost use Rattle.irtext_base.specs.Weights.{weight_of, weight_all};

use crate::base::AttrObj;
use crate::location::sources::is_same_source;
use crate::location::{Location, Source};
use irtext_stream::position::SourcePosition;

fn is_same_metadata<A: PartialEq>(a: &Option<AttrObj<A>>, b: &Option<AttrObj<A>>) -> bool
    ensures { result ≡ option_eq (same_attr A.eq) (attr_view_in a.now) (attr_view_in b.now) }
{
    *a == *b
}

/// What is left to compare of two locations.
#[derive(Drop)]
enum Left<'a, A> {
    /// Nothing: whether the two are equal.
    Known(bool),
    /// The last location in each: all else of the two is equal.
    Last(&'a Location<A>, &'a Location<A>),
}

/// Returns what is left to compare: the last locations of the two if all else is `alike`, and otherwise that they differ.
fn last_if<'a, A: PartialEq>(
    alike: bool,
    last: &'a Location<A>,
    end: &'a Location<A>,
) -> Left<'a, A>
    ensures same { left_same A.eq result ≡ (alike && same_view A.eq (location_view last.now)
        (location_view end.now)) }
    ensures inside { left_weight result ≤ suc (weight_of last.now) }
{
    if alike {
        Left::Last(last, end)
    } else {
        Left::Known(false)
    }
}

/// Whether a location is this position of this source.
fn is_place<A: PartialEq>(location: &Location<A>, source: Source, place: SourcePosition) -> bool
    ensures { result ≡ same_view A.eq (src_pos source place) (location_view location.now) }
{
    let Location::SrcPos { src, pos } = location else {
        return false;
    };
    is_same_source(source, *src) && place == *pos
}

/// Whether two locations are equal.
#[cycle(same)]
pub(super) fn is_same<A: PartialEq>(a: &Location<A>, b: &Location<A>) -> bool
    ensures { result ≡ same_view A.eq (location_view a.now) (location_view b.now) }
{
    let mut next = a;
    let mut other = b;
    loop {
        match all_but_last(next, other) {
            Left::Known(same) => return same,
            Left::Last(last, end) => {
                next = last;
                other = end;
            }
        }
    }
}

/// Compares two locations, but not the last location in each. Returns what is left to compare.
#[cycle(same)]
fn all_but_last<'a, A: PartialEq>(a: &'a Location<A>, b: &'a Location<A>) -> Left<'a, A>
    ensures same { left_same A.eq result ≡ same_view A.eq (location_view a.now) (location_view b.now) }
    ensures inside { left_weight result ≤ weight_of a.now }
{
    match a {
        Location::SrcPos { src, pos } => Left::Known(is_place(b, *src, *pos)),
        Location::Fused {
            metadata,
            locations,
        } => all_but_last_fused(metadata, locations, b),
        Location::Named { name, child_loc } => {
            let Location::Named {
                name: n,
                child_loc: k,
            } = b
            else {
                return Left::Known(false);
            };
            last_if(name.as_str() == n.as_str(), child_loc, k)
        }
        Location::CallSite { callee, caller } => {
            let Location::CallSite {
                callee: c,
                caller: k,
            } = b
            else {
                return Left::Known(false);
            };
            last_if(is_same(callee, c), caller, k)
        }
        Location::Unknown => Left::Known(b.is_unknown()),
    }
}

/// The same for a `Fused` location with these parts, and any other location.
#[cycle(same)]
fn all_but_last_fused<'a, A: PartialEq>(
    metadata: &Option<AttrObj<A>>,
    locations: &'a [Location<A>],
    other: &'a Location<A>,
) -> Left<'a, A>
    ensures same { left_same A.eq result ≡ same_view A.eq (several metadata.now locations.now)
        (location_view other.now) }
    ensures inside { left_weight result ≤ weight_all locations.now }
{
    let Location::Fused {
        metadata: about,
        locations: row,
    } = other
    else {
        return Left::Known(false);
    };
    let row: &[Location<A>] = row;
    if !is_same_metadata(metadata, about) {
        return Left::Known(false);
    }
    all_but_last_of_rows(locations, row)
}

/// Compares two rows of locations, but not the last location of each. Returns what is left to compare.
#[cycle(same)]
fn all_but_last_of_rows<'a, A: PartialEq>(a: &'a [Location<A>], b: &'a [Location<A>]) -> Left<'a, A>
    ensures same { left_same A.eq result ≡ same_rows A.eq (in_row (map location_view a.now))
        (in_row (map location_view b.now)) }
    ensures inside { left_weight result ≤ weight_all a.now }
{
    let Some((last, others)) = a.split_last() else {
        return Left::Known(b.is_empty());
    };
    let Some((end, front)) = b.split_last() else {
        return Left::Known(false);
    };
    last_if(are_same(others, front), last, end)
}

#[cycle(same)]
fn are_same<A: PartialEq>(a: &[Location<A>], b: &[Location<A>]) -> bool
    ensures { result ≡ same_rows A.eq (in_row (map location_view a.now)) (in_row (map location_view b.now)) }
{
    if a.len() != b.len() {
        return false;
    }
    for i in 0..a.len() {
        if !is_same(&a[i], &b[i]) {
            return false;
        }
    }
    true
}
