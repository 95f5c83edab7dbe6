//! The stack of the parser of locations: the open locations, and how far the innermost was parsed.

use irtext_base::base::AttrObj;
use irtext_base::location::Location;

/// A location that contains another one: what was parsed of it before that one.
#[derive(Drop)]
pub(crate) enum Frame<A> {
    /// The name of the location inside.
    Named(String),
    /// A call site before its callee's location.
    Callee,
    /// A call site before its caller's location, with its callee's.
    Caller(Location<A>),
    /// A fused location before its next location: its metadata and the locations so far.
    Fused {
        metadata: Box<Option<AttrObj<A>>>,
        locations: Vec<Location<A>>,
    },
}

/// How far a location was parsed.
#[derive(Drop)]
pub(crate) enum Progress<A> {
    /// To its end.
    Whole(Location<A>),
    /// Up to a location inside of it.
    Inside(Frame<A>),
}
