//! Texts and locations nested deeper than the stack allows for recursion.
use crate::answers::failed;
use irtext_base::location::Location;
use std::alloc::{AllocError, Global};

/// Appends a text between two others, each so many times.
fn push_between(
    text: &mut String,
    depth: usize,
    before: &str,
    inside: &str,
    following: &str,
) -> Result<(), AllocError> {
    for _ in 0..depth {
        text.push_str(before)?;
    }
    text.push_str(inside)?;
    for _ in 0..depth {
        text.push_str(following)?;
    }
    Ok(())
}

/// A text between two others, each so many times.
pub fn between(
    alloc: Global,
    depth: usize,
    before: &str,
    inside: &str,
    following: &str,
) -> Result<String, AllocError> {
    let mut text = String::new(alloc);
    match push_between(&mut text, depth, before, inside, following) {
        Ok(()) => Ok(text),
        Err(error) => failed(text, error),
    }
}

/// Where a location is in the one around it.
#[derive(Clone, Copy)]
pub enum Nesting {
    /// Under the name `a`.
    Child,
    /// As the callee of an unknown caller.
    Callee,
    /// As the caller of an unknown callee.
    Caller,
    /// In a list before an unknown location.
    First,
    /// In a list after an unknown location.
    Last,
}

/// Every way in which locations nest.
pub const NESTINGS: &[Nesting] = &[
    Nesting::Child,
    Nesting::Callee,
    Nesting::Caller,
    Nesting::First,
    Nesting::Last,
];

fn called<A: Drop>(
    alloc: Global,
    callee: Location<A>,
    caller: Location<A>,
) -> Result<Location<A>, AllocError> {
    let callee = match Box::new(alloc, callee) {
        Ok(callee) => callee,
        Err(error) => return failed(caller, error.into()),
    };
    match Box::new(alloc, caller) {
        Ok(caller) => Ok(Location::CallSite { callee, caller }),
        Err(error) => failed(callee, error.into()),
    }
}

/// The name `a` in a box.
fn name(alloc: Global) -> Result<Box<String>, AllocError> {
    let name = String::from_str(alloc, "a")?;
    Ok(Box::new(alloc, name)?)
}

fn named<A: Drop>(alloc: Global, child: Location<A>) -> Result<Location<A>, AllocError> {
    let name = match name(alloc) {
        Ok(name) => name,
        Err(error) => return failed(child, error),
    };
    match Box::new(alloc, child) {
        Ok(child_loc) => Ok(Location::Named { name, child_loc }),
        Err(error) => failed(name, error.into()),
    }
}

/// Appends two locations to a list.
fn push_both<A: Drop>(
    locations: &mut Vec<Location<A>>,
    first: Location<A>,
    last: Location<A>,
) -> Result<(), AllocError> {
    match locations.push(first) {
        Ok(()) => Ok(locations.push(last)?),
        Err(error) => failed(last, error.into()),
    }
}

/// Two locations as a list, which is in a box.
fn both<A: Drop>(
    alloc: Global,
    first: Location<A>,
    last: Location<A>,
) -> Result<Box<Vec<Location<A>>>, AllocError> {
    let mut locations = Vec::new(alloc);
    match push_both(&mut locations, first, last) {
        Ok(()) => Ok(Box::new(alloc, locations)?),
        Err(error) => failed(locations, error),
    }
}

fn fused<A: Drop>(
    alloc: Global,
    first: Location<A>,
    last: Location<A>,
) -> Result<Location<A>, AllocError> {
    let locations = both(alloc, first, last)?;
    match Box::new(alloc, None) {
        Ok(metadata) => Ok(Location::Fused {
            metadata,
            locations,
        }),
        Err(error) => failed(locations, error.into()),
    }
}

/// A location with this one inside it.
fn around<A: Drop>(
    alloc: Global,
    nesting: Nesting,
    inside: Location<A>,
) -> Result<Location<A>, AllocError> {
    match nesting {
        Nesting::Child => named(alloc, inside),
        Nesting::Callee => called(alloc, inside, Location::Unknown),
        Nesting::Caller => called(alloc, Location::Unknown, inside),
        Nesting::First => fused(alloc, inside, Location::Unknown),
        Nesting::Last => fused(alloc, Location::Unknown, inside),
    }
}

/// A location with so many others around it.
pub fn nested<A: Drop>(
    alloc: Global,
    nesting: Nesting,
    depth: usize,
    innermost: Location<A>,
) -> Result<Location<A>, AllocError> {
    let mut location = innermost;
    for _ in 0..depth {
        location = around(alloc, nesting, location)?;
    }
    Ok(location)
}

/// The location inside another, where `nested` puts it.
pub fn inside<A: Drop>(nesting: Nesting, location: &Location<A>) -> Option<&Location<A>> {
    match (nesting, location) {
        (Nesting::Child, Location::Named { child_loc, .. }) => Some(child_loc),
        (Nesting::Callee, Location::CallSite { callee, .. }) => Some(callee),
        (Nesting::Caller, Location::CallSite { caller, .. }) => Some(caller),
        (Nesting::First, Location::Fused { locations, .. }) => locations.first(),
        (Nesting::Last, Location::Fused { locations, .. }) => locations.last(),
        _ => None,
    }
}
