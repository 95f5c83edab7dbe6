//! Parsing a location while an allocation fails: the fault says so.

use crate::fault::{Fault, checked};
use crate::roots::Ctx;
use irtext_demo::{DemoAttr, DemoType};
use pliron_text::location::Location;
use pliron_text::parsable::{Parsable, parse_from_str};
use pliron_text::printable::Disp;
use pliron_text::result::Result as Answer;
use std::fmt::Write;

/// Parses the text as a location.
fn parse(ctx: &mut Ctx, text: &str) -> Answer<Location<DemoAttr>, DemoAttr> {
    parse_from_str(
        |s| <Location<DemoAttr> as Parsable<DemoType, DemoAttr, ()>>::parse(s, ()),
        ctx,
        text,
    )
}

/// Appends the text of a location.
fn print(ctx: &Ctx, location: &Location<DemoAttr>, out: &mut String) -> Result<(), Fault> {
    match write!(out, "{}", location.disp(ctx)) {
        Ok(()) => Ok(()),
        Err(_) => Err(Fault::Memory),
    }
}

/// Parses the text as a location, and appends its printed text.
pub(crate) fn read(ctx: &mut Ctx, text: &str, out: &mut String) -> Result<(), Fault> {
    let location = checked(parse(ctx, text))?;
    let done = print(ctx, &location, out);
    drop(location);
    done
}
