//! Contexts, and roots that are parsed and printed in them. The rows and the calls share these.

use crate::fault::{Fault, cause_of, checked, written};
use irtext_demo::DemoAttr;
use irtext_demo::dialects::register_demo;
use irtext_tests_common::answers::accepted;
use irtext_tests_common::building::{live, register};
pub(crate) use irtext_tests_common::contexts::{Ctx, Stream};
use pliron_text::base::{Operation, OperationAccess, Ptr};
use pliron_text::ir::{OpObj, OperationText};
use pliron_text::parsable::parse_from_str;
use pliron_text::printable::Disp;
use pliron_text::result::{Error, Result as Answer};
use std::alloc::Global;
use std::fmt::Write;
use std::test::Fail;

/// Registers the demo dialects with a context.
pub(crate) fn register_dialects(ctx: &mut Ctx) -> Result<(), Fault> {
    checked(register_demo(ctx))
}

/// Registers `test.z` with the format of these letters.
pub(crate) fn register_z(alloc: Global, ctx: &mut Ctx, letters: &str) -> Result<(), Fail> {
    register(alloc, ctx, ("test", "z"), letters, false)
}

/// The root that a text is parsed as, or the error.
fn read_root(ctx: &mut Ctx, text: &str) -> Answer<Ptr<Operation>, DemoAttr> {
    parse_from_str(|s| Operation::top_level_parse(s), ctx, text)
}

/// The root that a text is parsed as.
pub(crate) fn root(ctx: &mut Ctx, text: &str) -> Result<Ptr<Operation>, Fail> {
    accepted(read_root(ctx, text), "refused")
}

/// Registers the demo dialects with an empty context, and parses a text as a root.
pub(crate) fn first_root(ctx: &mut Ctx, text: &str) -> Result<Ptr<Operation>, Fault> {
    register_dialects(ctx)?;
    checked(read_root(ctx, text))
}

/// What is said of an error.
#[derive(Clone, Copy)]
pub(crate) enum Refusal {
    /// Its text.
    Text,
    /// Its text with its location, and the number of objects after it.
    Located,
    /// Its cause, or that of the fault that it holds.
    Cause,
}

/// Says this of an error.
fn push_error(
    ctx: &Ctx,
    error: &Error<DemoAttr>,
    refusal: Refusal,
    said: &mut String,
) -> Result<(), Fail> {
    match refusal {
        Refusal::Text => written(write!(said, "{error}")),
        Refusal::Located => written(write!(said, "{}{}", error.disp(ctx), ctx.num_live())),
        Refusal::Cause => written(write!(said, "{}", cause_of(error))),
    }
}

/// The root that a text is parsed as. If there is none, this is said of the error.
pub(crate) fn root_unless_said(
    ctx: &mut Ctx,
    text: &str,
    refusal: Refusal,
    said: &mut String,
) -> Result<Option<Ptr<Operation>>, Fail> {
    let answer = read_root(ctx, text);
    let done = match &answer {
        Ok(_) => Ok(()),
        Err(error) => push_error(ctx, error, refusal, said),
    };
    let root = answer.ok();
    done?;
    Ok(root)
}

/// Appends the whole text of an operation, with the mark and the section, if it is live.
pub(crate) fn push_whole(ctx: &Ctx, op: Ptr<Operation>, out: &mut String) -> Result<(), Fail> {
    live(ctx, op)?;
    written(write!(out, "{}", op.disp(ctx)))
}

/// The whole text of an operation, if it is live.
pub(crate) fn whole(alloc: Global, ctx: &Ctx, op: Ptr<Operation>) -> Result<String, Fail> {
    live(ctx, op)?;
    Ok(format!(in alloc; "{}", op.disp(ctx))?)
}

/// Whether an operation that is live has this whole text.
pub(crate) fn has_text(
    alloc: Global,
    ctx: &Ctx,
    op: Ptr<Operation>,
    text: &str,
) -> Result<bool, Fail> {
    let whole = whole(alloc, ctx, op)?;
    let is_same = whole.as_str() == text;
    drop(whole);
    Ok(is_same)
}

/// Appends the concrete text of an operation, if it is live.
pub(crate) fn push_concrete(ctx: &Ctx, op: Ptr<Operation>, out: &mut String) -> Result<(), Fail> {
    live(ctx, op)?;
    written(write!(out, "{}", OpObj { op }.disp(ctx)))
}

/// Appends the location of an operation, if it is live.
pub(crate) fn push_location(ctx: &Ctx, op: Ptr<Operation>, out: &mut String) -> Result<(), Fail> {
    live(ctx, op)?;
    written(write!(out, "{}", op.loc(ctx).disp(ctx)))
}
