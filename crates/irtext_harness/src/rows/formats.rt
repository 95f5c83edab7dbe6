//! Operations that are parsed and printed in a format of their own, which is given by its letters.
use crate::roots::{
    Ctx, Refusal, has_text, push_concrete, push_whole, register_z, root, root_unless_said,
};
use crate::rows::modes::Trial;
use crate::rows::row::Row;
use crate::rows::said::require;
use irtext_tests_common::building::register;
use pliron_text::base::{Operation, Ptr};
use std::alloc::Global;
use std::test::Fail;

/// Says the printed text of the root that a text is parsed as.
pub(crate) fn printed(ctx: &mut Ctx, text: &str, said: &mut String) -> Result<(), Fail> {
    let root = root(ctx, text)?;
    push_whole(ctx, root, said)
}

/// Says the same, once `test.z` is registered with the format of these letters.
pub(crate) fn registered(
    alloc: Global,
    ctx: &mut Ctx,
    letters: &str,
    text: &str,
    said: &mut String,
) -> Result<(), Fail> {
    register_z(alloc, ctx, letters)?;
    printed(ctx, text, said)
}

/// The root around an operation.
fn around(alloc: Global, op: &str) -> Result<String, Fail> {
    Ok(format!(in alloc; "builtin.module @m {{ ^b(x: builtin.integer si64, y: test.ptr): {op} }}")?)
}

/// The text that is wanted if the root's text contains it and is printed unchanged once it is parsed back; else the root's text.
fn part(alloc: Global, letters: &str, printed: &str, wanted: &str) -> Result<String, Fail> {
    let again = Trial::Formatted(letters, printed).said(alloc)?;
    let holds = printed.contains(wanted) && again.as_str() == printed;
    drop(again);
    Ok(String::from_str(alloc, if holds { wanted } else { printed })?)
}

/// The same for the root that a text is parsed as.
fn part_of(alloc: Global, letters: &str, text: &str, wanted: &str) -> Result<String, Fail> {
    let printed = Trial::Formatted(letters, text).said(alloc)?;
    let part = part(alloc, letters, printed.as_str(), wanted);
    drop(printed);
    part
}

/// The part that is wanted of the printed text of the root around an operation, or the whole of it.
pub(crate) fn in_a_root(alloc: Global, row: &Row) -> Result<String, Fail> {
    let text = around(alloc, row.text(1))?;
    let part = part_of(alloc, row.text(0), text.as_str(), row.wanted.as_str());
    drop(text);
    part
}

/// Fails if a text is not parsed as a root of the same text.
fn check_printed(alloc: Global, ctx: &mut Ctx, text: &str) -> Result<(), Fail> {
    let root = root(ctx, text)?;
    let is_same = has_text(alloc, ctx, root, text)?;
    require(is_same, "other text")
}

/// Says the concrete text of a root whose whole text is parsed back.
fn comes_back(
    alloc: Global,
    ctx: &mut Ctx,
    op: Ptr<Operation>,
    said: &mut String,
) -> Result<(), Fail> {
    push_whole(ctx, op, said)?;
    check_printed(alloc, ctx, said.as_str())?;
    said.clear();
    push_concrete(ctx, op, said)
}

/// Says the concrete text of the root that a text is parsed as, or the error, once `lab.d`, which is isolated, is registered with the format
/// of the letters that come first. The context is empty before.
pub(crate) fn as_a_root(
    alloc: Global,
    ctx: &mut Ctx,
    row: &Row,
    said: &mut String,
) -> Result<(), Fail> {
    register(alloc, ctx, ("lab", "d"), row.text(0), true)?;
    match root_unless_said(ctx, row.text(1), Refusal::Text, said)? {
        Some(op) => comes_back(alloc, ctx, op, said),
        None => Ok(()),
    }
}
