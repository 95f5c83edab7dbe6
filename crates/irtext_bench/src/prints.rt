//! Texts that are parsed and printed, and whose printed texts are parsed and printed again, each with a new context; and each also with
//! a context that already contains a root.

use crate::again::{fate, register, say_alone};
use crate::said::{Ctx, Said, checked, erase, print, read, read_or_refused};
use pliron_text::base::{Context, Operation, Ptr};
use std::alloc::{AllocError, Global};
use std::fmt::Write;

/// Separates two texts.
const BETWEEN: char = '\u{1}';

/// A module with a function that returns a constant, which is in the context before any text is parsed.
const LIVE_ROOT: &str =
    "builtin.module @bar \n{\n  ^block1v1():\n    builtin.func @foo: builtin.function <()->(builtin.integer si64)> \n    {\n      ^entry_block2v1() !0:\n        c0_v0 = test.constant builtin.integer <0: si64>: builtin.integer si64 !1;\n        test.return c0_v0\n    }\n}\n\noutlined_attributes:\n!0 = [builtin_block_label = builtin.identifier entry]\n!1 = [builtin_given_names = builtin.given_names [c0]]\n";

/// Appends the line for a text with this result, and with this printed text if it is printed.
fn push_result(alloc: Global, said: Said, first: &str, out: &mut String) -> Result<(), AllocError> {
    match said {
        Said::Printed => out.push_str(fate(alloc, None, first, "same")?),
        Said::Unprinted => out.push_str("not printed"),
        Said::Refused(at) => write!(out, "refused {} {}", at.line, at.column),
        Said::Left => out.push_str("wrong: something of it is left"),
        Said::NoFormat => Err(AllocError),
    }
}

/// Whether both results are rejections at the same position.
fn is_refusal(said: Said, wanted: Said) -> bool {
    match (said, wanted) {
        (Said::Refused(at), Said::Refused(wanted_at)) => at == wanted_at,
        _ => false,
    }
}

/// Whether a text has the same result in a context with other roots, for the same cause if it is rejected. A root that is parsed is erased.
/// `cause` is an empty text.
fn is_said_beside(
    ctx: &mut Ctx,
    text: &str,
    wanted: Said,
    wanted_text: &str,
    cause: &mut String,
) -> Result<bool, AllocError> {
    match read_or_refused(ctx, text, cause)? {
        Ok(root) => Ok(erase(ctx, root) && matches!(wanted, Said::Printed | Said::Unprinted)),
        Err(said) => Ok(is_refusal(said, wanted) && cause.as_str() == wanted_text),
    }
}

/// Whether the first root is still printed as before, and as many objects are live.
fn is_as_it_was(
    alloc: Global,
    ctx: &Ctx,
    live_root: Ptr<Operation>,
    before: &str,
    live: u64,
) -> bool {
    let mut text = String::new(alloc);
    let is_printed = print(ctx, live_root, &mut text);
    let is_same = text.as_str() == before;
    drop(text);
    is_printed && is_same && ctx.num_live() == live
}

/// The first root, and its printed text.
#[derive(Clone, Copy)]
struct First<'a> {
    root: Ptr<Operation>,
    text: &'a str,
}

/// Appends the line for a text, parsed alone and next to the first root, with two empty texts.
fn push_line_by(
    alloc: Global,
    ctx: &mut Ctx,
    first: First<'_>,
    text: &str,
    alone: &mut String,
    beside: &mut String,
    out: &mut String,
) -> Result<(), AllocError> {
    let live = ctx.num_live();
    let said = say_alone(alloc, None, text, alone)?;
    if !is_said_beside(ctx, text, said, alone.as_str(), beside)? {
        return out.push_str("wrong: something else is said of it beside a root");
    }
    if !is_as_it_was(alloc, ctx, first.root, first.text, live) {
        return out.push_str("wrong: what stood has changed");
    }
    push_result(alloc, said, alone.as_str(), out)
}

/// Appends the line for a text.
fn push_line(
    alloc: Global,
    ctx: &mut Ctx,
    first: First<'_>,
    text: &str,
    out: &mut String,
) -> Result<(), AllocError> {
    let mut alone = String::new(alloc);
    let mut beside = String::new(alloc);
    let done = push_line_by(alloc, ctx, first, text, &mut alone, &mut beside, out);
    drop(alone);
    drop(beside);
    done?;
    out.push('\n')
}

/// Parses the first root with an empty context.
fn first_root(ctx: &mut Ctx) -> Result<Ptr<Operation>, AllocError> {
    register(ctx)?;
    checked(read(ctx, LIVE_ROOT))
}

/// Parses the first root with an empty context, prints it into an empty text, and then appends a line for each text.
fn push_beside(
    alloc: Global,
    ctx: &mut Ctx,
    texts: &str,
    before: &mut String,
    out: &mut String,
) -> Result<(), AllocError> {
    let root = first_root(ctx)?;
    if !print(ctx, root, before) {
        return Err(AllocError);
    }
    let first = First {
        root,
        text: before.as_str(),
    };
    for text in texts.split(BETWEEN) {
        push_line(alloc, ctx, first, text, out)?;
    }
    Ok(())
}

/// Appends a line for each text. For a text that is printed, the line says whether its printed text is printed unchanged (`same`) or
/// the print of that is (`filled`). For one that is rejected, it gives line and column, both from 1, in characters.
pub fn prints(alloc: Global, texts: &str, out: &mut String) -> Result<(), AllocError> {
    let mut before = String::new(alloc);
    let mut ctx = Context::new(alloc);
    let done = push_beside(alloc, &mut ctx, texts, &mut before, out);
    drop(ctx);
    drop(before);
    done
}
