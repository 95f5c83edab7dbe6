//! Counters that are nearly full: a text that would exceed one fails with out of memory, and leaves no objects.
use crate::roots::{Ctx, Refusal, has_text, push_concrete, root_unless_said, whole};
use crate::rows::said::require;
use pliron_text::base::{Operation, Ptr};
use std::alloc::Global;
use std::fmt::Write;
use std::test::Fail;

/// A live root, and its text.
type Root = (Ptr<Operation>, String);

/// Says the concrete text of a root, which is added to the live ones.
fn added(
    alloc: Global,
    ctx: &Ctx,
    parsed_roots: &mut Vec<Root>,
    op: Ptr<Operation>,
    said: &mut String,
) -> Result<(), Fail> {
    parsed_roots.push((op, whole(alloc, ctx, op)?))?;
    push_concrete(ctx, op, said)
}

/// Fails if a live root has another text than before.
fn are_as_they_were(alloc: Global, ctx: &Ctx, parsed_roots: &[Root]) -> Result<(), Fail> {
    for root in parsed_roots {
        let is_same = has_text(alloc, ctx, root.0, root.1.as_str())?;
        require(is_same, "what stood has changed")?;
    }
    Ok(())
}

/// Says the result for a text, and then the number of live objects. A root that is parsed is added to the live ones; each of these has to
/// have the same text as before.
fn answered(
    alloc: Global,
    ctx: &mut Ctx,
    parsed_roots: &mut Vec<Root>,
    text: &str,
    said: &mut String,
) -> Result<(), Fail> {
    if let Some(op) = root_unless_said(ctx, text, Refusal::Cause, said)? {
        added(alloc, ctx, parsed_roots, op, said)?;
    }
    write!(said, ", {}", ctx.num_live())?;
    are_as_they_were(alloc, ctx, parsed_roots.as_slice())
}

/// Parses the texts one after the other. What is said of the last is in `said` then.
fn say_last(
    alloc: Global,
    ctx: &mut Ctx,
    parsed_roots: &mut Vec<Root>,
    texts: &[String],
    said: &mut String,
) -> Result<(), Fail> {
    for text in texts {
        said.clear();
        answered(alloc, ctx, parsed_roots, text.as_str(), said)?;
    }
    Ok(())
}

/// Says the result for the last of the texts, which are parsed one after the other.
pub(crate) fn last(
    alloc: Global,
    ctx: &mut Ctx,
    texts: &[String],
    said: &mut String,
) -> Result<(), Fail> {
    let mut parsed_roots = Vec::new(alloc);
    let done = say_last(alloc, ctx, &mut parsed_roots, texts, said);
    drop(parsed_roots);
    done
}
