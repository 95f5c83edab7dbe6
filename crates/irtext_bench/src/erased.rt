//! Roots that are parsed and erased, one after another, with one context.

use crate::again::register;
use crate::said::{Ctx, erase};
use irtext_base::seed::Seed;
use irtext_demo::{DemoAttr, DemoType};
use pliron_text::base::{Context, Operation};
use pliron_text::ir::OperationText;
use pliron_text::location::Source;
use pliron_text::parsable::{SourcePosition, State, StateStream, TextStream};
use std::alloc::{AllocError, Global};
use std::fmt::Write;

/// How many roots there were, and the position where the text is rejected.
type Count = (u64, SourcePosition);

/// Parses all roots that a stream has, and erases each as soon as it is parsed.
fn erase_all(s: &mut StateStream<'_, DemoType, DemoAttr, ()>) -> Result<Count, AllocError> {
    let mut count = 0_u64;
    for _ in 0..u64::MAX {
        match Operation::top_level_parse(s) {
            Ok(root) => {
                if !erase(s.state.ctx, root) {
                    return Err(AllocError);
                }
                count = count.saturating_add(1);
            }
            Err(fault) => {
                let end = fault.pos;
                drop(fault);
                return Ok((count, end));
            }
        }
    }
    Err(AllocError)
}

/// Parses all roots of a text, and erases each as soon as it is parsed.
fn read_and_erase(alloc: Global, ctx: &mut Ctx, text: &str) -> Result<Count, AllocError> {
    let stream = TextStream::new(alloc, text)?;
    let state = State::new(ctx, Source::InMemory, ());
    let mut s = StateStream { stream, state };
    let count = erase_all(&mut s);
    drop(s);
    count
}

/// Does the same so many times, with an empty context. Appends a line with the number of roots, the position where the text is rejected
/// each time, and the number of objects that are left.
fn repeated(
    alloc: Global,
    ctx: &mut Ctx,
    text: &str,
    times: usize,
    out: &mut String,
) -> Result<(), AllocError> {
    register(ctx)?;
    let mut roots = 0_u64;
    let mut last = SourcePosition::default();
    for _ in 0..times {
        let (count, end) = read_and_erase(alloc, ctx, text)?;
        roots = roots.saturating_add(count);
        last = end;
    }
    let live = ctx.num_live();
    write!(out, "{roots} roots, {live} objects left, end at {last}")
}

/// Does the same with a new context with this seed.
pub fn erased(
    alloc: Global,
    seed: Seed,
    text: &str,
    times: usize,
    out: &mut String,
) -> Result<(), AllocError> {
    let mut ctx = Context::with_seed(alloc, seed);
    let done = repeated(alloc, &mut ctx, text, times, out);
    drop(ctx);
    done
}
