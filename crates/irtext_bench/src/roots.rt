//! Several roots, parsed from one stream, and printed.

use crate::again::register;
use crate::directives::format_of;
use crate::said::{Ctx, checked, written};
use irtext_demo::{DemoAttr, DemoType};
use pliron_text::base::{Context, Operation, Ptr};
use pliron_text::ir::OperationText;
use pliron_text::location::Source;
use pliron_text::parsable::{State, StateStream, TextStream};
use pliron_text::printable;
use pliron_text::printable::Printable;
use std::alloc::{AllocError, Global};
use std::fmt::Write;

/// Parses all roots that a stream has.
fn read_all(
    s: &mut StateStream<'_, DemoType, DemoAttr, ()>,
    roots: &mut Vec<Ptr<Operation>>,
) -> Result<(), AllocError> {
    for _ in 0..u64::MAX {
        match Operation::top_level_parse(s) {
            Ok(root) => roots.push(root)?,
            Err(fault) => {
                drop(fault);
                break;
            }
        }
    }
    Ok(())
}

/// Parses all roots of a text, in a context.
fn read_roots(
    alloc: Global,
    ctx: &mut Ctx,
    text: &str,
    roots: &mut Vec<Ptr<Operation>>,
) -> Result<(), AllocError> {
    let stream = TextStream::new(alloc, text)?;
    let state = State::new(ctx, Source::InMemory, ());
    let mut s = StateStream { stream, state };
    let done = read_all(&mut s, roots);
    drop(s);
    done
}

/// Appends the text of a root, if it is live.
fn append(
    alloc: Global,
    ctx: &Ctx,
    root: Ptr<Operation>,
    text: &mut String,
) -> Result<(), AllocError> {
    if !ctx.contains_operation(root) {
        return Ok(());
    }
    let mut state = printable::State::new(alloc, ());
    let done = root.fmt(ctx, &mut state, text);
    drop(state);
    written(done)
}

/// Appends the texts of roots, one after another.
fn append_all(
    alloc: Global,
    ctx: &Ctx,
    roots: &[Ptr<Operation>],
    text: &mut String,
) -> Result<(), AllocError> {
    for root in roots {
        append(alloc, ctx, *root, text)?;
    }
    Ok(())
}

/// Prints roots. Returns the number of bytes.
fn print_roots(alloc: Global, ctx: &Ctx, roots: &[Ptr<Operation>]) -> Result<usize, AllocError> {
    let mut text = String::new(alloc);
    let done = append_all(alloc, ctx, roots, &mut text);
    let bytes = text.len();
    drop(text);
    done?;
    Ok(bytes)
}

/// Registers `bench.note`, which is printed as a dictionary of its attributes, in addition to the demo dialects.
fn register_all(alloc: Global, ctx: &mut Ctx) -> Result<(), AllocError> {
    register(ctx)?;
    let format = format_of(alloc, "dictionary")?;
    checked(ctx.register_op("bench", "note", format, false))
}

/// Prints roots so many times. Returns the number of bytes.
fn print_often(
    alloc: Global,
    ctx: &Ctx,
    roots: &[Ptr<Operation>],
    times: usize,
) -> Result<usize, AllocError> {
    let mut bytes = 0;
    for _ in 0..times {
        bytes = print_roots(alloc, ctx, roots)?;
    }
    Ok(bytes)
}

/// Parses all roots with an empty context, and prints them so many times. Appends a line with the numbers of roots and bytes.
fn roots_with(
    alloc: Global,
    ctx: &mut Ctx,
    text: &str,
    times: usize,
    roots: &mut Vec<Ptr<Operation>>,
    out: &mut String,
) -> Result<(), AllocError> {
    register_all(alloc, ctx)?;
    read_roots(alloc, ctx, text, roots)?;
    let printed = print_often(alloc, ctx, roots.as_slice(), times)?;
    let (read, count) = (text.len(), roots.len());
    write!(
        out,
        "{count} roots, {read} bytes read, {printed} bytes printed"
    )
}

/// Does the same with a new context.
pub fn roots(alloc: Global, text: &str, times: usize, out: &mut String) -> Result<(), AllocError> {
    let mut roots = Vec::new(alloc);
    let mut ctx = Context::new(alloc);
    let done = roots_with(alloc, &mut ctx, text, times, &mut roots, out);
    drop(ctx);
    drop(roots);
    done
}
