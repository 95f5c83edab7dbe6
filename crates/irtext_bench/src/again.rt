//! Texts that are parsed and printed with a new context each: it has the demo dialects, and an operation in a format if one is given.

use crate::directives::format_of;
use crate::said::{Ctx, Said, checked, say};
use irtext_demo::DemoAttr;
use irtext_demo::dialects::register_demo;
use pliron_text::base::Context;
use pliron_text::result::{Cause, Error, Result as Answer};
use std::alloc::{AllocError, Global};
use std::fmt::Write;

/// Registers the demo dialects with an empty context.
pub fn register(ctx: &mut Ctx) -> Result<(), AllocError> {
    checked(register_demo(ctx))
}

/// Appends why a format is rejected.
fn push_fault(error: &Error<DemoAttr>, out: &mut String) -> Result<(), AllocError> {
    match &error.err {
        Cause::FormatFault(fault) => write!(out, "{fault}"),
        _ => Err(AllocError),
    }
}

/// Registers `test.z` with the format of these words. Returns whether the format is accepted, and otherwise appends why not.
fn add(alloc: Global, ctx: &mut Ctx, words: &str, out: &mut String) -> Result<bool, AllocError> {
    let format = format_of(alloc, words)?;
    let answer: Answer<(), DemoAttr> = ctx.register_op("test", "z", format, false);
    match answer {
        Ok(()) => Ok(true),
        Err(error) => {
            let done = push_fault(&error, out);
            drop(error);
            done?;
            Ok(false)
        }
    }
}

/// Registers the demo dialects with an empty context, and `test.z` with the format of these words if there are any. Returns the result for
/// a text.
fn say_with(
    alloc: Global,
    ctx: &mut Ctx,
    words: Option<&str>,
    text: &str,
    out: &mut String,
) -> Result<Said, AllocError> {
    register(ctx)?;
    if let Some(words) = words {
        if !add(alloc, ctx, words, out)? {
            return Ok(Said::NoFormat);
        }
    }
    say(ctx, text, out)
}

/// Returns the result for a text, with a new context. Appends its printed text, or the cause, or why the format is rejected.
pub fn say_alone(
    alloc: Global,
    words: Option<&str>,
    text: &str,
    out: &mut String,
) -> Result<Said, AllocError> {
    let mut ctx = Context::new(alloc);
    let said = say_with(alloc, &mut ctx, words, text, out);
    drop(ctx);
    said
}

/// Whether a text with this result is parsed and printed. Its format has to be accepted.
pub fn is_printed(said: Said) -> Result<bool, AllocError> {
    match said {
        Said::Printed => Ok(true),
        Said::NoFormat => Err(AllocError),
        _ => Ok(false),
    }
}

/// Does the same as `fate`, with two empty texts.
fn fate_by(
    alloc: Global,
    words: Option<&str>,
    first: &str,
    unchanged: &'static str,
    second: &mut String,
    third: &mut String,
) -> Result<&'static str, AllocError> {
    if !is_printed(say_alone(alloc, words, first, second)?)? {
        return Ok("wrong: its print is not printed");
    }
    if second.as_str() == first {
        return Ok(unchanged);
    }
    if !is_printed(say_alone(alloc, words, second.as_str(), third)?)? {
        return Ok("wrong: its second print is not printed");
    }
    Ok(if third.as_str() == second.as_str() {
        "filled"
    } else {
        "wrong: its second print is printed otherwise"
    })
}

/// Checks a printed text. Returns the word `unchanged` if it is printed unchanged, `filled` if the print of that is.
pub fn fate(
    alloc: Global,
    words: Option<&str>,
    first: &str,
    unchanged: &'static str,
) -> Result<&'static str, AllocError> {
    let mut second = String::new(alloc);
    let mut third = String::new(alloc);
    let fate = fate_by(alloc, words, first, unchanged, &mut second, &mut third);
    drop(second);
    drop(third);
    fate
}
