//! Lists of tokens, parsed from a text.

use irtext_demo::DemoAttr;
use pliron_text::irfmt::parsers::{int_parse, list_parser, quoted_string_parse};
use pliron_text::parsable::{ParseResult, TextStream};
use std::alloc::{AllocError, Global};
use std::fmt::Write;

/// Appends the result for a list: how many items it has, or the error.
fn push_result<X: Drop>(
    items: ParseResult<Vec<X>, DemoAttr>,
    bytes: usize,
    out: &mut String,
) -> Result<(), AllocError> {
    let done = match &items {
        Ok(items) => write!(out, "{} items, {bytes} bytes read", items.len()),
        Err(fault) => write!(out, "{}: {}", fault.pos, fault.cause),
    };
    drop(items);
    done
}

/// Parses a list of integers with commas between. Appends a line with their number.
pub fn numbers(alloc: Global, text: &str, out: &mut String) -> Result<(), AllocError> {
    let mut stream = TextStream::new(alloc, text)?;
    let items: ParseResult<Vec<i64>, DemoAttr> = list_parser(&mut stream, ',', int_parse);
    drop(stream);
    push_result(items, text.len(), out)
}

/// Parses a list of quoted texts with commas between. Appends a line with their number.
pub fn strings(alloc: Global, text: &str, out: &mut String) -> Result<(), AllocError> {
    let mut stream = TextStream::new(alloc, text)?;
    let items: ParseResult<Vec<String>, DemoAttr> = list_parser(
        &mut stream,
        ',',
        quoted_string_parse,
    );
    drop(stream);
    push_result(items, text.len(), out)
}
