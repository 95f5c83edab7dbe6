//! A text between quotation marks, and for comparison a plain copy of the same bytes.

use pliron_text::printable::fmt_quoted;
use std::alloc::{AllocError, Global};
use std::fmt::Write;

/// How the text is written.
#[derive(Clone, Copy)]
pub enum Way {
    /// Between quotation marks.
    Quoted,
    /// As a plain copy.
    Copied,
}

/// Writes the text into an empty one. Returns the number of bytes.
fn write_by(way: Way, text: &str, out: &mut String) -> Result<usize, AllocError> {
    match way {
        Way::Quoted => fmt_quoted(text, out)?,
        Way::Copied => out.push_str(text)?,
    }
    Ok(out.len())
}

/// Writes the text. Returns the number of bytes.
fn write_once(alloc: Global, way: Way, text: &str) -> Result<usize, AllocError> {
    let mut out = String::new(alloc);
    let length = write_by(way, text, &mut out);
    drop(out);
    length
}

/// Writes the text so many times. Appends a line with the number of bytes.
pub fn write_often(
    alloc: Global,
    way: Way,
    text: &str,
    times: usize,
    out: &mut String,
) -> Result<(), AllocError> {
    let mut length = 0;
    for _ in 0..times {
        length = write_once(alloc, way, text)?;
    }
    match way {
        Way::Quoted => write!(out, "{length} bytes printed"),
        Way::Copied => write!(out, "{length} bytes copied"),
    }
}
