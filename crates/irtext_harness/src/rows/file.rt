//! A file of rows: its groups, and the rows in them.
use crate::rows::row::{Group, Item, Row};
use crate::rows::said::if_said;
use pliron_text::irfmt::parsers::{Class, identifier_parse, int_parse, quoted_string_parse};
use pliron_text::parsable::{ParseFault, ParseResult, TextStream};
use std::alloc::Global;
use std::test::Fail;

/// Appends the lines of a file, an empty one in place of each that begins with `#`.
fn push_lines(file: &str, text: &mut String) -> Result<(), Fail> {
    for line in file.lines() {
        let is_comment = line.starts_with('#');
        text.push_str(if is_comment { "" } else { line })?;
        text.push('\n')?;
    }
    Ok(())
}

/// The text of a file with an empty line in place of each line that begins with `#`.
pub(crate) fn without_comments(alloc: Global, file: &str) -> Result<String, Fail> {
    let mut text = String::new(alloc);
    let done = push_lines(file, &mut text);
    if_said(done, text)
}

/// A failure with the text of a fault: its place and its cause, and `!` if it is committed.
fn failure(fault: &ParseFault<()>) -> Fail {
    let mark = if fault.committed { "!" } else { "" };
    Fail::new(format_args!("{}: {}{mark}", fault.pos, fault.cause))
}

/// The value that was parsed, or a failure with the text of the fault.
fn value<X: Drop>(answer: ParseResult<X, ()>) -> Result<X, Fail> {
    match answer {
        Ok(value) => Ok(value),
        Err(fault) => {
            let fail = failure(&fault);
            drop(fault);
            Err(fail)
        }
    }
}

/// Parses the numbers of a group, up to its bracket.
fn push_numbers(stream: &mut TextStream, numbers: &mut Vec<u64>) -> Result<(), Fail> {
    for _ in 0..u64::MAX {
        if stream.accept_spaced("]") {
            break;
        }
        stream.skip(Class::WhiteSpace);
        numbers.push(value(int_parse(stream))?)?;
    }
    Ok(())
}

/// Parses a group after its bracket.
fn group(alloc: Global, stream: &mut TextStream) -> Result<Group, Fail> {
    let word = value(identifier_parse(stream))?;
    let mut group = Group {
        word,
        numbers: Vec::new(alloc),
    };
    match push_numbers(stream, &mut group.numbers) {
        Ok(()) => Ok(group),
        Err(fail) => {
            drop(group);
            Err(fail)
        }
    }
}

/// Parses a quoted text.
fn quoted(stream: &mut TextStream) -> Result<String, Fail> {
    stream.skip(Class::WhiteSpace);
    value(quoted_string_parse(stream))
}

/// Parses the texts of a row, up to its arrow.
fn push_texts(stream: &mut TextStream, texts: &mut Vec<String>) -> Result<(), Fail> {
    for _ in 0..u64::MAX {
        texts.push(quoted(stream)?)?;
        if stream.accept_spaced("->") {
            break;
        }
    }
    Ok(())
}

/// Parses the texts of a row, and what has to be said of them. The row has neither before.
fn fill(stream: &mut TextStream, row: &mut Row) -> Result<(), Fail> {
    push_texts(stream, &mut row.texts)?;
    row.wanted = quoted(stream)?;
    Ok(())
}

/// Parses a row.
fn row(alloc: Global, stream: &mut TextStream) -> Result<Row, Fail> {
    let line = stream.locate(stream.position()).line;
    let mut row = Row {
        line,
        texts: Vec::new(alloc),
        wanted: String::new(alloc),
    };
    match fill(stream, &mut row) {
        Ok(()) => Ok(row),
        Err(fail) => {
            drop(row);
            Err(fail)
        }
    }
}

/// Parses what comes next in a file without comments: a group, a row, or its end.
pub(crate) fn next(alloc: Global, stream: &mut TextStream) -> Result<Item, Fail> {
    stream.skip(Class::WhiteSpace);
    if stream.peek().is_none() {
        return Ok(Item::End);
    }
    if stream.accept("[") {
        return Ok(Item::Group(group(alloc, stream)?));
    }
    Ok(Item::Row(row(alloc, stream)?))
}
