//! Formats whose directives are given as text, and roots with an operation in each format. The printed text of a root has to contain
//! the expected text of the operation, and has to parse back.

use crate::again::{fate, is_printed, say_alone};
use crate::said::Said;
use std::alloc::{AllocError, Global};

/// Separates two rows.
const BETWEEN: char = '\u{2}';

/// Separates the parts of a row: the format, the text of the root, and the expected text of the operation.
const PART: char = '\u{1}';

/// Appends why the format of these words is rejected, or `accepted`.
fn push_reason(alloc: Global, words: &str, out: &mut String) -> Result<(), AllocError> {
    let mut reason = String::new(alloc);
    let done = match say_alone(alloc, Some(words), "", &mut reason) {
        Ok(Said::NoFormat) => out.push_str(reason.as_str()),
        Ok(_) => out.push_str("accepted"),
        Err(error) => Err(error),
    };
    drop(reason);
    done
}

/// Checks a text with an operation in an accepted format, with an empty text for its print. Returns `back` if its printed text is printed
/// unchanged, `filled` if the print of that is.
fn fate_by(
    alloc: Global,
    words: &str,
    text: &str,
    wanted: &str,
    first: &mut String,
) -> Result<&'static str, AllocError> {
    if !is_printed(say_alone(alloc, Some(words), text, first)?)? {
        return Ok("wrong: it is not printed");
    }
    if !first.as_str().contains(wanted) {
        return Ok("wrong: it is printed otherwise");
    }
    fate(alloc, Some(words), first.as_str(), "back")
}

/// Does the same.
fn fate_of(
    alloc: Global,
    words: &str,
    text: &str,
    wanted: &str,
) -> Result<&'static str, AllocError> {
    let mut first = String::new(alloc);
    let fate = fate_by(alloc, words, text, wanted, &mut first);
    drop(first);
    fate
}

/// Checks a row, and appends what is said of it. If it has only a format, that is why the format is rejected, or `accepted`.
fn push_result(alloc: Global, row: &str, out: &mut String) -> Result<(), AllocError> {
    let Some((words, rest)) = row.split_once(PART) else {
        return push_reason(alloc, row, out);
    };
    match rest.split_once(PART) {
        Some((text, wanted)) => out.push_str(fate_of(alloc, words, text, wanted)?),
        None => Err(AllocError),
    }
}

/// Checks each row, and appends a line for each.
pub fn formats(alloc: Global, text: &str, out: &mut String) -> Result<(), AllocError> {
    for row in text.split(BETWEEN) {
        push_result(alloc, row, out)?;
        out.push('\n')?;
    }
    Ok(())
}
