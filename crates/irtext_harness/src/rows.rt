//! Files of rows: texts, and what has to be said of each. `#` at the beginning of a line makes it a comment. A word in brackets begins a
//! group; in it each row is one or more quoted texts, `->`, and what is wanted, quoted too. For each row of which something else is said,
//! the program prints its line, what is wanted, and what is said; at the end the number of rows. Its status is 1 if a row differs or the
//! file is no file of rows. A text that a row lacks is empty, and a number 0.
//!
//! The groups, with the texts of a row. Each row has a context of its own, with the demo dialects if nothing else is said.
//!
//! - `[beside]` TEXT: parsed as a root beside a live root. Said: `read`, or the error, with `!` if it is committed. If it is rejected, the
//!   live root, the number of objects and the recorded marks have to be unchanged, and one more call has to fail as it should.
//! - `[beside_format]` LETTERS TEXT: the same with `test.z` in the format of these letters (`formats.rt` of `irtext_tests_common`).
//! - `[block]` TEXT: the same for a block, which is always rejected.
//! - `[region]` ROOT TEXT: the text is parsed as a region of the root. Said: `last` or the error, whether a mark is recorded, and how many
//!   regions the root has.
//! - `[second]`, `[second_text]` TEXT: two roots on one stream. Said: the location of the second and the number of objects; its text.
//! - `[same_mark]` TEXT: two operations with one mark. Said: whether the first one's mark is recorded, the error, the number of objects.
//! - `[whole N]` TEXT: N whole texts on one stream. Said of the last: `root` or the error, whether a mark is recorded, and the number of
//!   objects.
//! - `[after]` TEXT TEXT TEXT: an operation whose mark stays recorded, and then two whole texts. Said of each: the same, and the location of
//!   the operation.
//! - `[noted N]` TEXT: a root after N others. Said: its error, and the position that a second look finds for it: the first use, or the first
//!   definition. `[end_of_root]` TEXT: the position where the first root ends, whatever its names, or `none`.
//! - `[value]`, `[label]` TEXT: used as a value or a label outside of every region. Said: the error.
//! - `[operand]` ROOT PATH INDEX PATH INDEX: an operand, and the value that it has to be. Said: its name, and the number of its uses.
//! - `[successor]` ROOT PATH INDEX PATH: a successor, and the block that it has to be. Said: the number of its uses. A path is a list of
//!   indices with dots: of a region, a block, an operation, a region and so on.
//! - `[format]` LETTERS OPERATION: `test.z` in this format, in a block `b` of the arguments `x` and `y`. Said: a part of the printed text,
//!   which is parsed back.
//! - `[directives]` LETTERS TEXT: `lab.d` in this format, isolated, in an empty context. Said: the concrete text, or the error.
//! - `[counters VALUE PLACE]` TEXT ..: texts that are parsed one after the other in a context whose next value and place have these numbers.
//!   Said of the last: its concrete text or the cause, and the number of objects.
//! - `[ended]`, `[replaced]` PIECE RULE ..: the text of all pieces ends at each of its characters in turn, or has `#` in its place. A rule
//!   says what is said in its piece: `expected ..`, `N before: ..` or the printed text. Said: the number of places.
//! - `[printed]`, `[concrete]`, `[elided]`, `[layout SPACES BEFORE LEVELS]`, `[unlocated]`, `[unlocated_concrete]`, `[appended_debugged]`,
//!   `[debugged]`, `[header]`, `[typed_header]`, `[braces]` TEXT, `[in_file]` TEXT PATH, `[afterwards]` TEXT PATH: a text of the root (see
//!   `printing.rt`), or the error and the number of objects.
//! - `[kept]` TEXT: the same after `keeps_parts`. `[objects]` TEXT: the number of objects.

mod beside;
mod broken;
mod counters;
mod file;
mod following;
mod formats;
mod modes;
mod names;
mod places;
mod printing;
mod row;
mod said;
mod streams;
mod uses;

use crate::rows::file::{next, without_comments};
use crate::rows::row::{Given, Group, Item, Row};
use pliron_text::parsable::TextStream;
use std::io::Write;
use std::mem::replace;
use std::process::{ExitCode, Termination};
use std::test::Fail;

/// How many rows there are, and how many of them differ.
#[derive(Clone, Copy)]
struct Count {
    rows: u64,
    differing: u64,
}

impl Count {
    /// The count with one more row.
    fn with(self, holds: bool) -> Count {
        Count {
            rows: self.rows.saturating_add(1),
            differing: self.differing.saturating_add(if holds { 0 } else { 1 }),
        }
    }
}

/// Whether what is said of a row is what is wanted. Prints both if not.
fn is_wanted(rt: &HostRuntime, row: &Row, said: &str) -> Result<bool, Fail> {
    let wanted = row.wanted.as_str();
    if said == wanted {
        return Ok(true);
    }
    println!(rt; "line {}: wanted {wanted:?}, said {said:?}", row.line)?;
    Ok(false)
}

/// The same for the result of a row. If there is none, prints why.
fn holds(rt: &HostRuntime, row: &Row, answer: Result<String, Fail>) -> Result<bool, Fail> {
    match answer {
        Ok(said) => {
            let holds = is_wanted(rt, row, said.as_str());
            drop(said);
            holds
        }
        Err(fail) => {
            let none: Result<(), Fail> = Err(fail);
            let _ = none.report(rt);
            println!(rt;
                "line {}: wanted {:?}, and nothing is said",
                row.line, row.wanted
            )?;
            Ok(false)
        }
    }
}

/// Tries a row of a group.
fn tried(rt: &HostRuntime, group: &Option<Group>, row: &Row) -> Result<bool, Fail> {
    match group {
        Some(group) => holds(rt, row, modes::said(rt.alloc(), Given { group, row })),
        None => Err(Fail::from("the first row is in no group")),
    }
}

/// Does what comes next in a file without comments: a row is tried, and a group is that of the rows after it. Returns the count then, or
/// `None` at the file's end.
fn step(
    rt: &HostRuntime,
    stream: &mut TextStream,
    current: &mut Option<Group>,
    count: Count,
) -> Result<Option<Count>, Fail> {
    match next(rt.alloc(), stream)? {
        Item::End => Ok(None),
        Item::Group(group) => {
            drop(replace(current, Some(group)));
            Ok(Some(count))
        }
        Item::Row(row) => {
            let holds = tried(rt, current, &row);
            drop(row);
            Ok(Some(count.with(holds?)))
        }
    }
}

/// Tries the rows that are left of a file without comments.
fn rows(
    rt: &HostRuntime,
    stream: &mut TextStream,
    current: &mut Option<Group>,
) -> Result<Count, Fail> {
    let mut count = Count {
        rows: 0,
        differing: 0,
    };
    for _ in 0..u64::MAX {
        match step(rt, stream, current, count)? {
            Some(then) => count = then,
            None => break,
        }
    }
    Ok(count)
}

/// Tries the rows of a file without comments.
fn counted(rt: &HostRuntime, text: &str) -> Result<Count, Fail> {
    let mut stream = TextStream::new(rt.alloc(), text)?;
    let mut current = None;
    let count = rows(rt, &mut stream, &mut current);
    drop(current);
    drop(stream);
    count
}

/// Tries the rows of a file without comments, and prints their number. Returns the exit status.
fn status_without_comments(rt: &HostRuntime, text: &str) -> Result<ExitCode, Fail> {
    let count = counted(rt, text)?;
    println!(rt; "{} rows, {} differ", count.rows, count.differing)?;
    Ok(ExitCode::from(if count.differing == 0 { 0 } else { 1 }))
}

/// Tries the rows of a file: prints each of which something else is said, and at the end their number. Returns the exit status.
pub(crate) fn status(rt: &HostRuntime, file: &str) -> Result<ExitCode, Fail> {
    let text = without_comments(rt.alloc(), file)?;
    let status = status_without_comments(rt, text.as_str());
    drop(text);
    status
}
