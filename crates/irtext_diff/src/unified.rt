//! The text of a unified diff.

use crate::changes::{Change, find_changes};
use crate::hunks::{CONTEXT, hunk_len};
use std::alloc::{AllocError, Global};
use std::fmt::Write;

/// The lines of two texts, each with its line break.
#[derive(Clone, Copy)]
struct Texts<'t> {
    old: &'t [&'t str],
    new: &'t [&'t str],
}

/// Appends lines, each after a mark. A line without a line break, which is the last of its text, is said to be so.
fn write_lines(out: &mut String, mark: char, lines: &[&str]) -> Result<(), AllocError> {
    for line in lines {
        write!(out, "{mark}{line}")?;
        if !line.ends_with('\n') {
            out.push_str("\n\\ No newline at end of file\n")?;
        }
    }
    Ok(())
}

/// Appends where a hunk begins in a list and how many lines of it it has. An empty part is named by the line before it.
fn write_range(out: &mut String, mark: char, from: usize, to: usize) -> Result<(), AllocError> {
    let count = to.saturating_sub(from);
    let line = if count == 0 {
        from
    } else {
        from.saturating_add(1)
    };
    write!(out, " {mark}{line},{count}")
}

/// Returns a part of a list, or nothing if the list has no such part.
fn part<'t>(lines: &'t [&'t str], from: usize, to: usize) -> &'t [&'t str] {
    lines.get(from..to).unwrap_or(&[])
}

/// Appends a hunk: its changes, with the lines between and around them.
fn write_hunk(out: &mut String, texts: Texts<'_>, hunk: &[Change]) -> Result<(), AllocError> {
    let (Some(first), Some(last)) = (hunk.first(), hunk.last()) else {
        return Ok(());
    };
    let front = first.old_at.min(CONTEXT);
    let back = texts.old.len().saturating_sub(last.old_end()).min(CONTEXT);
    let end = last.old_end().saturating_add(back);
    out.push_str("@@")?;
    write_range(out, '-', first.old_at.saturating_sub(front), end)?;
    write_range(
        out,
        '+',
        first.new_at.saturating_sub(front),
        last.new_end().saturating_add(back),
    )?;
    out.push_str(" @@\n")?;
    let mut shown = first.old_at.saturating_sub(front);
    for change in hunk {
        write_lines(out, ' ', part(texts.old, shown, change.old_at))?;
        write_lines(out, '-', part(texts.old, change.old_at, change.old_end()))?;
        write_lines(out, '+', part(texts.new, change.new_at, change.new_end()))?;
        shown = change.old_end();
    }
    write_lines(out, ' ', part(texts.old, shown, end))
}

/// Appends the hunks.
fn write_hunks(out: &mut String, texts: Texts<'_>, changes: &[Change]) -> Result<(), AllocError> {
    let mut rest = changes;
    for _ in 0..changes.len() {
        if rest.is_empty() {
            break;
        }
        let (hunk, next) = rest.split_at(hunk_len(rest).min(rest.len()));
        write_hunk(out, texts, hunk)?;
        rest = next;
    }
    Ok(())
}

/// Appends what changes from the old text to the new one, as a unified diff with three lines of context, under these two names; nothing if
/// the texts are the same. It has the form that `patch` applies:
///
/// ```text
/// --- a.ir
/// +++ a.ir
/// @@ -1,3 +1,3 @@
///  builtin.module @m {
/// -^a():
/// +  ^a_block1v1():
///  }
/// ```
///
/// Returns whether the texts differ. Fails only if an allocation fails. The time is `n log n` in the number of lines.
pub fn write_unified(
    alloc: Global,
    names: (&str, &str),
    old: &str,
    new: &str,
    out: &mut String,
) -> Result<bool, AllocError> {
    if old == new {
        return Ok(false);
    }
    let old: Vec<&str> = old.split_inclusive('\n').collect(alloc)?;
    let new: Vec<&str> = new.split_inclusive('\n').collect(alloc)?;
    let texts = Texts {
        old: old.as_slice(),
        new: new.as_slice(),
    };
    let changes = find_changes(alloc, texts.old, texts.new)?;
    let (old_name, new_name) = names;
    write!(out, "--- {old_name}\n+++ {new_name}\n")?;
    write_hunks(out, texts, changes.as_slice())?;
    Ok(true)
}
