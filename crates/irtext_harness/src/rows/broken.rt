//! A text that ends early, or in which a character is replaced, at each of its characters in turn. It is given in pieces, each followed by
//! what is said if the text is broken in that piece.
use crate::fault::written;
use crate::rows::modes::Trial;
use crate::rows::row::Row;
use crate::rows::said::if_said;
use pliron_text::parsable::SourcePosition;
use std::alloc::{AllocError, Global};
use std::fmt::Write;
use std::test::Fail;

/// How a text is broken.
#[derive(Clone, Copy)]
pub(crate) enum Break {
    /// It ends.
    End,
    /// The character there is `#`.
    Character,
}

impl Break {
    /// How an error names what is found there.
    fn found(self) -> &'static str {
        match self {
            Break::End => "end of input",
            Break::Character => "`#`",
        }
    }
}

/// The text of a row, which consists of every second of its texts, how it is broken, and where: at an offset in a piece that begins at
/// `from`.
#[derive(Clone, Copy)]
struct Broken<'t> {
    text: &'t str,
    way: Break,
    from: usize,
    at: usize,
}

/// Appends the pieces, one after the other.
fn push_pieces(row: &Row, text: &mut String) -> Result<(), Fail> {
    for (index, piece) in row.texts.iter().enumerate() {
        if index % 2 == 0 {
            text.push_str(piece.as_str())?;
        }
    }
    Ok(())
}

/// Appends the characters of a text from an offset up to another.
fn push_between(text: &str, from: usize, to: usize, out: &mut String) -> Result<(), AllocError> {
    for c in text.chars().skip(from).take(to.saturating_sub(from)) {
        out.push(c)?;
    }
    Ok(())
}

/// Appends the broken text.
fn push_broken(test: Broken<'_>, out: &mut String) -> Result<(), AllocError> {
    push_between(test.text, 0, test.at, out)?;
    match test.way {
        Break::End => Ok(()),
        Break::Character => {
            out.push('#')?;
            push_between(test.text, test.at.saturating_add(1), usize::MAX, out)
        }
    }
}

/// The line and the column of an offset.
fn place(text: &str, at: usize) -> SourcePosition {
    let mut place = SourcePosition { line: 1, column: 1 };
    for c in text.chars().take(at) {
        if c == '\n' {
            place = SourcePosition {
                line: place.line.saturating_add(1),
                column: 1,
            };
        } else {
            place.column = place.column.saturating_add(1);
        }
    }
    place
}

/// Appends the error if something else is expected at the break.
fn push_unexpected(test: Broken<'_>, rule: &str, out: &mut String) -> Result<(), AllocError> {
    let place = place(test.text, test.at);
    let found = test.way.found();
    // a fault is uncommitted if nothing was consumed
    let mark = if test.at == 0 { "" } else { "!" };
    write!(out, "{place}: Unexpected {found}, {rule}{mark}")
}

/// Appends the error so many characters before the piece: these words, and then the piece up to the break.
fn push_earlier(
    test: Broken<'_>,
    back: &str,
    words: &str,
    out: &mut String,
) -> Result<(), AllocError> {
    let back = back.parse::<usize>().unwrap_or(0);
    let place = place(test.text, test.from.saturating_sub(back));
    write!(out, "{place}: {words}")?;
    push_between(test.text, test.from, test.at, out)?;
    out.push('!')
}

/// Appends what has to be said of the broken text. A rule is `expected` and what is expected there, or a number,
/// ` before: ` and the words of an error so many characters before the piece. Any other rule is the text of a root that is printed.
fn push_wanted(test: Broken<'_>, rule: &str, out: &mut String) -> Result<(), AllocError> {
    if rule.starts_with("expected ") {
        return push_unexpected(test, rule, out);
    }
    match rule.split_once(" before: ") {
        Some((back, words)) => push_earlier(test, back, words, out),
        None => out.push_str(rule),
    }
}

/// What is said of a text beside a live root: its printed text, in a context of its own, or its fault.
fn said_of(alloc: Global, text: &str) -> Result<String, Fail> {
    let said = Trial::Beside(text).said(alloc)?;
    if said.as_str() != "read" {
        return Ok(said);
    }
    drop(said);
    Trial::Printed(text).said(alloc)
}

/// Adds a line if something else is said at an offset than what is wanted.
fn push_unless(lines: &mut String, at: usize, said: &str, wanted: &str) -> Result<(), Fail> {
    if said == wanted {
        return Ok(());
    }
    written(writeln!(lines, "at {at}: {said}"))
}

/// The broken text, and what has to be said of it.
#[derive(Drop)]
struct Texts {
    broken: String,
    wanted: String,
}

impl Texts {
    /// Appends both, which are empty before.
    fn fill(&mut self, test: Broken<'_>, rule: &str) -> Result<(), AllocError> {
        push_broken(test, &mut self.broken)?;
        push_wanted(test, rule, &mut self.wanted)
    }

    /// Adds a line if something else is said of the text, which is broken at this offset.
    fn add_unless(&self, alloc: Global, lines: &mut String, at: usize) -> Result<(), Fail> {
        let said = said_of(alloc, self.broken.as_str())?;
        let done = push_unless(lines, at, said.as_str(), self.wanted.as_str());
        drop(said);
        done
    }
}

/// The broken text, and what has to be said of it.
fn texts_of(alloc: Global, test: Broken<'_>, rule: &str) -> Result<Texts, Fail> {
    let mut texts = Texts {
        broken: String::new(alloc),
        wanted: String::new(alloc),
    };
    match texts.fill(test, rule) {
        Ok(()) => Ok(texts),
        Err(error) => {
            drop(texts);
            Err(Fail::from(error))
        }
    }
}

/// Adds a line if something else is said of the broken text.
fn add(alloc: Global, lines: &mut String, test: Broken<'_>, rule: &str) -> Result<(), Fail> {
    let texts = texts_of(alloc, test, rule)?;
    let done = texts.add_unless(alloc, lines, test.at);
    drop(texts);
    done
}

/// Adds a line for each place of a piece of which something else is said. Returns the offset of its end.
fn add_piece(
    alloc: Global,
    lines: &mut String,
    test: Broken<'_>,
    from: usize,
    parts: (&str, &str),
) -> Result<usize, Fail> {
    let to = from.saturating_add(parts.0.chars().count());
    for at in from..to {
        let broken = Broken {
            text: test.text,
            way: test.way,
            from,
            at,
        };
        add(alloc, lines, broken, parts.1)?;
    }
    Ok(to)
}

/// Adds the number of the places, after a line for each at which something else is said.
fn add_lines(alloc: Global, lines: &mut String, test: Broken<'_>, row: &Row) -> Result<(), Fail> {
    let mut next = 0_usize;
    for (index, piece) in row.texts.iter().enumerate() {
        if index % 2 == 0 {
            let parts = (piece.as_str(), row.text(index.saturating_add(1)));
            next = add_piece(alloc, lines, test, next, parts)?;
        }
    }
    written(write!(lines, "{next} places"))
}

/// The same for this text.
fn lines(alloc: Global, test: Broken<'_>, row: &Row) -> Result<String, Fail> {
    let mut lines = String::new(alloc);
    let done = add_lines(alloc, &mut lines, test, row);
    if_said(done, lines)
}

/// The text of all pieces.
fn joined(alloc: Global, row: &Row) -> Result<String, Fail> {
    let mut text = String::new(alloc);
    let done = push_pieces(row, &mut text);
    if_said(done, text)
}

/// The number of the places of a row, after a line for each at which something else is said.
pub(crate) fn said(alloc: Global, row: &Row, way: Break) -> Result<String, Fail> {
    let text = joined(alloc, row)?;
    let test = Broken {
        text: text.as_str(),
        way,
        from: 0,
        at: 0,
    };
    let lines = lines(alloc, test, row);
    drop(text);
    lines
}
