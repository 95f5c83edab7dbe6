//! A message about a text as a line of JSON.
ghost use Rattle.std.specs.Prelude.{Some, ◌∷◌};
ghost use Rattle.std.specs.Fmt.{WritesOnOk};
ghost use Rattle.std.specs.Str.{chars};
ghost use Rattle.irtext_diagnostics.specs.Json.{json_plain, json_character, json_characters, json_text, json_place, json_head, json_said, json_name};
ghost use Rattle.irtext_diagnostics.specs.Json.{json_note, more_notes, json_notes, json_line};

use crate::messages::{Diagnostic, without_newline};
use irtext_excerpt::{Code, Excerpt, is_coded};
use std::fmt;

/// A message as one line of JSON, as a `Display`: an object, and a newline at its end. It is written here over several lines:
///
/// ```text
/// {"file":"loop.ir","line":4,"column":5,"severity":"error","cause":"unresolved-reference",
/// "message":"Identifier x was not resolved to any definition in the scope","name":"x",
/// "notes":[{"file":"loop.ir","line":6,"column":9,"severity":"note","message":"used here"}]}
/// ```
///
/// `line` and `column` count from 1, columns in characters; they are left out of a message without a place, and `name` where there is none.
/// Members are in this order.
///
/// In a text, a quotation mark and a backslash are written after a backslash, and a newline as `\n`. Any other character that does not print
/// is written by its code, as `\u001B`, so a terminal takes nothing in the line for a command. All others are written as they are. Writing it
/// allocates nothing, and fails only if the writer does.
#[derive(Clone, Copy, Debug)]
pub struct JsonLine<'a> {
    /// The message.
    pub diagnostic: Diagnostic<'a>,
    /// The word of its cause, as of `cause_word`.
    pub cause: &'a str,
    /// The name that it is about, as of `cause_name`.
    pub name: Option<&'a str>,
    /// More about it, as where a name is used.
    pub notes: &'a [Diagnostic<'a>],
}

impl fmt::Display for JsonLine<'_> {
    ghost output = { λ l. let d = l.diagnostic in Some (json_line d.severity d.path.now d.place d.message.now l.cause.now l.name l.notes.now) };

    fn fmt<W: fmt::Write>(&self, f: &mut fmt::Formatter<W>) -> fmt::Result {
        let head = Head {
            diagnostic: self.diagnostic,
        };
        let said = Said {
            cause: self.cause,
            message: self.diagnostic.message,
        };
        let name = Name { name: self.name };
        let notes = Notes { notes: self.notes };
        write!(f, "{head}{said}{name},\"notes\":[{notes}]}}\n")
    }
}

/// The members for a cause and a message.
#[derive(Drop)]
struct Said<'a> {
    cause: &'a str,
    message: &'a str,
}

impl fmt::Display for Said<'_> {
    ghost output = { λ s. Some (json_said s.cause.now s.message.now) };

    fn fmt<W: fmt::Write>(&self, f: &mut fmt::Formatter<W>) -> fmt::Result {
        let cause = Text { text: self.cause };
        let message = Text {
            text: without_newline(self.message),
        };
        write!(f, ",\"cause\":{cause},\"message\":{message}")
    }
}

/// A text between quotation marks.
#[derive(Drop)]
struct Text<'a> {
    text: &'a str,
}

impl fmt::Display for Text<'_> {
    ghost output = { λ t. Some (json_text t.text.now) };

    fn fmt<W: fmt::Write>(&self, f: &mut fmt::Formatter<W>) -> fmt::Result {
        f.write_str("\"")?;
        fmt_characters(self.text, f)?;
        f.write_str("\"")
    }
}

/// Appends the characters of a text.
fn fmt_characters<W: fmt::Write>(text: &str, f: &mut fmt::Formatter<W>) -> fmt::Result
    ensures { WritesOnOk W.write_str_gives f.old result (json_characters (chars text.now)) f.new }
{
    for c in text.chars() {
        fmt_character(c, f)?;
    }
    Ok(())
}

/// Appends a character.
fn fmt_character<W: fmt::Write>(c: char, f: &mut fmt::Formatter<W>) -> fmt::Result
    ensures { WritesOnOk W.write_str_gives f.old result (json_character c) f.new }
{
    match c {
        '"' => f.write_str("\\\""),
        '\\' => f.write_str("\\\\"),
        '\n' => f.write_str("\\n"),
        _ => fmt_plain(c, f),
    }
}

/// Appends a character that is written as it is, or by its code.
fn fmt_plain<W: fmt::Write>(c: char, f: &mut fmt::Formatter<W>) -> fmt::Result
    ensures { WritesOnOk W.write_str_gives f.old result (json_plain c) f.new }
{
    if c == '\t' || is_coded(c) {
        let code = Code { character: c };
        return write!(f, "\\u{code}");
    }
    f.write_char(c)
}

/// The members for a place.
#[derive(Drop)]
struct Position<'a> {
    place: Option<Excerpt<'a>>,
}

impl fmt::Display for Position<'_> {
    ghost output = { λ p. Some (json_place p.place) };

    fn fmt<W: fmt::Write>(&self, f: &mut fmt::Formatter<W>) -> fmt::Result {
        match self.place {
            Some(excerpt) => {
                let line = excerpt.position.line;
                let column = excerpt.position.column;
                write!(f, ",\"line\":{line},\"column\":{column}")
            }
            None => Ok(()),
        }
    }
}

/// The beginning of an object for a message: its file, its place and its severity.
#[derive(Drop)]
struct Head<'a> {
    diagnostic: Diagnostic<'a>,
}

impl fmt::Display for Head<'_> {
    ghost output = { λ h. let d = h.diagnostic in Some (json_head d.severity d.path.now d.place) };

    fn fmt<W: fmt::Write>(&self, f: &mut fmt::Formatter<W>) -> fmt::Result {
        let file = Text {
            text: self.diagnostic.path,
        };
        let place = Position {
            place: self.diagnostic.place,
        };
        let word = self.diagnostic.severity.word();
        write!(f, "{{\"file\":{file}{place},\"severity\":\"{word}\"")
    }
}

/// The member for a name, if there is one.
#[derive(Drop)]
struct Name<'a> {
    name: Option<&'a str>,
}

impl fmt::Display for Name<'_> {
    ghost output = { λ n. Some (json_name n.name) };

    fn fmt<W: fmt::Write>(&self, f: &mut fmt::Formatter<W>) -> fmt::Result {
        match self.name {
            Some(text) => {
                let name = Text { text };
                write!(f, ",\"name\":{name}")
            }
            None => Ok(()),
        }
    }
}

/// A note as an object.
#[derive(Drop)]
struct Note<'a> {
    diagnostic: Diagnostic<'a>,
}

impl fmt::Display for Note<'_> {
    ghost output = { λ n. Some (json_note n.diagnostic) };

    fn fmt<W: fmt::Write>(&self, f: &mut fmt::Formatter<W>) -> fmt::Result {
        let head = Head {
            diagnostic: self.diagnostic,
        };
        let message = Text {
            text: without_newline(self.diagnostic.message),
        };
        write!(f, "{head},\"message\":{message}}}")
    }
}

/// Notes, with commas between them.
#[derive(Drop)]
struct Notes<'a> {
    notes: &'a [Diagnostic<'a>],
}

impl fmt::Display for Notes<'_> {
    ghost output = { λ n. Some (json_notes n.notes.now) };

    fn fmt<W: fmt::Write>(&self, f: &mut fmt::Formatter<W>) -> fmt::Result {
        match self.notes {
            [] => Ok(()),
            [first, rest @ ..] => {
                let first = Note { diagnostic: *first };
                write!(f, "{first}")?;
                fmt_more(rest, f)
            }
        }
    }
}

/// Appends notes, each after a comma.
fn fmt_more<W: fmt::Write>(notes: &[Diagnostic<'_>], f: &mut fmt::Formatter<W>) -> fmt::Result
    ensures { WritesOnOk W.write_str_gives f.old result (more_notes notes.now) f.new }
{
    for note in notes {
        fmt_next(note, f)?;
    }
    Ok(())
}

/// Appends a note after a comma.
fn fmt_next<W: fmt::Write>(note: &Diagnostic<'_>, f: &mut fmt::Formatter<W>) -> fmt::Result
    ensures { WritesOnOk W.write_str_gives f.old result (44 ∷ json_note note.now) f.new }
{
    let note = Note { diagnostic: *note };
    write!(f, ",{note}")
}
