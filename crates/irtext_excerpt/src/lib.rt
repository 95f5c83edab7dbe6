//! Excerpts of texts for people: the line of a position, and below it a caret under the position's character. And texts as they are
//! shown there, with no character that a terminal would take for a command.
#![tactic(auto)]

ghost use Rattle.std.specs.Prelude.{◌≡◌, Some};
ghost use Rattle.std.specs.Fmt.{WritesOnOk};
ghost use Rattle.std.specs.Str.{chars, encode_utf8_all};
ghost use Rattle.irtext_excerpt.specs.Excerpt.{blanks, dots, left_of, right_of, preceding, lead_bytes, excerpt_bytes};

mod characters;
mod cuts;
mod lines;

pub use characters::{Code, Shown, ShownLines, is_coded};
use characters::{fmt_blanks, fmt_shown};
use cuts::{first_shown, is_cut, last_shown};
use irtext_base::parsable::SourcePosition;
use lines::place_in;
use std::fmt;

/// The line of a position in a text, and below it a caret under the position's character, as a `Display`. For line 2 and column 10 of
/// a text whose second line is `  %1 = op;` it prints
///
/// ```text
///   %1 = op;
///          ^
/// ```
///
/// without a newline at the end. It is printed after the text of an error. Printing it allocates nothing, and fails only if the writer
/// does.
///
/// Lines end at `\n`; a carriage return at the end of a line is not shown. Columns count characters. If the line has fewer, the caret is
/// after its last character, and if the text has fewer lines, it is after the last character of the last line. A number below 1 means 1.
///
/// A tab is shown as one space. A character that does not print is shown by its code, as `U+FEFF`, and the caret is below the first
/// character of that: control characters, the soft hyphen, spaces and joiners without width, separators of lines and paragraphs, marks of
/// direction, invisible operators, and the byte order mark. Any other character is shown as itself.
///
/// The caret is below its character in a terminal: a character takes the columns that `unicode_width` gives it, none for a mark that is
/// combined with the character before it, and two for a wide one as `漢`. (The caret of such a mark is one column after its base.)
///
/// At most 60 characters before the caret are shown, which take at most 60 columns, and as many from it on; `..` marks where the line was
/// cut. The time is linear in the text.
#[derive(Clone, Copy, Debug)]
pub struct Excerpt<'a> {
    /// The whole text.
    pub text: &'a str,
    /// A position in it.
    pub position: SourcePosition,
}

impl fmt::Display for Excerpt<'_> {
    ghost output = { λ e. Some (excerpt_bytes e.text.now e.position.line e.position.column) };

    fn fmt<W: fmt::Write>(&self, f: &mut fmt::Formatter<W>) -> fmt::Result {
        let lead = Lead { excerpt: *self };
        write!(f, "{lead}^")
    }
}

/// An excerpt without its caret, as a `Display`: up to where the caret stands. So a caller can print the caret in a colour.
#[derive(Clone, Copy, Debug)]
pub struct Lead<'a> {
    /// The excerpt.
    pub excerpt: Excerpt<'a>,
}

impl fmt::Display for Lead<'_> {
    ghost output = { λ l. Some (lead_bytes l.excerpt.text.now l.excerpt.position.line l.excerpt.position.column) };

    fn fmt<W: fmt::Write>(&self, f: &mut fmt::Formatter<W>) -> fmt::Result {
        let Excerpt { text, position } = self.excerpt;
        let lines = preceding(&position.line);
        let characters = preceding(&position.column);
        let (before, rest) = place_in(text, lines, characters);
        fmt_left(before, f)?;
        fmt_right(rest, f)?;
        f.write_str("\n")?;
        fmt_margin(before, f)
    }
}

/// Returns how many lines or columns come before the one with this number. None come before a number below 1.
fn preceding(number: &i32) -> usize
    ensures { result ≡ preceding number.now }
{
    if *number < 1 { 0 } else { *number as usize - 1 }
}

/// Returns the mark of a cut where there is one.
fn dots(is_cut: bool) -> &'static str
    ensures { result.now ≡ dots is_cut }
{
    if is_cut { ".." } else { "" }
}

/// Returns as many spaces as `dots` has columns.
fn blank_dots(is_cut: bool) -> &'static str
    ensures { result.now ≡ blanks (dots is_cut) }
{
    if is_cut { "  " } else { "" }
}

/// Appends the part of a line before the caret.
fn fmt_left<W: fmt::Write>(before: &str, f: &mut fmt::Formatter<W>) -> fmt::Result
    ensures { WritesOnOk W.write_str_gives f.old result (encode_utf8_all (left_of (chars before.now))) f.new }
{
    let last = last_shown(before);
    f.write_str(dots(is_cut(last, before)))?;
    fmt_shown(last, f)
}

/// Appends as many spaces as what `fmt_left` appends takes columns.
fn fmt_margin<W: fmt::Write>(before: &str, f: &mut fmt::Formatter<W>) -> fmt::Result
    ensures { WritesOnOk W.write_str_gives f.old result (blanks (left_of (chars before.now))) f.new }
{
    let last = last_shown(before);
    f.write_str(blank_dots(is_cut(last, before)))?;
    fmt_blanks(last, f)
}

/// Appends the part of a line from the caret on.
fn fmt_right<W: fmt::Write>(rest: &str, f: &mut fmt::Formatter<W>) -> fmt::Result
    ensures { WritesOnOk W.write_str_gives f.old result (encode_utf8_all (right_of (chars rest.now))) f.new }
{
    let first = first_shown(rest);
    fmt_shown(first, f)?;
    f.write_str(dots(is_cut(first, rest)))
}
