//! Characters as an excerpt shows them, and the columns of a terminal that they take.
ghost use Rattle.std.specs.Prelude.{◌≡◌, ◌≤◌, [], ◌∷◌, Some, replicate};
ghost use Rattle.std.specs.Fmt.{WritesOnOk};
ghost use Rattle.std.specs.Str.{chars, encode_utf8_all};
ghost use Rattle.irtext_excerpt.specs.Excerpt.{is_coded, zeros, code_of, glyph, columns_of, shown_as, shown, shown_lines, columns, blanks};

use std::fmt;
use unicode_width::UnicodeWidthChar;

/// A text as an excerpt shows it, as a `Display`: a tab as one space, and a character that does not print by its code, as `U+001B`. So a
/// terminal takes nothing in it for a command. A newline is shown by its code too.
///
/// ```
/// format!(in alloc; "{}", Shown { text: "a\tb\u{7}" })?    // a bU+0007
/// ```
#[derive(Clone, Copy, Debug)]
pub struct Shown<'a> {
    /// The text.
    pub text: &'a str,
}

impl fmt::Display for Shown<'_> {
    ghost output = { λ s. Some (encode_utf8_all (shown (chars s.text.now))) };

    fn fmt<W: fmt::Write>(&self, f: &mut fmt::Formatter<W>) -> fmt::Result {
        fmt_shown(self.text, f)
    }
}

/// A text of several lines as `Shown` shows it, but with its newlines as they are.
#[derive(Clone, Copy, Debug)]
pub struct ShownLines<'a> {
    /// The text.
    pub text: &'a str,
}

impl fmt::Display for ShownLines<'_> {
    ghost output = { λ s. Some (encode_utf8_all (shown_lines (chars s.text.now))) };

    fn fmt<W: fmt::Write>(&self, f: &mut fmt::Formatter<W>) -> fmt::Result {
        fmt_shown_lines(self.text, f)
    }
}

/// The code of a character in hexadecimal, with upper-case letters and at least four digits, as a `Display`: `FEFF`, `000A`.
#[derive(Clone, Copy, Debug)]
pub struct Code {
    /// The character.
    pub character: char,
}

impl fmt::Display for Code {
    ghost output = { λ code. Some (code_of code.character) };

    fn fmt<W: fmt::Write>(&self, f: &mut fmt::Formatter<W>) -> fmt::Result {
        let code = self.character as u32;
        let zeros = zeros(code);
        write!(f, "{zeros}{code:X}")
    }
}

/// Appends a character of several lines as it is shown: a newline as it is.
fn fmt_in_lines<W: fmt::Write>(c: char, f: &mut fmt::Formatter<W>) -> fmt::Result
    ensures { WritesOnOk W.write_str_gives f.old result (encode_utf8_all (shown_lines (c ∷ []))) f.new }
{
    if c == '\n' {
        return f.write_char('\n');
    }
    fmt_character(c, f)
}

/// Appends the characters of several lines as they are shown.
fn fmt_shown_lines<W: fmt::Write>(text: &str, f: &mut fmt::Formatter<W>) -> fmt::Result
    ensures { WritesOnOk W.write_str_gives f.old result (encode_utf8_all (shown_lines (chars text.now))) f.new }
{
    for c in text.chars() {
        fmt_in_lines(c, f)?;
    }
    Ok(())
}

/// Appends the characters of a text as they are shown.
pub(crate) fn fmt_shown<W: fmt::Write>(text: &str, f: &mut fmt::Formatter<W>) -> fmt::Result
    ensures { WritesOnOk W.write_str_gives f.old result (encode_utf8_all (shown (chars text.now))) f.new }
{
    for c in text.chars() {
        fmt_character(c, f)?;
    }
    Ok(())
}

/// Appends as many spaces as what `fmt_shown` appends takes columns.
pub(crate) fn fmt_blanks<W: fmt::Write>(text: &str, f: &mut fmt::Formatter<W>) -> fmt::Result
    ensures { WritesOnOk W.write_str_gives f.old result (blanks (shown (chars text.now))) f.new }
{
    for c in text.chars() {
        f.write_str(blanks_of(c))?;
    }
    Ok(())
}

/// Appends a character as it is shown.
fn fmt_character<W: fmt::Write>(c: char, f: &mut fmt::Formatter<W>) -> fmt::Result
    ensures { WritesOnOk W.write_str_gives f.old result (encode_utf8_all (shown_as c)) f.new }
{
    if is_coded(c) {
        let code = Code { character: c };
        return write!(f, "U+{code}");
    }
    f.write_char(glyph(c))
}

/// Returns the character that is shown for one that is not shown by its code: a space for a tab.
fn glyph(c: char) -> char
    ensures { result ≡ glyph c }
{
    if c == '\t' { ' ' } else { c }
}

/// Returns the zeros before a code in hexadecimal that has fewer than four digits.
fn zeros(code: u32) -> &'static str
    ensures { result.now ≡ zeros code }
{
    match code {
        0..=0xf => "000",
        0x10..=0xff => "00",
        0x100..=0xfff => "0",
        _ => "",
    }
}

/// Returns as many spaces as what `fmt_character` appends takes columns.
fn blanks_of(c: char) -> &'static str
    ensures { result.now ≡ blanks (shown_as c) }
{
    if is_coded(c) {
        "      "
    } else {
        spaces(columns_of(glyph(c)))
    }
}

/// Returns how many columns of a terminal a character takes as it is shown: at most 6.
pub(crate) fn shown_columns(c: char) -> usize
    ensures value { result ≡ columns (shown_as c) }
    ensures bound { result ≤ 6 }
{
    if is_coded(c) { 6 } else { columns_of(glyph(c)) }
}

/// Returns how many columns of a terminal a character takes: at most 3.
fn columns_of(c: char) -> usize
    ensures value { result ≡ columns_of c }
    ensures bound { result ≤ 3 }
{
    match c.width() {
        Some(columns) => columns,
        None => 0,
    }
}

/// Returns so many spaces, at most 3.
fn spaces(n: usize) -> &'static str
    requires { n ≤ 3 }
    ensures { result.now ≡ replicate n 32 }
{
    match n {
        0 => "",
        1 => " ",
        2 => "  ",
        _ => "   ",
    }
}

/// Whether an excerpt shows a character by its code: a control character but the tab, or a character that has no glyph.
pub fn is_coded(c: char) -> bool
    ensures { result ≡ is_coded c }
{
    match c {
        '\t' => false,
        '\0'..='\x1f' | '\x7f'..='\u{9f}' | '\u{ad}' | '\u{feff}' => true,
        '\u{200b}'..='\u{200f}' | '\u{2028}'..='\u{202e}' | '\u{2060}'..='\u{206f}' => true,
        _ => false,
    }
}
