//! Prints what directives consist of. Each function appends to a formatter, and fails only if its writer does.
ghost use Rattle.std.specs.Prelude.{◌++◌, codes, flat_map};
ghost use Rattle.std.specs.Fmt.{WritesOnOk, decimal};
ghost use Rattle.std.specs.Str.{chars, encode_utf8_all};
ghost use Rattle.irtext_stream.specs.NotationPieces.{characters, spelled};

use std::fmt;

/// Writes a fixed text.
pub fn fmt_word<W: fmt::Write>(word: &str, f: &mut fmt::Formatter<W>) -> fmt::Result
    ensures { WritesOnOk W.write_str_gives f.old result (encode_utf8_all (characters word.now)) f.new }
{
    f.write_str(word)
}

/// Writes an index after a fixed text.
pub fn fmt_index<W: fmt::Write>(
    opening: &str,
    index: usize,
    f: &mut fmt::Formatter<W>,
) -> fmt::Result
    ensures { WritesOnOk W.write_str_gives f.old result (encode_utf8_all (characters opening.now ++ decimal
        index)) f.new }
{
    f.write_str(opening)?;
    write!(f, "{index}")
}

/// Writes an index between two fixed texts.
pub fn fmt_closed<W: fmt::Write>(
    opening: &str,
    index: usize,
    closing: &str,
    f: &mut fmt::Formatter<W>,
) -> fmt::Result
    ensures { WritesOnOk W.write_str_gives f.old result
        (encode_utf8_all (characters opening.now ++ (decimal index ++ characters closing.now))) f.new }
{
    fmt_index(opening, index, f)?;
    f.write_str(closing)
}

/// Writes a character of a literal, a backquote twice.
fn fmt_letter<W: fmt::Write>(c: char, f: &mut fmt::Formatter<W>) -> fmt::Result
    ensures { WritesOnOk W.write_str_gives f.old result (encode_utf8_all (spelled c)) f.new }
{
    if c == '`' {
        return f.write_str("``");
    }
    f.write_char(c)
}

/// Writes the characters of a literal.
fn fmt_letters<W: fmt::Write>(text: &str, f: &mut fmt::Formatter<W>) -> fmt::Result
    ensures { WritesOnOk W.write_str_gives f.old result
        (encode_utf8_all (flat_map spelled (chars text.now))) f.new }
{
    for c in text.chars() {
        fmt_letter(c, f)?;
    }
    Ok(())
}

/// Writes a literal, between backquotes.
pub fn fmt_literal<W: fmt::Write>(text: &str, f: &mut fmt::Formatter<W>) -> fmt::Result
    ensures { WritesOnOk W.write_str_gives f.old result
        (encode_utf8_all (codes "`" ++ (flat_map spelled (chars text.now) ++ codes "`"))) f.new }
{
    f.write_str("`")?;
    fmt_letters(text, f)?;
    f.write_str("`")
}
