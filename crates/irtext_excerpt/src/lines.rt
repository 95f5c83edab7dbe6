//! The lines of a text, and the parts of a line on both sides of a place.
ghost use Rattle.std.specs.Prelude.{◌≡◌, take, drop, length};
ghost use Rattle.std.specs.Str.{chars};
ghost use Rattle.irtext_stream.specs.Text.{front};
ghost use Rattle.irtext_excerpt.specs.Excerpt.{is_in_line, without_return, InPlace, HasParts};

/// Returns the part of a line before a place, and the part from it on. The place is after so many line breaks, and then after so many
/// characters. It is at the end of the last line if the text has fewer line breaks, and at the end of its line if that has fewer
/// characters.
pub(crate) fn place_in(text: &str, lines: usize, characters: usize) -> (&str, &str)
    ensures { InPlace (chars text.now) lines characters result.0.now result.1.now }
{
    let mut rest = text;
    for _line in 0..lines {
        match rest.split_once('\n') {
            Some((_, next)) => rest = next,
            None => return (without_return(rest), ""),
        }
    }
    split_after(without_return(first_line(rest)), characters)
}

/// Returns a text up to its first newline.
fn first_line(text: &str) -> &str
    ensures { chars result.now ≡ front is_in_line (chars text.now) }
{
    match text.split_once('\n') {
        Some((line, _)) => line,
        None => text,
    }
}

/// Returns a line without the carriage return at its end, if there is one.
fn without_return(line: &str) -> &str
    ensures { chars result.now ≡ without_return (chars line.now) }
{
    match line.strip_suffix('\r') {
        Some(text) => text,
        None => line,
    }
}

/// Returns the first `n` characters of a text, and those after them.
pub(crate) fn split_after(text: &str, n: usize) -> (&str, &str)
    ensures { HasParts result.0.now result.1.now (take n (chars text.now)) (drop n (chars text.now)) }
{
    let mut at = 0;
    for c in text.chars().take(n) {
        at += c.len_utf8();
    }
    text.split_at(at)
}

/// Returns the number of characters of a text.
pub(crate) fn count(text: &str) -> usize
    ensures { result ≡ length (chars text.now) }
{
    text.chars().count()
}
