//! The place of bytes that are not UTF-8.
ghost use Rattle.std.specs.Prelude.{◌≡◌, ◌+◌, IsUtf8, MatchOption};
ghost use Rattle.std.specs.Str.{chars};
ghost use Rattle.irtext_stream.specs.Stream.{cut, IsAt};
ghost use Rattle.irtext_diagnostics.specs.Utf8.{IsRejected};

use irtext_base::parsable::SourcePosition;
use std::str::from_utf8;

/// Why bytes are not UTF-8: the first byte that no character can have at its place, and where it is.
#[derive(Clone, Copy, Debug)]
pub struct InvalidUtf8<'a> {
    /// The bytes before it, as a text. With `position` it has an excerpt, whose caret is after the text's last character.
    pub valid: &'a str,
    /// The line and the column of the byte, from 1, in characters.
    pub position: SourcePosition,
    /// The byte. If it begins a character, then the bytes after it do not go on with that, or are too few.
    pub byte: u8,
}

/// Returns why bytes are not UTF-8, or nothing if they are. `valid` is the longest beginning of the bytes that is UTF-8.
///
/// ```
/// invalid_utf8(b"a\nb\xff")    // line 2, column 2, byte 0xff
/// ```
pub fn invalid_utf8(bytes: &[u8]) -> Option<InvalidUtf8<'_>>
    ensures { MatchOption result (IsUtf8 bytes.now) (λ it. IsRejected bytes.now it.valid.now it.position it.byte) }
{
    let Err(error) = from_utf8(bytes) else {
        return None;
    };
    let end = error.valid_up_to();
    let Ok(valid) = from_utf8(&bytes[..end]) else {
        unreachable!()
    };
    Some(InvalidUtf8 {
        valid,
        position: position_after(valid),
        byte: bytes[end],
    })
}

/// Returns the line and the column of the end of a text.
fn position_after(text: &str) -> SourcePosition
    ensures { IsAt result.line result.column (chars text.now) }
{
    let mut lines: usize = 0;
    let mut characters: usize = 0;
    for c in text.chars() {
        if c == '\n' {
            lines = lines.saturating_add(1);
            characters = 0;
        } else {
            characters = characters.saturating_add(1);
        }
    }
    SourcePosition {
        line: number(lines),
        column: number(characters),
    }
}

/// Returns the number of a line or a column that comes after so many others, capped at `i32::MAX`.
fn number(following: usize) -> i32
    ensures { result ≡ cut (1 + following) }
{
    if following < i32::MAX as usize {
        following as i32 + 1
    } else {
        i32::MAX
    }
}
