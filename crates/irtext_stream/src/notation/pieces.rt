//! The parsers of what directives consist of.
ghost use Rattle.std.specs.Prelude.{◌≡◌, [], Some, None, false, MatchBool, MatchOption, string_bytes};
ghost use Rattle.std.specs.Str.{chars};
ghost use Rattle.irtext_stream.specs.Places.{AtPlace};
ghost use Rattle.irtext_stream.specs.Text.{begins, begins_word};
ghost use Rattle.irtext_stream.specs.NotationPieces.{characters, is_end, past, index_at, closed_at, letters_after};
ghost use Rattle.irtext_stream.specs.NotationFaults.{IsNoLetter, IsUnmet, Reads, TakesLetter, whole};

use crate::class::Class;
use crate::notation::fault::{NotationFault, NotationPart};
use crate::position::Place;
use crate::stream::TextStream;
use irtext_memory::string;

/// Returns the error that this part is expected at a position that `position` returned on this stream.
pub fn lack_at(stream: &TextStream, place: Place, expected: NotationPart) -> NotationFault
    ensures { AtPlace place stream.now (λ passed rest. IsUnmet (whole stream.now) expected rest result) }
{
    NotationFault::Unexpected {
        at: stream.locate(place),
        expected,
    }
}

/// Returns the error that this part is expected at the stream's position.
pub fn lack(stream: &TextStream, expected: NotationPart) -> NotationFault
    ensures { IsUnmet (whole stream.now) expected stream.now.rest result }
{
    lack_at(stream, stream.position(), expected)
}

/// If `word` comes next, consumes it and returns true. Otherwise returns false and leaves the stream unchanged.
pub fn past(stream: &mut TextStream, word: &str) -> bool
    ensures { MatchBool result
        ((past (characters word.now) stream.old.rest ≡ Some stream.new.rest)
        × (whole stream.new ≡ whole stream.old))
        ((past (characters word.now) stream.old.rest ≡ None) × (stream.new ≡ stream.old)) }
{
    stream.accept(word)
}

/// Parses an index. If there is none, or its number doesn't fit, `expected` is expected where it begins.
pub fn index(stream: &mut TextStream, expected: NotationPart) -> Result<usize, NotationFault>
    ensures { Reads (λ i. i) (whole stream.old) (index_at expected stream.old.rest) result stream.new }
{
    let place = stream.position();
    stream.skip(Class::Digit);
    match stream.text_since(place).parse::<usize>() {
        Ok(index) => Ok(index),
        Err(_) => Err(lack_at(stream, place, expected)),
    }
}

/// Parses an index and this word after it, which is otherwise expected there as `expected`.
pub fn closed(
    stream: &mut TextStream,
    close: &str,
    expected: NotationPart,
) -> Result<usize, NotationFault>
    ensures { Reads (λ i. i) (whole stream.old) (closed_at (characters close.now) expected stream.old.rest)
        result stream.new }
{
    let index = index(stream, NotationPart::Index)?;
    if !past(stream, close) {
        return Err(lack(stream, expected));
    }
    Ok(index)
}

/// Whether the stream is at the end of its text.
pub fn ended(stream: &TextStream) -> bool
    ensures { result ≡ is_end stream.now.rest }
{
    stream.peek().is_none()
}

/// Whether an identifier comes next.
pub fn next_is_key(stream: &TextStream) -> bool
    ensures { result ≡ begins begins_word stream.now.rest }
{
    match stream.peek() {
        Some(c) => Class::Beginning.has(c),
        None => false,
    }
}

/// Consumes and returns the next character if it is printable ASCII. Otherwise returns `None` and leaves the stream unchanged.
fn letter(stream: &mut TextStream) -> Option<char>
    ensures { MatchOption result (IsNoLetter stream.old stream.new) (λ c. TakesLetter c stream.old
        stream.new) }
{
    let c = stream.peek()?;
    if !c.is_ascii_graphic() {
        return None;
    }
    let _ = stream.take();
    Some(c)
}

/// Parses the characters of a literal, and the backquote after them.
pub fn letters(stream: &mut TextStream) -> Result<String, NotationFault>
    ensures { Reads (λ s. chars (string_bytes s)) (whole stream.old) (letters_after [] false stream.old.rest)
        result stream.new }
{
    let mut text = String::new(stream.allocator());
    while let Some(c) = letter(stream) {
        if c == '`' && !past(stream, "`") {
            return Ok(text);
        }
        string::push(&mut text, c)?;
    }
    Err(lack(stream, NotationPart::Backquote))
}
