//! Families of types or attributes whose texts begin with dotted words: what comes after each word.
ghost use Rattle.std.specs.Prelude.{◌≡◌, ◌++◌, ◌∷◌, OnOk, OnErr, List, ℕ, Option, string_bytes, MatchOption, IfSome, Ok};
ghost use Rattle.std.specs.Str.{encode_utf8_all};
ghost use Rattle.irtext_base.specs.Appending.{OnlyAppends};
ghost use Rattle.irtext_base.specs.Answers.{Outcome, Gives, unless_failed};
ghost use Rattle.irtext_base.specs.Faults.{characters, demand_of};
ghost use Rattle.irtext_tokens.specs.Infix.{nothing, ◌▷◌};
ghost use Rattle.irtext_tokens.specs.MustRead.{MustRead};
ghost use Rattle.irtext_tokens.specs.Tokens.{space_at};
ghost use Rattle.irtext_syntax.specs.Tables.{ReadsTable};

use crate::part::Part;
use crate::sequence::demanded;
use crate::words::{dotted_parse, dotted_there};
use irtext_base::parsable::{CharStream, ParseResult, TextStream};
use irtext_base::result::{Cause, Expected};
use irtext_memory::{OutOfMemory, string};
use irtext_tokens::irfmt::faults::refuse;
use irtext_tokens::irfmt::parsers::skip_white_space;

/// The words of a family `E` of types or attributes, each with what comes after it. Most impls are on an enum with a variant for each word.
pub trait Table<E, A>: Copy {
    // the word that a text is, if it is one
    ghost word: { List ℕ → Option Self };
    // what is parsed after a word
    ghost following: { Self → List ℕ → Outcome E };

    /// Returns the word that the text is, or `None` if it is not one. `match_text!` says it in a row for each word.
    fn of(text: &str) -> Option<Self>
        ensures { result ≡ word text.now };

    /// Parses the rest of a value, after its word. Every error is committed.
    fn parse(self, stream: &mut TextStream) -> ParseResult<E, A>
        ensures { MustRead (λ s. s) (λ s v. v) (λ x. x) (following self) stream.old result stream.new };

    /// Parses the rest of a value as `parse` does, but returns `None` in place of any error, and the stream is unchanged then. It may also
    /// return `None` where `parse` finds a value, as this default does. Words that come often should have it: no error is made where it
    /// succeeds.
    fn parse_known(self, stream: &mut TextStream) -> Option<E>
        ensures { MatchOption result (stream.new ≡ stream.old)
            (λ x. MustRead {A = A} (λ s. s) (λ s v. v) (λ x. x) (following self) stream.old
            (Ok x) stream.new) }
    {
        None
    }
}

/// A value that is a word of a table, with nothing after it: an enum with a variant for each word.
pub trait Choice: Copy + Drop {
    // the value whose word a text is, if it is one
    ghost chosen: { List ℕ → Option Self };

    /// Returns the value whose word the text is, or `None` if it is no word.
    fn choice(text: &str) -> Option<Self>
        ensures { result ≡ chosen text.now };
}

impl<A, W: Choice> Table<W, A> for W {
    ghost word = { W.chosen };

    ghost following = { nothing };

    fn of(text: &str) -> Option<W> {
        W::choice(text)
    }

    fn parse(self, stream: &mut TextStream) -> ParseResult<W, A> {
        word_alone(stream, self)
    }
}

/// Returns the value of the row whose text this is, or `None` if it is none of them, as `match` does for numbers:
/// `match_text!(text; "eq" => Predicate::Equal, "ne" => Predicate::Different)`.
#[macro_export]
macro_rules! match_text {
    ($text:expr; $($row:literal => $value:expr),+ $(,)?) => {{
        let text = $text;
        $(if text == $row { Some($value) } else)+ { None }
    }};
}

/// Whether a text is one of these, as `matches!` does for numbers: `matches_text!(word, "eq" | "ne")`.
#[macro_export]
macro_rules! matches_text {
    ($text:expr, $($row:literal)|+) => {{
        let text = $text;
        $(text == $row)||+
    }};
}

/// Parses a word of the table, and what comes after it, as `table_parse` does: for texts that begin with no word of the table.
#[cold]
#[inline(never)]
fn table_slowly<W: Table<E, A>, E: Drop, A>(
    stream: &mut TextStream,
    refusal: &str,
    expected: Expected,
) -> ParseResult<E, A>
    ensures { ReadsTable W.word W.following refusal.now (demand_of expected) stream.old result stream.new }
{
    match dotted_parse::<W, E, A>(stream, refusal, expected) {
        Ok(word) => word.parse(stream),
        Err(fault) => Err(fault),
    }
}

/// Parses a word of the table, and what comes after it. If no word begins, fails with `Unexpected`, uncommitted. Every other error is
/// committed: an unknown word is an `OwnText` of `refusal` and the word, at its beginning.
pub fn table_parse<W: Table<E, A>, E: Drop, A>(
    stream: &mut TextStream,
    refusal: &str,
    expected: Expected,
) -> ParseResult<E, A>
    ensures { ReadsTable W.word W.following refusal.now (demand_of expected) stream.old result stream.new }
{
    let Some(word) = dotted_there::<W, E, A>(stream) else {
        return table_slowly::<W, E, A>(stream, refusal, expected);
    };
    if let Some(value) = word.parse_known(stream) {
        return Ok(value);
    }
    word.parse(stream)
}

/// Parses a required part after a word, with optional white space between. Every error is committed.
pub fn after_word<P: Part<A>, A>(stream: &mut TextStream) -> ParseResult<P, A>
    ensures { MustRead (λ s. s) (λ s v. v) (λ x. x) (space_at ▷ P.text.reading) stream.old result stream.new }
{
    if stream.has_failed() {
        return Err(refuse(stream, Cause::StreamFailed));
    }
    skip_white_space(stream);
    demanded(stream)
}

/// Parses a part after a word, with optional white space between, if the part's `read_known` finds it. Otherwise the stream is unchanged.
#[inline(always)]
pub fn after_known<P: Part<A>, A>(stream: &mut TextStream) -> Option<P>
    ensures { MatchOption result (stream.new ≡ stream.old)
        (λ x. MustRead {A = A} (λ s. s) (λ s v. v) (λ x. x) (space_at ▷ P.text.reading) stream.old (Ok x)
        stream.new) }
{
    if stream.has_failed() {
        return None;
    }
    let place = stream.position();
    skip_white_space(stream);
    if let Some(part) = <P as Part<A>>::read_known(stream) {
        return Some(part);
    }
    stream.reset(place);
    None
}

/// Returns the value of a word that has nothing after it, or `None` on a stream that has failed.
#[inline(always)]
pub fn alone_known<E: Drop>(stream: &TextStream, value: E) -> Option<E>
    ensures { IfSome result (λ x. Gives (λ s. s) (λ s v. v) (unless_failed stream.now.failed
        (nothing value stream.now.rest)) stream.now x stream.now) }
{
    if stream.has_failed() {
        return None;
    }
    Some(value)
}

/// Returns the value of a word that has nothing after it.
pub fn word_alone<E: Drop, A>(stream: &mut TextStream, value: E) -> ParseResult<E, A>
    ensures { MustRead (λ s. s) (λ s v. v) (λ x. x) (nothing value) stream.old result stream.new }
{
    if stream.has_failed() {
        return Err(refuse(stream, Cause::StreamFailed));
    }
    Ok(value)
}

/// Appends a word, a space and a part. Fails only when out of memory.
pub fn write_row<P: Part<A>, A>(word: &str, part: &P, f: &mut String) -> Result<(), OutOfMemory>
    ensures text { OnOk result (string_bytes f.new ≡ string_bytes f.old ++ encode_utf8_all
        (characters word.now ++ (32 ∷ P.text.written part.now))) }
    ensures appended { OnErr result (OnlyAppends f.old f.new) }
{
    string::push_str(f, word)?;
    string::push_str(f, " ")?;
    part.write_text(f)?;
    Ok(())
}

/// Appends a word that has nothing after it. Fails only when out of memory.
pub fn write_word(word: &str, f: &mut String) -> Result<(), OutOfMemory>
    ensures text { OnOk result (string_bytes f.new ≡ string_bytes f.old ++ encode_utf8_all (characters word.now)) }
    ensures appended { OnErr result (OnlyAppends f.old f.new) }
{
    string::push_str(f, word)?;
    Ok(())
}
