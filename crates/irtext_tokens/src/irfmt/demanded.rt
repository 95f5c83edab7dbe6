//! Parsers of tokens that are required: if the token is missing, the error is committed and the stream is left failed.
ghost use Rattle.std.specs.Prelude.{◌≡◌, MatchBool};
ghost use Rattle.irtext_base.specs.Answers.{Gives, unless_failed};
ghost use Rattle.irtext_base.specs.Faults.{characters};
ghost use Rattle.irtext_tokens.specs.Tokens.{text_at, identifier_at, number_at, integer_at};
ghost use Rattle.irtext_tokens.specs.Demanded.{spaced_at, index_at, symbol_at};
ghost use Rattle.irtext_tokens.specs.MustRead.{MustRead};
ghost use Rattle.irtext_tokens.specs.Reads.{SparesMemory};

use crate::irfmt::faults::{committed, refuse};
use crate::irfmt::parsers::class::skip_white_space;
use crate::irfmt::parsers::fixed_text::text_parse;
use crate::irfmt::parsers::identifier::identifier_parse;
use crate::irfmt::parsers::integer::int_parse;
use irtext_base::base::Identifier;
use irtext_base::parsable::{CharStream, ParseResult};
use irtext_base::result::Cause;

/// Consumes a fixed text if the whole of it comes next, and returns whether it does. Otherwise, and on a stream that has failed, the stream
/// is unchanged.
#[inline(always)]
pub fn text_there<S: CharStream>(stream: &mut S, text: &str) -> bool
    ensures { MatchBool result
        (Gives S.view S.at (unless_failed (S.view stream.old).failed
        (text_at (characters text.now) (S.view stream.old).rest)) stream.old tt stream.new)
        (stream.new ≡ stream.old) }
{
    if stream.has_failed() {
        return false;
    }
    if !stream.accept(text) {
        return false;
    }
    true
}

/// The slow path of `text_demanded`, for a text that does not come next as a whole.
#[cold]
#[inline(never)]
fn text_missed<S: CharStream, A>(stream: &mut S, text: &str) -> ParseResult<(), A>
    ensures { MustRead S.view S.at (λ u. u) (text_at (characters text.now)) stream.old result stream.new }
{
    let answer = text_parse(stream, text);
    committed(stream, answer)
}

/// Parses a fixed text as `text_parse` does, but every error is committed.
#[inline(always)]
pub fn text_demanded<S: CharStream, A>(stream: &mut S, text: &str) -> ParseResult<(), A>
    ensures { MustRead S.view S.at (λ u. u) (text_at (characters text.now)) stream.old result stream.new }
{
    if text_there(stream, text) {
        return Ok(());
    }
    text_missed(stream, text)
}

/// Parses an identifier as `identifier_parse` does, but every error is committed.
#[inline]
pub fn identifier_demanded<S: CharStream, A>(stream: &mut S) -> ParseResult<Identifier, A>
    ensures { MustRead S.view S.at (λ name. name) identifier_at stream.old result stream.new }
{
    let answer = identifier_parse(stream);
    committed(stream, answer)
}

/// Parses a number less than 2^64 as `int_parse` does, but every error is committed.
pub fn usize_demanded<S: CharStream, A>(stream: &mut S) -> ParseResult<usize, A>
    ensures read { MustRead S.view S.at (λ n. n) number_at stream.old result stream.new }
    ensures spares { SparesMemory S.view number_at stream.old result }
{
    let answer = int_parse(stream);
    committed(stream, answer)
}

/// Parses a 32-bit signed integer as `int_parse` does, but every error is committed.
pub fn i32_demanded<S: CharStream, A>(stream: &mut S) -> ParseResult<i32, A>
    ensures read { MustRead S.view S.at (λ z. z) integer_at stream.old result stream.new }
    ensures spares { SparesMemory S.view integer_at stream.old result }
{
    let answer = int_parse(stream);
    committed(stream, answer)
}

/// The slow path of `spaced_text_demanded`, for a text that does not come next as a whole.
#[cold]
#[inline(never)]
fn spaced_text_missed<S: CharStream, A>(stream: &mut S, text: &str) -> ParseResult<(), A>
    ensures { MustRead S.view S.at (λ u. u) (spaced_at (characters text.now)) stream.old result stream.new }
{
    if stream.has_failed() {
        return Err(refuse(stream, Cause::StreamFailed));
    }
    skip_white_space(stream);
    text_demanded(stream, text)?;
    skip_white_space(stream);
    Ok(())
}

/// Parses a fixed text with optional white space before and after it. Every error is committed.
#[inline(always)]
pub fn spaced_text_demanded<S: CharStream, A>(stream: &mut S, text: &str) -> ParseResult<(), A>
    ensures { MustRead S.view S.at (λ u. u) (spaced_at (characters text.now)) stream.old result stream.new }
{
    if stream.has_failed() {
        return spaced_text_missed(stream, text);
    }
    if stream.accept_spaced(text) {
        skip_white_space(stream);
        return Ok(());
    }
    spaced_text_missed(stream, text)
}

/// Parses `!` and an index, as in `!3`. Every error is committed.
#[inline(always)]
pub fn index_demanded<S: CharStream, A>(stream: &mut S) -> ParseResult<usize, A>
    ensures { MustRead S.view S.at (λ n. n) index_at stream.old result stream.new }
{
    text_demanded(stream, "!")?;
    usize_demanded(stream)
}

/// Parses `@` and a name, as in `@main`. Every error is committed.
pub fn symbol_demanded<S: CharStream, A>(stream: &mut S) -> ParseResult<Identifier, A>
    ensures { MustRead S.view S.at (λ name. name) symbol_at stream.old result stream.new }
{
    text_demanded(stream, "@")?;
    identifier_demanded(stream)
}
