//! The parser of `true` and `false`.
ghost use Rattle.irtext_tokens.specs.Integers.{bool_at};
ghost use Rattle.irtext_tokens.specs.Reads.{ReadsAs, SparesMemory};

use crate::irfmt::faults::{next_is, refuse, unexpected};
use crate::irfmt::parsers::fixed_text::text_parse;
use irtext_base::parsable::{CharStream, ParseResult};
use irtext_base::result::{Cause, Expected};

/// Parses `true` or `false`, whatever comes after it. If the next character begins neither, fails with `Unexpected`, uncommitted,
/// expecting one of the two. If a later character differs, fails with `Unexpected` there, committed, expecting the word that was begun.
/// An uncommitted error leaves the stream unchanged, a committed one leaves it failed.
#[tactic(auto, unfolding(crate::specs::Integers::bool_at))]
pub fn bool_parse<S: CharStream, A>(stream: &mut S) -> ParseResult<bool, A>
    ensures answers { ReadsAs S.view S.at (λ b. b) bool_at stream.old result stream.new }
    ensures spares { SparesMemory S.view bool_at stream.old result }
{
    if stream.has_failed() {
        return Err(refuse(stream, Cause::StreamFailed));
    }
    if next_is(stream, 't') {
        text_parse(stream, "true")?;
        return Ok(true);
    }
    if next_is(stream, 'f') {
        text_parse(stream, "false")?;
        return Ok(false);
    }
    Err(unexpected(stream, Expected::TrueOrFalse))
}
