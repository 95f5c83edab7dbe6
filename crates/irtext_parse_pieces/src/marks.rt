//! Parsing of the marks of operations and of blocks.
ghost use Rattle.irtext_grammar.specs.Heads.{mark_if_at};
ghost use Rattle.irtext_grammar.specs.Parsed.{IsMarkIf};
ghost use Rattle.irtext_parse_pieces.specs.Named.{MustMean, whole};

use irtext_base::parsable::{CharStream, ParseResult};
use irtext_base::result::Cause;
use irtext_grammar::parsed::ReadMark;
use irtext_tokens::irfmt::demanded::index_demanded;
use irtext_tokens::irfmt::faults::{next_is, refuse};

/// Parses a mark, if `!` comes next.
#[inline(never)]
fn mark_there<S: CharStream, A>(stream: &mut S) -> ParseResult<Option<ReadMark>, A>
    ensures { MustMean S.view S.at (IsMarkIf (whole (S.view stream.old))) mark_if_at stream.old result
        stream.new }
{
    if stream.has_failed() {
        return Err(refuse(stream, Cause::StreamFailed));
    }
    if !next_is(stream, '!') {
        return Ok(None);
    }
    let at = stream.position();
    match index_demanded(stream) {
        Ok(index) => Ok(Some(ReadMark { index, at })),
        Err(fault) => Err(fault),
    }
}

/// Parses a mark, `!` and an index, as `!3`. If `!` does not come next, returns `None`. Every error is committed.
#[inline(always)]
pub fn mark_parse<S: CharStream, A>(stream: &mut S) -> ParseResult<Option<ReadMark>, A>
    ensures { MustMean S.view S.at (IsMarkIf (whole (S.view stream.old))) mark_if_at stream.old result
        stream.new }
{
    if stream.has_failed() {
        return mark_there(stream);
    }
    if !next_is(stream, '!') {
        return Ok(None);
    }
    mark_there(stream)
}
