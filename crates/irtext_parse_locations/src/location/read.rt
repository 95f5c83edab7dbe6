//! Parsing of lines and columns.
ghost use Rattle.irtext_base.specs.Faults.{characters};
ghost use Rattle.irtext_tokens.specs.MustRead.{MustRead};
ghost use Rattle.irtext_grammar.specs.Readers.Positions.{labelled_at, position_at};
ghost use Rattle.irtext_grammar.specs.Readers.Streams.{itself, replaced};
ghost use Rattle.irtext_parse_locations.specs.Plain.{after_source_at};

use crate::location::plain::position_there;
use irtext_base::parsable::{CharStream, ParseResult, SourcePosition, TextStream};
use irtext_tokens::irfmt::demanded::{i32_demanded, spaced_text_demanded, text_demanded};

/// Parses a word, `:` and a number.
fn labelled_number<S: CharStream, A>(stream: &mut S, word: &str) -> ParseResult<i32, A>
    ensures { MustRead S.view S.at (λ z. z) (labelled_at (characters word.now)) stream.old result stream.new }
{
    text_demanded(stream, word)?;
    spaced_text_demanded(stream, ":")?;
    i32_demanded(stream)
}

/// Parses a line and a column, which are required: every error is committed.
pub(crate) fn position_demanded<S: CharStream, A>(stream: &mut S) -> ParseResult<SourcePosition, A>
    ensures { MustRead S.view S.at (λ at. at) position_at stream.old result stream.new }
{
    let line = labelled_number(stream, "line")?;
    spaced_text_demanded(stream, ",")?;
    let column = labelled_number(stream, "column")?;
    Ok(SourcePosition { line, column })
}

/// Parses `:`, a line and a column, part by part.
#[cold]
#[inline(never)]
fn position_read<A>(stream: &mut TextStream) -> ParseResult<SourcePosition, A>
    ensures { MustRead itself replaced (λ at. at) after_source_at stream.old result stream.new }
{
    spaced_text_demanded(stream, ":")?;
    position_demanded(stream)
}

/// Parses `:`, a line and a column, which are required: every error is committed.
#[inline(always)]
pub(crate) fn position_after<A>(stream: &mut TextStream) -> ParseResult<SourcePosition, A>
    ensures { MustRead itself replaced (λ at. at) after_source_at stream.old result stream.new }
{
    match position_there(stream) {
        Some(position) => Ok(position),
        None => position_read(stream),
    }
}
