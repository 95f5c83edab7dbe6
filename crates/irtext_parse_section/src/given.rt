//! Parsing of what an item's entry gives: a location, if there is one, and pairs.
ghost use Rattle.std.specs.Prelude.{◌≡◌, IfOk};
ghost use Rattle.irtext_tokens.specs.AttrTexts.{attr_at};
ghost use Rattle.irtext_tokens.specs.MustRead.{MustRead};
ghost use Rattle.irtext_grammar.specs.Promises.Section.{given_over, given_kept};
ghost use Rattle.irtext_grammar.specs.Readers.NewPaths.{AddsPaths};
ghost use Rattle.irtext_grammar.specs.Readers.Streams.{itself, replaced};
ghost use Rattle.irtext_parse_pieces.specs.Named.{MustMean, whole};
ghost use Rattle.irtext_grammar.specs.Entries.{given_at};
ghost use Rattle.irtext_parse_locations.specs.Rules.{rule_for};
ghost use Rattle.irtext_parse_locations.specs.Sourced.{Keeps, ReadsGiven};
ghost use Rattle.irtext_parse_section.specs.Entries.{IsGivenOver, location_end_at};

use crate::pairs::pairs_parse;
use irtext_base::location::Location;
use irtext_base::parsable::{CharStream, ParseResult, TextStream};
use irtext_base::result::Cause;
use irtext_base::text::{AttrText, IrText};
use irtext_context::base::Context;
use irtext_parse_locations::location::nested::location_demanded;
use irtext_parse_locations::location::plain::spaced_there;
use irtext_parse_locations::said::ReadPair;
use irtext_parse_pieces::keys::Keys;
use irtext_tokens::irfmt::demanded::{spaced_text_demanded, text_demanded};
use irtext_tokens::irfmt::faults::{next_is, refuse};
use irtext_tokens::irfmt::parsers::skip_white_space;

/// What an item's entry gives: a location or none, and pairs.
pub(crate) type Given<A> = (Option<Location<A>>, Vec<ReadPair<A>>);

/// The slow path of `location_ended`, for other forms of the text.
#[cold]
#[inline(never)]
fn end_missed<A>(stream: &mut TextStream) -> ParseResult<(), A>
    ensures { MustRead itself replaced (λ u. u) location_end_at stream.old result stream.new }
{
    spaced_text_demanded(stream, "]")?;
    text_demanded(stream, ",")?;
    skip_white_space(stream);
    Ok(())
}

/// Parses what follows the location of an entry: `]` and `,`, with optional white space around them but not between them.
#[inline(always)]
fn location_ended<A>(stream: &mut TextStream) -> ParseResult<(), A>
    ensures { MustRead itself replaced (λ u. u) location_end_at stream.old result stream.new }
{
    if spaced_there(stream, "], ") {
        return Ok(());
    }
    end_missed(stream)
}

/// Parses the location of an item's entry, and what separates it from the pairs, as `@[?], `. If no `@` comes next, returns `None` and consumes
/// nothing. The context keeps the paths of the location's files, also on an error. Every error is committed, and leaves the stream failed.
#[inline(always)]
pub fn entry_location<T: IrText<A>, A: AttrText<A>>(
    stream: &mut TextStream,
    ctx: &mut Context<T, A>,
) -> ParseResult<Option<Location<A>>, A>
    ensures adds { AddsPaths ctx.old ctx.new }
    ensures read { ReadsGiven A.IrText.reading ctx.new.paths stream.old result stream.new }
    ensures paths { Keeps given_over given_kept ctx.old.paths ctx.new.paths result }
{
    if stream.has_failed() {
        return Err(refuse(stream, Cause::StreamFailed));
    }
    if !next_is(stream, '@') {
        return Ok(None);
    }
    text_demanded(stream, "@[")?;
    skip_white_space(stream);
    let location = location_demanded(stream, ctx)?;
    location_ended(stream)?;
    Ok(Some(location))
}

/// Parses what the entry of a block or of an operation gives. Every error is committed.
#[inline(always)]
pub(crate) fn given_parse<T: IrText<A>, A: AttrText<A>>(
    stream: &mut TextStream,
    ctx: &mut Context<T, A>,
    of_block: bool,
    keys: &mut Keys,
) -> ParseResult<Given<A>, A>
    ensures adds { AddsPaths ctx.old ctx.new }
    ensures read { MustMean itself replaced (IsGivenOver ctx.new.paths (whole stream.old))
        (given_at (attr_at A.IrText.reading) (rule_for of_block)) stream.old result stream.new }
    ensures paths { IfOk result (λ given. ctx.new.paths ≡ given_kept ctx.old.paths (given_over ctx.new.paths
        given.0)) }
{
    let location = entry_location(stream, ctx)?;
    let pairs = pairs_parse(stream, of_block, keys)?;
    Ok((location, pairs))
}
