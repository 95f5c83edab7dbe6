//! Parsing of the headers of blocks.
ghost use Rattle.std.specs.Prelude.{◌≡◌, false};
ghost use Rattle.irtext_tokens.specs.AttrTexts.{attr_at};
ghost use Rattle.irtext_parse_pieces.specs.Entries.{SpacedDictionaryIf};
ghost use Rattle.irtext_parse_pieces.specs.Headers.{mark_end_at, MustHead, MustHeadEnd};
ghost use Rattle.irtext_grammar.specs.Parsed.{IsMarkIf};
ghost use Rattle.irtext_parse_pieces.specs.Named.{MustMean, NamesRead, whole};

use crate::arguments::arguments_parse;
use crate::beside::{beside, closed_by, failed};
use crate::entries::dictionary_if_parse;
use crate::keys::Keys;
use crate::lists::ended;
use crate::marks::mark_parse;
use crate::names::label_demanded;
use irtext_base::parsable::{CharStream, ParseResult};
use irtext_base::text::{AttrText, IrText};
use irtext_few::Few;
use irtext_grammar::parsed::{ReadEntry, ReadMark, ReadName};
use irtext_scopes::tracker::NameTracker;
use irtext_tokens::irfmt::demanded::{spaced_text_demanded, text_demanded};
use irtext_tokens::irfmt::parsers::skip_white_space;
use irtext_tokens::parsable::OwnStream;

/// A parsed header of a block: its label, its arguments, the entries of its dictionary if it has one, and its mark if it has one.
#[derive(Drop)]
pub struct BlockHead<T, A> {
    pub label: ReadName,
    pub arguments: Few<(ReadName, T)>,
    pub attributes: Option<Vec<ReadEntry<A>>>,
    pub mark: Option<ReadMark>,
}

/// What a block's header has after its arguments: the entries of its dictionary if it has one, and its mark if it has one.
type HeadEnd<A> = (Option<Vec<ReadEntry<A>>>, Option<ReadMark>);

/// Parses white space, and a dictionary as `dictionary_if_parse` does, and keeps no key.
#[inline(always)]
fn dictionary_alone<S: OwnStream, A: AttrText<A>>(
    stream: &mut S,
) -> ParseResult<Option<Vec<ReadEntry<A>>>, A>
    ensures { SpacedDictionaryIf S.CharStream.view S.CharStream.at (attr_at A.IrText.reading) stream.old
        result stream.new }
{
    skip_white_space(stream);
    let mut keys = Keys::none(stream.allocator());
    let entries = dictionary_if_parse(stream, &mut keys);
    ended(keys);
    entries
}

/// Parses the end of a block's header, on a stream that has not failed: a mark if `!` comes next, and `:`, with white space before each.
/// Every error is committed.
#[inline(always)]
fn mark_end_parse<S: CharStream, A>(stream: &mut S) -> ParseResult<Option<ReadMark>, A>
    ensures { (S.view stream.old).failed ≡ false → MustMean S.view S.at
        (IsMarkIf (whole (S.view stream.old))) mark_end_at
        stream.old result stream.new }
{
    skip_white_space(stream);
    let mark = match mark_parse(stream) {
        Ok(mark) => mark,
        Err(fault) => return Err(fault),
    };
    skip_white_space(stream);
    let answer = text_demanded(stream, ":");
    closed_by(mark, answer)
}

/// Parses what a block's header has after its arguments: `)`, a dictionary if `[` comes next, a mark if `!` comes next, and `:`. Every
/// error is committed.
#[inline(always)]
fn head_end_parse<S: OwnStream, A: AttrText<A>>(stream: &mut S) -> ParseResult<HeadEnd<A>, A>
    ensures { MustHeadEnd S.CharStream.view S.CharStream.at (attr_at A.IrText.reading) stream.old result
        stream.new }
{
    if let Err(fault) = text_demanded(stream, ")") {
        return Err(fault);
    }
    let attributes = match dictionary_alone(stream) {
        Ok(attributes) => attributes,
        Err(fault) => return Err(fault),
    };
    let answer = mark_end_parse(stream);
    beside(attributes, answer)
}

/// Parses the header of a block: `^` and its label, its arguments in parentheses, a dictionary if `[` comes next, a mark if `!` comes
/// next, and `:`, as `^b(x: builtin.integer si64) !0:`. Reserved and repeated keys of the dictionary are accepted here. Every error is
/// committed.
pub fn block_head_parse<S: OwnStream, V: Copy, B: Copy, T: IrText<A>, A: AttrText<A>>(
    stream: &mut S,
    names: &mut NameTracker<V, B>,
) -> ParseResult<BlockHead<T, A>, A>
    ensures read { MustHead S.CharStream.view S.CharStream.at names.new.names T.IrText.reading
        (attr_at A.IrText.reading) stream.old result stream.new }
    ensures names { NamesRead names.old names.new }
{
    let label = match label_demanded(stream, names) {
        Ok(label) => label,
        Err(fault) => return Err(fault),
    };
    if let Err(fault) = spaced_text_demanded(stream, "(") {
        return Err(fault);
    }
    let arguments = match arguments_parse(stream, names) {
        Ok(arguments) => arguments,
        Err(fault) => return Err(fault),
    };
    let (attributes, mark) = match head_end_parse(stream) {
        Ok(end) => end,
        Err(fault) => return failed(arguments, fault),
    };
    Ok(BlockHead {
        label,
        arguments,
        attributes,
        mark,
    })
}
