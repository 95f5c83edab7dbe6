//! Parsing of the arguments of a block.
ghost use Rattle.irtext_tokens.specs.ListOutcomes.{separated_at};
ghost use Rattle.irtext_tokens.specs.AttrTexts.{attr_at};
ghost use Rattle.irtext_grammar.specs.Heads.{argument_at};
ghost use Rattle.irtext_parse_pieces.specs.Arguments.{IsArgument, MustArguments, ArgumentsAfter};
ghost use Rattle.irtext_parse_pieces.specs.Named.{MayMean, NamesRead, whole};

use crate::beside::beside;
use crate::lists::{comma_taken, next_kept, none_named, unless_committed};
use crate::names::name_parse;
use irtext_base::parsable::{CharStream, ParseResult};
use irtext_base::text::{AttrText, IrText};
use irtext_few::Few;
use irtext_grammar::parsed::{NameKind, ReadName};
use irtext_scopes::tracker::NameTracker;
use irtext_tokens::irfmt::demanded::spaced_text_demanded;
use irtext_tokens::irfmt::faults::committed;
use irtext_tokens::irfmt::parsers::skip_white_space;
use irtext_tokens::parsable::OwnStream;

/// Parses an argument of a block: a name, `:` and a type. If no name comes next, the error is uncommitted and the stream is unchanged;
/// other errors are committed.
fn argument_parse<S: OwnStream, V: Copy, B: Copy, T: IrText<A>, A: AttrText<A>>(
    stream: &mut S,
    names: &mut NameTracker<V, B>,
) -> ParseResult<(ReadName, T), A>
    ensures read { MayMean S.CharStream.view S.CharStream.at (IsArgument names.new.names
        (whole (S.CharStream.view stream.old)))
        (argument_at T.IrText.reading (attr_at A.IrText.reading)) stream.old result stream.new }
    ensures names { NamesRead names.old names.new }
{
    let name = match name_parse(stream, names) {
        Ok(name) => name,
        Err(fault) => return Err(fault),
    };
    if let Err(fault) = spaced_text_demanded(stream, ":") {
        return Err(fault);
    }
    let answer = stream.read_own();
    let ty = committed(stream, answer);
    beside(name, ty)
}

/// Parses the arguments after the first one, as long as `,` comes next.
fn more_arguments<S: OwnStream, V: Copy, B: Copy, T: IrText<A>, A: AttrText<A>>(
    stream: &mut S,
    names: &mut NameTracker<V, B>,
    first: (ReadName, T),
) -> ParseResult<Few<(ReadName, T)>, A>
    ensures read { ArgumentsAfter S.CharStream.view S.CharStream.at names.old.names names.new.names
        (argument_at T.IrText.reading (attr_at A.IrText.reading)) first stream.old result stream.new }
    ensures names { NamesRead names.old names.new }
{
    let mut found = Few::one(first);
    while comma_taken(stream) {
        let answer = argument_parse(stream, names);
        found = match next_kept(stream, found, answer) {
            Ok(more) => more,
            Err(fault) => return Err(fault),
        };
    }
    Ok(found)
}

/// Parses the arguments of a block, separated by `,` and with white space after each. Each is a name, `:` and a type, as
/// `x: builtin.integer si64`. If no name comes next, returns an empty list. Every error is committed.
pub fn arguments_parse<S: OwnStream, V: Copy, B: Copy, T: IrText<A>, A: AttrText<A>>(
    stream: &mut S,
    names: &mut NameTracker<V, B>,
) -> ParseResult<Few<(ReadName, T)>, A>
    ensures read { MustArguments S.CharStream.view S.CharStream.at names.new.names
        (separated_at 44 (argument_at T.IrText.reading (attr_at A.IrText.reading))) stream.old
        result stream.new }
    ensures names { NamesRead names.old names.new }
{
    if none_named(stream, NameKind::Value) {
        return Ok(Few::none());
    }
    match argument_parse(stream, names) {
        Ok(first) => {
            skip_white_space(stream);
            more_arguments(stream, names, first)
        }
        Err(fault) => unless_committed(fault, Few::none()),
    }
}
