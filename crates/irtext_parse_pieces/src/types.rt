//! Lists of types, separated by `,`. Up to two types are stored without an allocation.
ghost use Rattle.std.specs.Prelude.{◌≡◌};
ghost use Rattle.irtext_tokens.specs.ListOutcomes.{separated_at};
ghost use Rattle.irtext_parse_pieces.specs.Pieces.{MustTypes, TypesAfter};
ghost use Rattle.irtext_parse_pieces.specs.Named.{MayMean};

use crate::lists::{comma_taken, next_kept, unless_committed};
use irtext_base::parsable::{CharStream, ParseResult};
use irtext_base::text::IrText;
use irtext_few::Few;
use irtext_tokens::irfmt::faults::next_is;
use irtext_tokens::irfmt::parsers::skip_white_space;
use irtext_tokens::parsable::OwnStream;

/// Parses a type with the type's own parser, and returns its errors unchanged.
fn type_parse<S: OwnStream, T: IrText<A>, A>(stream: &mut S) -> ParseResult<T, A>
    ensures { MayMean S.CharStream.view S.CharStream.at ◌≡◌ T.IrText.reading stream.old result stream.new }
{
    stream.read_own()
}

/// Parses the types after the first one, as long as `,` comes next.
#[inline(never)]
fn more_types<S: OwnStream, T: IrText<A>, A: Drop>(
    stream: &mut S,
    first: T,
) -> ParseResult<Few<T>, A>
    ensures { TypesAfter S.CharStream.view S.CharStream.at T.IrText.reading first stream.old result
        stream.new }
{
    let mut found = Few::one(first);
    while comma_taken(stream) {
        let answer = type_parse(stream);
        found = match next_kept(stream, found, answer) {
            Ok(more) => more,
            Err(fault) => return Err(fault),
        };
    }
    Ok(found)
}

/// Parses types that are separated by `,`, with white space after each. If no type comes next, returns an empty list. Every error is
/// committed. A list of one type costs no more than its type.
pub fn types_parse<S: OwnStream, T: IrText<A>, A: Drop>(stream: &mut S) -> ParseResult<Few<T>, A>
    ensures { MustTypes S.CharStream.view S.CharStream.at (separated_at 44 T.IrText.reading) stream.old result
        stream.new }
{
    match type_parse(stream) {
        Ok(first) => {
            skip_white_space(stream);
            if !next_is(stream, ',') {
                return Ok(Few::one(first));
            }
            more_types(stream, first)
        }
        Err(fault) => unless_committed(fault, Few::none()),
    }
}
