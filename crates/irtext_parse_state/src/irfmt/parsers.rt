//! The parser of types, and the location of the stream's current position.
ghost use Rattle.std.specs.Prelude.{◌≡◌};
ghost use Rattle.irtext_tokens.specs.MustRead.{MayRead};
ghost use Rattle.irtext_parse_state.specs.States.{LocatesAt};

use crate::parsable::{StateStream, StreamLocation};
use irtext_base::location::Location;
use irtext_base::parsable::ParseResult;
use irtext_base::text::{AttrText, IrText};

/// Returns the location of the stream's current position, in the source that is parsed. It consumes nothing, and works on a failed stream
/// too.
pub fn location<T: IrText<A>, A: AttrText<A>, U>(stream: &StateStream<'_, T, A, U>) -> Location<A>
    ensures { LocatesAt stream.now.state.src stream.now.stream.passed result }
{
    stream.loc()
}

/// Parses a type by its own parser, whose errors are returned unchanged. The state is unchanged.
pub fn type_parse<T: IrText<A>, A: AttrText<A>, U>(
    stream: &mut StateStream<'_, T, A, U>,
) -> ParseResult<T, A>
    ensures read { MayRead (λ s. s) (λ s v. v) (λ t. t) T.IrText.reading stream.old.stream result
        stream.new.stream }
    ensures state { stream.new.state ≡ stream.old.state }
{
    T::read(&mut stream.stream)
}
