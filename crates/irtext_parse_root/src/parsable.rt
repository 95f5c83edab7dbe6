//! The trait of types that can be parsed. Streams, the state of the parser and the errors of parsers are re-exported from lower crates.

ghost use Rattle.std.specs.Prelude.{⊤};
ghost use Rattle.irtext_parse_state.specs.declared.parsable.state.StateStream.{StateStream};

mod locations;
mod tokens;

pub use irtext_base::parsable::{
    CharStream, ParseFault, ParseResult, ParserNameTrackerError, Place, SourcePosition, TextStream,
    UnresolvedReference,
};
use irtext_base::text::{AttrText, IrText};
pub use irtext_parse_state::parsable::{
    State, StateStream, StreamLocation, parse_from_str, parse_from_string,
    state_stream_from_iterator,
};
pub use irtext_tokens::parsable::{IntoParseResult, OwnStream};

/// A type that can be parsed from a stream with a context.
pub trait Parsable<T: IrText<A>, A: AttrText<A>, U> {
    /// The argument of the parser besides the stream.
    type Arg;
    /// The value that the parser returns.
    type Parsed;

    // when the parser may be called with this argument, for example only if the object that the argument refers to is in the context
    ghost can_parse: { Self.Arg → StateStream T A U → Type 0 } = { λ _ _. ⊤ };

    /// Parses one value at the current position of the stream.
    fn parse(stream: &mut StateStream<'_, T, A, U>, arg: Self::Arg) -> ParseResult<Self::Parsed, A>
        requires { can_parse arg stream.old };
}
