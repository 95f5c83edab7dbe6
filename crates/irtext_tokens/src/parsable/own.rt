//! Streams on which the caller's own parsers run.
ghost use Rattle.irtext_tokens.specs.MustRead.{MayRead};

use irtext_base::parsable::{CharStream, ParseResult, TextStream};
use irtext_base::text::IrText;

/// A character stream on which the caller's own parsers of types and attributes can run. They see only its text.
pub trait OwnStream: CharStream {
    /// Parses a value by its own parser, whose errors are returned unchanged. Only the stream's text is read, and nothing but the stream
    /// changes.
    fn read_own<X: IrText<A>, A>(&mut self) -> ParseResult<X, A>
        ensures { MayRead Self.CharStream.view Self.CharStream.at (λ x. x) X.IrText.reading self.old result
            self.new };
}

impl OwnStream for TextStream {
    fn read_own<X: IrText<A>, A>(&mut self) -> ParseResult<X, A> {
        X::read(self)
    }
}
