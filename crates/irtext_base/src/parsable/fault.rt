//! The results of parsers.
ghost use Rattle.std.specs.Prelude.{◌≡◌};

use crate::parsable::SourcePosition;
use crate::result::Cause;

/// A parse error: its position and its cause. If it is not committed, nothing was consumed, and another parser may be tried. If it is
/// committed, the stream has failed.
pub struct ParseFault<A> {
    /// The line and the column of the error.
    pub pos: SourcePosition,
    /// What is wrong there.
    pub cause: Cause<A>,
    /// Whether the stream has failed, so that no other parser may be tried.
    pub committed: bool,
}

impl<A> ParseFault<A> {
    /// Returns its cause.
    pub fn into_cause(self) -> Cause<A>
        ensures { result ≡ self.cause }
    {
        let ParseFault {
            pos: _,
            cause,
            committed: _,
        } = self;
        cause
    }
}

impl<A: Drop> Drop for ParseFault<A> {
    #[inline(always)]
    fn drop(self) {
        let _cause = self.into_cause();
    }
}

/// The result of a parser.
pub type ParseResult<X, A> = std::result::Result<X, ParseFault<A>>;
