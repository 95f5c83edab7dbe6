//! Converts errors to parse errors.
ghost use Rattle.std.specs.Prelude.{◌≡◌, Result, Err};
ghost use Rattle.irtext_tokens.specs.Committed.{place_of, fault_from, committed};
ghost use Rattle.irtext_base.specs.declared.parsable.fault.ParseFault.{ParseFault};

use irtext_base::location::Location;
use irtext_base::parsable::{ParseFault, ParseResult, SourcePosition};
use irtext_base::result::{Error, Result};

/// What can be converted to the result of a parser: a `Result`, or an `Error`, which always becomes an error.
pub trait IntoParseResult<X, A> {
    // the result of the conversion
    ghost answer: { Self → Result X (ParseFault A) };

    /// Returns a value unchanged, and an error as a committed `ParseFault` with the error's cause. The position is the one that the
    /// error's location has in a source, or line 1, column 1 for any other location. No stream is changed.
    fn into_parse_result(self) -> ParseResult<X, A>
        ensures { result ≡ answer self };
}

/// Returns the position that a location has in a source, or line 1, column 1 for any other location.
fn place_of<A>(location: &Location<A>) -> SourcePosition
    ensures { result ≡ place_of location.now }
{
    match location {
        Location::SrcPos { src: _, pos } => *pos,
        _ => SourcePosition { line: 1, column: 1 },
    }
}

/// Returns the committed parse error of an error.
fn fault_from<A: Drop>(error: Error<A>) -> ParseFault<A>
    ensures { result ≡ fault_from error }
{
    let pos = place_of(&error.loc);
    ParseFault {
        pos,
        cause: error.into_cause(),
        committed: true,
    }
}

impl<X, A: Drop> IntoParseResult<X, A> for Result<X, A> {
    ghost answer = { committed };

    fn into_parse_result(self) -> ParseResult<X, A> {
        match self {
            Ok(value) => Ok(value),
            Err(error) => Err(fault_from(error)),
        }
    }
}

impl<X, A: Drop> IntoParseResult<X, A> for Error<A> {
    ghost answer = { λ error. Err (fault_from error) };

    fn into_parse_result(self) -> ParseResult<X, A> {
        Err(fault_from(self))
    }
}
