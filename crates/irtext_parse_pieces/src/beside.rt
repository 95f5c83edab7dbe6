//! Values beside the results of parsers that come after them. A value that is passed on so has no exit at which its caller ends it.
ghost use Rattle.std.specs.Prelude.{◌≡◌, Err};
ghost use Rattle.irtext_parse_pieces.specs.Beside.{paired, closed, present};

use irtext_base::parsable::{ParseFault, ParseResult};

/// Returns a value and that of a result, or the result's error.
#[inline(always)]
pub(crate) fn beside<X: Drop, Y, A>(value: X, answer: ParseResult<Y, A>) -> ParseResult<(X, Y), A>
    ensures { result ≡ paired value answer }
{
    match answer {
        Ok(other) => Ok((value, other)),
        Err(fault) => Err(fault),
    }
}

/// Returns a value if the text that it comes with was parsed, or the error.
#[inline(always)]
pub(crate) fn closed_by<X: Drop, A>(value: X, answer: ParseResult<(), A>) -> ParseResult<X, A>
    ensures { result ≡ closed value answer }
{
    match answer {
        Ok(()) => Ok(value),
        Err(fault) => Err(fault),
    }
}

/// Returns the value of a result as one that is there, or the result's error.
#[inline(always)]
pub(crate) fn present<X, A>(answer: ParseResult<X, A>) -> ParseResult<Option<X>, A>
    ensures { result ≡ present answer }
{
    match answer {
        Ok(value) => Ok(Some(value)),
        Err(fault) => Err(fault),
    }
}

/// Ends a value, and returns an error.
#[inline(always)]
pub(crate) fn failed<X: Drop, Y, A>(_ended: X, fault: ParseFault<A>) -> ParseResult<Y, A>
    ensures { result ≡ Err fault }
{
    Err(fault)
}
