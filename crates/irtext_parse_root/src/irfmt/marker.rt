//! The marker in place of an attribute that is printed in the section.
ghost use Rattle.irtext_base.specs.Faults.{characters};
ghost use Rattle.irtext_tokens.specs.Lists.{AlwaysKeepsRules, Calls, KeepsRules, UnlessFailed};
ghost use Rattle.irtext_grammar.specs.Readers.Marker.{MarkerOr, TakesWord};

use irtext_base::parsable::{CharStream, ParseResult};
use irtext_base::result::Cause;
use irtext_tokens::irfmt::faults::refuse;

/// The marker in place of an attribute that is printed in the section.
pub const OUTLINED_ATTR_MARKER: &'static str = "!outlined";

/// Consumes white space and a fixed text after it, if the whole text comes next, and returns whether it does. If it does not, the stream
/// is unchanged.
fn take_text<S: CharStream>(stream: &mut S, text: &str) -> bool
    ensures { TakesWord S.view S.at (characters text.now) stream.old result stream.new }
{
    stream.accept_spaced(text)
}

/// Parses optional white space and the marker, as `!outlined`, and returns `Ok(None)`. If the whole marker does not come next, calls
/// `item` on the unchanged stream, and returns its value in `Ok(Some(_))` or its error. On a stream that has failed the error is
/// `StreamFailed`.
pub fn outlined_marker_or<
    S: CharStream,
    X: Drop,
    A: Drop,
    F: FnMut(&mut S) -> ParseResult<X, A> + Drop,
>(stream: &mut S, mut item: F) -> ParseResult<Option<X>, A>
where
    requires callable { F.IsAlwaysCallable item }
    requires rules { AlwaysKeepsRules S.view S.at (λ r. r) F.FnMut }
    ensures answers { UnlessFailed S.view S.at
        (MarkerOr S.view S.at (Calls (λ r. r) F.FnMut) item)
        (S.view stream.old).failed stream.old result stream.new }
    ensures kept { KeepsRules S.view S.at stream.old result stream.new }
{
    if stream.has_failed() {
        return Err(refuse(stream, Cause::StreamFailed));
    }
    if take_text(stream, OUTLINED_ATTR_MARKER) {
        return Ok(None);
    }
    match item(stream) {
        Ok(x) => Ok(Some(x)),
        Err(fault) => Err(fault),
    }
}
