//! The location of what is parsed.
ghost use Rattle.irtext_grammar.specs.Contexts.Held.{whole};
ghost use Rattle.irtext_names.specs.Located.{IsLocatedAt};

use irtext_base::location::Location;
use irtext_base::parsable::Place;
use irtext_base::text::{AttrText, IrText};
use irtext_parse_state::parsable::StateStream;
use irtext_parse_state::parsable::state::StreamLocation;

/// Returns the location of a position in the text.
pub fn location_at<T: IrText<A>, A: AttrText<A>, U>(
    s: &StateStream<'_, T, A, U>,
    at: Place,
) -> Location<A>
    ensures { IsLocatedAt s.now.state.src (whole s.now.stream) at result }
{
    Location::SrcPos {
        src: s.state.src,
        pos: s.stream.locate(at),
    }
}
