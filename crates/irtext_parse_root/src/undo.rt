//! How an outermost parser that fails is undone: what it created is removed, and the marks that it recorded are forgotten.
ghost use Rattle.std.specs.Prelude.{◌≡◌, OnErr};
ghost use Rattle.irtext_graph.specs.Back.{IsClosedBelow};
ghost use Rattle.irtext_parse_root.specs.Parses.{StartsAt, TakesBack};

use irtext_base::parsable::ParseResult;
use irtext_base::text::{AttrText, IrText};
use irtext_context::base::context::making::Making;
use irtext_parse_state::parsable::state::Noting;
use irtext_parse_state::parsable::{State, StateStream};

/// How many objects had been created, and how many marks were recorded, when a parser began.
#[derive(Clone, Copy)]
pub(crate) struct Start {
    made: u64,
    marks: usize,
}

/// Returns the start of a parser that begins in this state.
pub(crate) fn start_of<T: IrText<A>, A: AttrText<A>, U>(state: &State<'_, T, A, U>) -> Start
    ensures { StartsAt result state.now }
{
    Start {
        made: state.ctx.made(),
        marks: state.num_marks(),
    }
}

/// Returns the answer of a parser. If it is an error, removes the objects that were created since the start, and forgets the marks that
/// were recorded since.
pub(crate) fn undone_on_error<T: IrText<A>, A: AttrText<A>, U, X>(
    s: &mut StateStream<'_, T, A, U>,
    start: Start,
    answer: ParseResult<X, A>,
) -> ParseResult<X, A>
    requires closed { OnErr answer (IsClosedBelow start.made s.old.state.ctx.now.graph) }
    ensures lent { s.new.state.ctx.ghost_name ≡ s.old.state.ctx.ghost_name }
    ensures back { TakesBack start answer s.old result s.new }
{
    match answer {
        Ok(parsed) => Ok(parsed),
        Err(fault) => {
            s.state.ctx.roll_back(start.made);
            s.state.truncate_marks(start.marks);
            Err(fault)
        }
    }
}
