//! The outermost parser of an operation, with or without the section after it. On an error it removes the objects that it created.
ghost use Rattle.std.specs.Prelude.{◌≡◌, false, OnOk};
ghost use Rattle.irtext_context.specs.Context.{KeepsOlder};
ghost use Rattle.irtext_graph.specs.Back.{IsClosedBelow};
ghost use Rattle.irtext_parse_state.specs.States.{IsFresh};
ghost use Rattle.irtext_grammar.specs.Readers.Refusals.{FailedRefusal};
ghost use Rattle.irtext_parse_root.specs.Parses.{Undoes, CanUndo, ResolvesOperation, FirstOfOperation, AnswersOperation};

use crate::tree::tree_parse;
use crate::undo::{start_of, undone_on_error};
use irtext_base::parsable::{CharStream, ParseFault, ParseResult};
use irtext_base::result::Cause;
use irtext_base::text::{AttrText, IrText};
use irtext_context::base::{Operation, Ptr};
use irtext_parse_section::section::section_parse;
use irtext_parse_state::parsable::StateStream;
use irtext_tokens::irfmt::faults::current_position;

/// Returns the error for a stream that has already failed, at its current position.
pub(crate) fn failed_fault<S: CharStream, A>(stream: &S) -> ParseFault<A>
    ensures { FailedRefusal (S.view stream.now) result (S.view stream.now) }
{
    ParseFault {
        pos: current_position(stream),
        cause: Cause::StreamFailed,
        committed: true,
    }
}

/// Parses an operation with everything nested in it and, if `look` is set and a mark is recorded, the section after it. On an error, the
/// objects that were created stay in the context.
fn marked_parse<T: IrText<A>, A: AttrText<A>, U>(
    s: &mut StateStream<'_, T, A, U>,
    look: bool,
) -> ParseResult<Ptr<Operation>, A>
    requires fine { s.old.stream.failed ≡ false }
    ensures lent { s.new.state.ctx.ghost_name ≡ s.old.state.ctx.ghost_name }
    ensures undone { CanUndo s.old result s.new }
    ensures answers { AnswersOperation T.IrText.own A.IrText.own look s.old result s.new }
    ensures closed { IsClosedBelow s.old.state.ctx.now.graph.made s.old.state.ctx.now.graph →
        IsClosedBelow s.old.state.ctx.now.graph.made s.new.state.ctx.now.graph }
    ensures kept { IsFresh s.old → KeepsOlder s.old.state.ctx.now.graph.made s.old.state.ctx.now
        s.new.state.ctx.now }
    ensures kept_alone { look ≡ false → KeepsOlder s.old.state.ctx.now.graph.made s.old.state.ctx.now
        s.new.state.ctx.now }
{
    let earlier = s.state.has_marks();
    let op = tree_parse(s)?;
    if !look || !s.state.has_marks() {
        return Ok(op);
    }
    section_parse(s, earlier)?;
    Ok(op)
}

/// Parses an operation with everything nested in it and, if `look` is set and a mark is recorded, the section after it. On an error, the
/// objects that were created are removed, and none of the operation's marks stays recorded. On a stream that has failed the error is
/// `StreamFailed`; if an allocation fails, the error is `Memory`.
///
/// Marks of roots that were parsed before may still be recorded, if they were parsed without their sections. A mark with the index of one
/// of them is then an error, `Cause::DuplicateIndex`. A section covers all recorded marks: it is parsed after an operation without a mark
/// too, its entries may be for any of the marks, each item gets what the entry of its mark gives, and no mark is recorded after it. An
/// item is an operation or a block that carries a mark.
///
/// An error that is not out of memory is the first one of the text, of a name or of a mark; so an operation is returned exactly for a text
/// that has none. Older objects, the source and the caller's data are unchanged, also by an error; a committed one leaves the stream
/// failed, and an uncommitted one leaves it unchanged.
pub fn outermost_parse<T: IrText<A>, A: AttrText<A>, U>(
    s: &mut StateStream<'_, T, A, U>,
    look: bool,
) -> ParseResult<Ptr<Operation>, A>
    ensures lent { s.new.state.ctx.ghost_name ≡ s.old.state.ctx.ghost_name }
    ensures undone { Undoes s.old result s.new }
    ensures resolves { ResolvesOperation T.IrText.own A.IrText.own look s.old result s.new }
    ensures first { FirstOfOperation T.IrText.own A.IrText.own look s.old result s.new }
    ensures keeps { IsFresh s.old → OnOk result (KeepsOlder s.old.state.ctx.now.graph.made s.old.state.ctx.now
        s.new.state.ctx.now) }
    ensures closed { OnOk result (IsClosedBelow s.old.state.ctx.now.graph.made s.old.state.ctx.now.graph →
        IsClosedBelow s.old.state.ctx.now.graph.made s.new.state.ctx.now.graph) }
{
    if s.stream.has_failed() {
        return Err(failed_fault(&s.stream));
    }
    let start = start_of(&s.state);
    let answer = marked_parse(s, look);
    undone_on_error(s, start, answer)
}
