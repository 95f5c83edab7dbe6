//! The parser for one region of a live operation, with names of its own. On an error it removes the objects that it created.
ghost use Rattle.std.specs.Prelude.{◌≡◌, false, IsSome};
ghost use Rattle.irtext_context.specs.Context.{operation};
ghost use Rattle.irtext_parse_root.specs.Parses.{Undoes, CanUndo, ResolvesRegion, FirstOfRegion, AnswersRegion};
ghost use Rattle.irtext_parse_root.specs.Region.{unisolated, IsReportedAt};

use crate::beside::ended;
use crate::one_region as items;
use crate::one_region::{isolated_by, not_isolated, position_of};
use crate::outermost::failed_fault;
use crate::parsable::Parsable;
use crate::tree::{context_keeps, refused};
use crate::undo::{start_of, undone_on_error};
use irtext_base::parsable::{CharStream, ParseResult, SourcePosition};
use irtext_base::text::{AttrText, IrText};
use irtext_context::base::operation::OperationAccess;
use irtext_context::base::{Context, Operation, Ptr, Region};
use irtext_parse_state::parsable::{State, StateStream};
use irtext_scopes::tracker::NameTracker;

/// The position of an operation that is not isolated from above; `None` for an operation that is.
fn unisolated_at<T: IrText<A>, A: AttrText<A>>(
    ctx: &Context<T, A>,
    op: Ptr<Operation>,
) -> Option<SourcePosition>
    requires { IsSome (operation ctx.now op) }
    ensures { IsReportedAt (unisolated ctx.now op) result }
{
    if isolated_by(ctx, op.get_opid(ctx)) {
        return None;
    }
    Some(position_of(op.loc(ctx)))
}

/// The same for an operation of the state's context.
fn unisolated_here<T: IrText<A>, A: AttrText<A>, U>(
    state: &State<'_, T, A, U>,
    op: Ptr<Operation>,
) -> Option<SourcePosition>
    requires { IsSome (operation state.now.ctx.now op) }
    ensures { IsReportedAt (unisolated state.now.ctx.now op) result }
{
    unisolated_at(state.ctx, op)
}

/// Parses a region with everything nested in it, with new names, and appends it to an operation. If the operation is not isolated from
/// above, fails at the position of its location: no name of the enclosing scopes is known. On an error, the objects that were created stay
/// in the context, but none of them is in the operation.
fn alone_parse<T: IrText<A>, A: AttrText<A>, U>(
    s: &mut StateStream<'_, T, A, U>,
    parent: Ptr<Operation>,
) -> ParseResult<Ptr<Region>, A>
    requires fine { s.old.stream.failed ≡ false }
    requires alive { IsSome (operation s.old.state.ctx.now parent) }
    ensures lent { s.new.state.ctx.ghost_name ≡ s.old.state.ctx.ghost_name }
    ensures undone { CanUndo s.old result s.new }
    ensures answers { AnswersRegion T.IrText.own A.IrText.own parent s.old result s.new }
{
    if let Some(at) = unisolated_here(&s.state, parent) {
        return Err(not_isolated(&mut s.stream, at));
    }
    let mut names = NameTracker::with_seed(s.stream.allocator(), s.state.seed());
    context_keeps(&s.state);
    match items::region_parse(s, &mut names, parent) {
        Ok(region) => {
            context_keeps(&s.state);
            ended(Ok(region), names)
        }
        Err(fault) => refused(&mut s.stream, fault, names),
    }
}

impl<T: IrText<A>, A: AttrText<A>, U> Parsable<T, A, U> for Region {
    /// The operation to which the region is appended. It has to be live in the context.
    type Arg = Ptr<Operation>;

    type Parsed = Ptr<Region>;

    ghost can_parse = { λ op s. IsSome (operation s.state.ctx.now op) };

    /// Parses `{`, blocks and `}` at the current position of the stream, with everything nested in them, and appends the region to an
    /// operation. The marks of the region are recorded after those of earlier texts, and no section is parsed: the next section that is
    /// parsed with this state is for all of them. A mark with an index that is recorded already is an error, `Cause::DuplicateIndex`. The
    /// region is appended only when all of it has been parsed, so on an error all objects and marks are unchanged.
    ///
    /// The region has scopes of names of its own, so for an operation that is not isolated from above the error is
    /// `TopLevelOpRegionNotIsolatedFromAbove`, at the line and column of its location, whatever the text is. For an isolated one it is the
    /// first error of the text, on every state: a fault of the text with no name failing before it, or the failure of a name or a mark,
    /// whatever text follows. The error is uncommitted if the operation is isolated and `{` does not come next; otherwise the stream is
    /// left failed. On a stream that has failed the error is `StreamFailed`; if an allocation fails, the error is `Memory`. This text is a
    /// region of one block, which has one argument and one operation:
    ///
    /// ```text
    /// { ^entry(x: builtin.integer si64): test.use x }
    /// ```
    fn parse(
        stream: &mut StateStream<'_, T, A, U>,
        op: Ptr<Operation>,
    ) -> ParseResult<Ptr<Region>, A>
        requires { IsSome (operation stream.old.state.ctx.now op) }
        ensures lent { stream.new.state.ctx.ghost_name ≡ stream.old.state.ctx.ghost_name }
        ensures undone { Undoes stream.old result stream.new }
        ensures resolves { ResolvesRegion T.IrText.own A.IrText.own op stream.old result stream.new }
        ensures first { FirstOfRegion T.IrText.own A.IrText.own op stream.old result stream.new }
    {
        if stream.stream.has_failed() {
            return Err(failed_fault(&stream.stream));
        }
        let start = start_of(&stream.state);
        let answer = alone_parse(stream, op);
        undone_on_error(stream, start, answer)
    }
}
