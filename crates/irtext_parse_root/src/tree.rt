//! The parser for an operation with everything nested in it, with names of its own.
ghost use Rattle.std.specs.Prelude.{◌≡◌, ℕ, List, ◌++◌, Some, Err, cond, false, IfOk, IfErr, OnOk};
ghost use Rattle.irtext_base.specs.Format.{Id};
ghost use Rattle.irtext_base.specs.Stream.{after_failure};
ghost use Rattle.irtext_context.specs.Context.{KeepsOlder};
ghost use Rattle.irtext_context.specs.declared.base.item.Item.{Item};
ghost use Rattle.irtext_graph.specs.Back.{AllOlder, IsClosedBelow};
ghost use Rattle.irtext_graph.specs.Graph.{children, parent, IsLive};
ghost use Rattle.irtext_graph.specs.Nested.{Nested};
ghost use Rattle.irtext_tokens.specs.AttrTexts.{attr_at};
ghost use Rattle.irtext_parse_state.specs.States.{marks_of};
ghost use Rattle.irtext_grammar.specs.Contexts.Formats.{IsAccepted};
ghost use Rattle.irtext_grammar.specs.Contexts.Held.{whole};
ghost use Rattle.irtext_grammar.specs.Promises.Root.{UnlessMemory};
ghost use Rattle.irtext_grammar.specs.Promises.Section.{Moves, indices_of};
ghost use Rattle.irtext_names.specs.Promises.{HasFault};
ghost use Rattle.irtext_parse_root.specs.AnyState.{ReadsTree};
ghost use Rattle.irtext_parse_root.specs.Parses.{CanUndo};

use crate::beside::ended;
use crate::nested::nested_parse;
use irtext_base::parsable::{CharStream, ParseFault, ParseResult, TextStream};
use irtext_base::text::{AttrText, IrText};
use irtext_context::base::context::making::Making;
use irtext_context::base::{Operation, Ptr};
use irtext_graph::held::HasGraph;
use irtext_names::kinds::Names;
use irtext_parse_state::parsable::{State, StateStream};
use irtext_scopes::tracker::NameTracker;

/// States, by its contract alone, what always holds of the state's context; the call changes nothing. Each object has at most one parent,
/// every live object was created before the current count of created objects, and the format of each operation is accepted.
pub(crate) fn context_keeps<T: IrText<A>, A: AttrText<A>, U>(state: &State<'_, T, A, U>)
    ensures nest { Nested (children state.now.ctx.now.graph) (parent state.now.ctx.now.graph) }
    ensures holders { (c k : _) → parent state.now.ctx.now.graph c ≡ Some k
        → IsLive state.now.ctx.now.graph k }
    ensures older { AllOlder state.now.ctx.now.graph.made state.now.ctx.now.graph }
    ensures closed { IsClosedBelow state.now.ctx.now.graph.made state.now.ctx.now.graph }
    ensures accepted { (id : Id) → IsAccepted state.now.ctx.now.dialects id }
{
    state.ctx.graph().keeps_nesting();
    state.ctx.made();
    state.ctx.keeps_formats();
}

/// Returns the error of a parser that had names of its own, which end here. A committed error leaves the stream failed.
pub(crate) fn refused<A, X>(
    stream: &mut TextStream,
    fault: ParseFault<A>,
    names: Names,
) -> ParseResult<X, A>
    ensures same { result ≡ Err fault }
    ensures fails { stream.new ≡ cond fault.committed (after_failure stream.old) stream.old }
{
    if fault.committed {
        stream.fail();
    }
    ended(Err(fault), names)
}

/// Parses an operation with everything nested in it. On an error, the objects that were created stay in the context. A mark with an index
/// that is already recorded is an error.
pub fn tree_parse<T: IrText<A>, A: AttrText<A>, U>(
    s: &mut StateStream<'_, T, A, U>,
) -> ParseResult<Ptr<Operation>, A>
    requires fine { s.old.stream.failed ≡ false }
    ensures lent { s.new.state.ctx.ghost_name ≡ s.old.state.ctx.ghost_name }
    ensures undone { CanUndo s.old result s.new }
    ensures read { IfOk result (λ op. ReadsTree T.IrText.reading (attr_at A.IrText.reading) op s.old s.new) }
    ensures missed { IfErr result (UnlessMemory (HasFault {T = T} T.IrText.reading
        (attr_at A.IrText.reading) s.old.state.ctx.now.dialects
        (indices_of (marks_of s.old.state)) (whole s.old.stream) s.old.stream.rest)) }
    ensures accepted { (id : Id) → IsAccepted s.old.state.ctx.now.dialects id }
    ensures older { AllOlder s.old.state.ctx.now.graph.made s.old.state.ctx.now.graph }
    ensures moves { OnOk result (Moves s.old.stream s.new.stream) }
    ensures noted { (more : List (ℕ × Item)) × (marks_of s.new.state ≡ marks_of s.old.state ++ more) }
    ensures kept { KeepsOlder s.old.state.ctx.now.graph.made s.old.state.ctx.now s.new.state.ctx.now }
{
    let mut names = NameTracker::with_seed(s.stream.allocator(), s.state.seed());
    context_keeps(&s.state);
    match nested_parse(s, &mut names) {
        Ok(op) => {
            context_keeps(&s.state);
            ended(Ok(op), names)
        }
        Err(fault) => refused(&mut s.stream, fault, names),
    }
}
