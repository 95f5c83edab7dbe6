//! The parser for an operation with everything nested in it.
ghost use Rattle.std.specs.Prelude.{◌≡◌, ◌≤◌, ℕ, false, IfOk, IfErr, OnOk, ⊤};
ghost use Rattle.irtext_graph.specs.Graph.{IsNew};
ghost use Rattle.irtext_graph.specs.declared.object.Object.TheVariants.{TheOperation};
ghost use Rattle.irtext_tokens.specs.AttrTexts.{attr_at};
ghost use Rattle.irtext_grammar.specs.Promises.Root.{UnlessMemory};
ghost use Rattle.irtext_parse_state.specs.States.{KeepsRest};
ghost use Rattle.irtext_parse_root.specs.Nested.{ReadsNested, RefusesNested};
ghost use Rattle.irtext_parse_root.specs.Turned.{Carries, IsSoundOnce, Spares};

use crate::frames::Frame;
use crate::items::items_parse;
use crate::turns::begin;
use irtext_base::parsable::ParseResult;
use irtext_base::text::{AttrText, IrText};
use irtext_context::base::{Operation, Ptr};
use irtext_names::kinds::Names;
use irtext_parse_pieces::keys::Keys;
use irtext_parse_state::parsable::StateStream;

/// Parses an operation outside of every region, with everything nested in it. The error is the first one in the order of the text. It is
/// committed, unless no operation comes next; then nothing was consumed. On an error, the objects that were created stay in the context,
/// and scopes of names may stay open.
pub fn nested_parse<T: IrText<A>, A: AttrText<A>, U>(
    s: &mut StateStream<'_, T, A, U>,
    names: &mut Names,
) -> ParseResult<Ptr<Operation>, A>
    requires fine { s.old.stream.failed ≡ false }
    requires sound { IsSoundOnce names.old s.old.state }
    ensures lent { s.new.state.ctx.ghost_name ≡ s.old.state.ctx.ghost_name }
    ensures read { IfOk result (λ p. ReadsNested T.IrText.reading (attr_at A.IrText.reading) names.old s.old p
        names.new s.new) }
    ensures carries { OnOk result (Carries names.old s.old names.new s.new) }
    ensures refused { IfErr result (UnlessMemory (RefusesNested T.IrText.reading (attr_at A.IrText.reading)
        names.old s.old)) }
    ensures unread { IfErr result (λ fault. fault.committed ≡ false → s.new.stream ≡ s.old.stream) }
    ensures new { IfOk result (λ p. (m : ℕ) → m ≤ s.old.state.ctx.now.graph.made
        → IsNew m s.new.state.ctx.now.graph (TheOperation p)) }
    ensures rest { KeepsRest s.old.state s.new.state }
    ensures spares { Spares (λ _. ⊤) names.old s.old.state result names.new s.new.state }
{
    let mut keys = Keys::none(s.stream.allocator());
    let begun = begin(s, names, &mut keys, None)?;
    let op = begun.op;
    items_parse(s, names, Frame::Operation(begun))?;
    Ok(op)
}
