//! The actions of the loop, each with its contract.
ghost use Rattle.std.specs.Prelude.{◌≡◌, ℕ, false, true, length, is_some, IfOk, IfErr, IfSome, IsSome, OnOk};
ghost use Rattle.irtext_context.specs.Context.{operation};
ghost use Rattle.irtext_graph.specs.Graph.{IsNew, IsLive};
ghost use Rattle.irtext_graph.specs.Parts.{results};
ghost use Rattle.irtext_graph.specs.declared.object.Object.TheVariants.{TheOperation, TheBlock, TheRegion};
ghost use Rattle.irtext_tokens.specs.AttrTexts.{attr_at};
ghost use Rattle.irtext_scopes.specs.Scopes.{is_open};
ghost use Rattle.irtext_grammar.specs.Contexts.Held.{whole};
ghost use Rattle.irtext_grammar.specs.Promises.Root.{UnlessMemory};
ghost use Rattle.irtext_grammar.specs.Unchanged.{IsThere};
ghost use Rattle.irtext_names.specs.Rows.{AreKnown};
ghost use Rattle.irtext_parse_nested.specs.OpenOperation.{IsRegion};
ghost use Rattle.irtext_names.specs.Definitions.{numbers_of};
ghost use Rattle.irtext_parse_nested.specs.Read.{RefusesOperation, RefusesNext, RefusesItsEnd, RefusesRegion, RefusesRegionEnd, RefusesBlock};
ghost use Rattle.irtext_parse_root.specs.Turned.{IsSteady, Spares};
ghost use Rattle.irtext_parse_root.specs.Turns.{IsNext, IsOpenOperation, HasNextStep, IsOpenRegion, Begins, Continues, Ends, Enters, Leaves, Heads};
ghost use Rattle.irtext_parse_pieces.specs.declared.coming.Coming.TheVariants as comes;

use irtext_base::parsable::ParseResult;
use irtext_base::text::{AttrText, IrText};
use irtext_context::base::{BasicBlock, Operation, Ptr, Region};
use irtext_names::kinds::Names;
use irtext_parse_nested::beginning::operation_begin;
use irtext_parse_nested::blocks::block_begin;
use irtext_parse_nested::frame::{BegunBlock, BegunOperation, BegunRegion};
use irtext_parse_nested::later::operation_piece;
use irtext_parse_nested::operation_end::operation_end;
use irtext_parse_nested::regions::{region_begin, region_end};
use irtext_parse_pieces::keys::Keys;
use irtext_parse_state::parsable::StateStream;

/// Begins an operation: the last of a block, or one outside of every region.
pub(crate) fn begin<T: IrText<A>, A: AttrText<A>, U>(
    s: &mut StateStream<'_, T, A, U>,
    names: &mut Names,
    keys: &mut Keys,
    block: Option<Ptr<BasicBlock>>,
) -> ParseResult<BegunOperation, A>
    requires steady { IsSteady names.old s.old }
    requires place { IfSome block (λ b. IsThere s.old.state.ctx.now (TheBlock b)) }
    ensures lent { s.new.state.ctx.ghost_name ≡ s.old.state.ctx.ghost_name }
    ensures begins { IfOk result (λ b. Begins T.IrText.reading (attr_at A.IrText.reading) names.old s.old
        block b names.new s.new) }
    ensures refused { IfErr result (UnlessMemory (RefusesOperation T.IrText.reading (attr_at A.IrText.reading)
        (is_some block) names.old s.old)) }
    ensures unread { IfErr result (λ fault. fault.committed ≡ false → s.new.stream ≡ s.old.stream) }
    ensures spares { Spares (λ m. IfSome block (λ b. IsNew m s.old.state.ctx.now.graph (TheBlock b)))
        names.old s.old.state
        result names.new s.new.state }
{
    operation_begin(s, names, keys, block)
}

/// Parses a piece after a region, by the next step of an open operation.
pub(crate) fn go_on<T: IrText<A>, A: AttrText<A>, U>(
    s: &mut StateStream<'_, T, A, U>,
    names: &mut Names,
    begun: &mut BegunOperation,
) -> ParseResult<(), A>
    requires steady { IsSteady names.old s.old }
    requires alive { IsSome (operation s.old.state.ctx.now begun.old.op) }
    requires step { IsNext s.old.state.ctx.now.dialects begun.old comes.Piece }
    requires begun { HasNextStep names.old s.old begun.old }
    ensures lent { s.new.state.ctx.ghost_name ≡ s.old.state.ctx.ghost_name }
    ensures goes_on { OnOk result (Continues T.IrText.reading (attr_at A.IrText.reading) names.old s.old
        begun.old begun.new
        names.new s.new) }
    ensures refused { IfErr result (RefusesNext T.IrText.reading (attr_at A.IrText.reading) begun.old
        names.old s.old) }
    ensures committed { IfErr result (λ fault. fault.committed ≡ true) }
    ensures spares { Spares (λ m. IsNew m s.old.state.ctx.now.graph (TheOperation begun.old.op))
        names.old s.old.state
        result names.new s.new.state }
{
    operation_piece(s, names, begun)
}

/// Ends an operation.
pub(crate) fn end<T: IrText<A>, A: AttrText<A>, U>(
    s: &mut StateStream<'_, T, A, U>,
    names: &mut Names,
    begun: &BegunOperation,
) -> ParseResult<(), A>
    requires steady { IsSteady names.old s.old }
    requires alive { IsSome (operation s.old.state.ctx.now begun.now.op) }
    requires counts { length (results s.old.state.ctx.now.graph begun.now.op) ≡ begun.now.results }
    requires known { AreKnown (length names.old.names) (numbers_of begun.now.names) }
    requires begun { IsOpenOperation names.old s.old begun.now }
    ensures lent { s.new.state.ctx.ghost_name ≡ s.old.state.ctx.ghost_name }
    ensures ends { OnOk result (Ends T.IrText.reading (attr_at A.IrText.reading) names.old s.old begun.now
        names.new s.new) }
    ensures refused { IfErr result (RefusesItsEnd T.IrText.reading (attr_at A.IrText.reading) begun.now
        names.old s.old) }
    ensures committed { IfErr result (λ fault. fault.committed ≡ true) }
    ensures spares { Spares (λ m. IsNew m s.old.state.ctx.now.graph (TheOperation begun.now.op))
        names.old s.old.state
        result names.new s.new.state }
{
    operation_end(s, names, begun)
}

/// Begins a region, the last of an operation. `isolated` says whether the operation is isolated from above.
pub(crate) fn enter<T: IrText<A>, A: AttrText<A>, U>(
    s: &mut StateStream<'_, T, A, U>,
    names: &mut Names,
    op: Ptr<Operation>,
    isolated: bool,
) -> ParseResult<BegunRegion, A>
    requires steady { IsSteady names.old s.old }
    requires alive { IsSome (operation s.old.state.ctx.now op) }
    ensures lent { s.new.state.ctx.ghost_name ≡ s.old.state.ctx.ghost_name }
    ensures enters { IfOk result (λ r. Enters T.IrText.reading (attr_at A.IrText.reading) names.old s.old op
        isolated r names.new s.new) }
    ensures refused { IfErr result (UnlessMemory (RefusesRegion T.IrText.reading (attr_at A.IrText.reading)
        isolated names.old s.old)) }
    ensures committed { IfErr result (λ fault. fault.committed ≡ true) }
    ensures spares { Spares (λ m. IsNew m s.old.state.ctx.now.graph (TheOperation op)) names.old s.old.state
        result names.new s.new.state }
{
    region_begin(s, names, Some(op), isolated)
}

/// Ends a region.
pub(crate) fn leave<T: IrText<A>, A: AttrText<A>, U>(
    s: &mut StateStream<'_, T, A, U>,
    names: &mut Names,
    region: BegunRegion,
) -> ParseResult<(), A>
    requires steady { IsSteady names.old s.old }
    requires begun { IsOpenRegion names.old s.old region }
    ensures lent { s.new.state.ctx.ghost_name ≡ s.old.state.ctx.ghost_name }
    ensures leaves { OnOk result (Leaves T.IrText.reading (attr_at A.IrText.reading) names.old s.old region
        names.new s.new) }
    ensures refused { IfErr result (λ fault. (place : ℕ) → IsRegion names.old.names (whole s.old.stream)
        s.old.state.ctx.now region
        region.isolated place
        → UnlessMemory (RefusesRegionEnd T.IrText.reading (attr_at A.IrText.reading) region.isolated place
        names.old s.old) fault) }
    ensures committed { IfErr result (λ fault. fault.committed ≡ true) }
    ensures spares { Spares (λ m. IsNew m s.old.state.ctx.now.graph (TheRegion region.region))
        names.old s.old.state
        result names.new s.new.state }
{
    region_end(s, names, region)
}

/// Begins a block, the last of a region.
pub(crate) fn head<T: IrText<A>, A: AttrText<A>, U>(
    s: &mut StateStream<'_, T, A, U>,
    names: &mut Names,
    keys: &mut Keys,
    region: Ptr<Region>,
) -> ParseResult<BegunBlock, A>
    requires steady { IsSteady names.old s.old }
    requires region { IsLive s.old.state.ctx.now.graph (TheRegion region) }
    requires open { (is_open names.old.values ≡ true) × (is_open names.old.labels ≡ true) }
    ensures lent { s.new.state.ctx.ghost_name ≡ s.old.state.ctx.ghost_name }
    ensures first { IfOk result (λ b. b.first ≡ true) }
    ensures heads { IfOk result (λ b. Heads T.IrText.reading (attr_at A.IrText.reading) names.old s.old region
        b names.new s.new) }
    ensures refused { IfErr result (UnlessMemory (RefusesBlock T.IrText.reading (attr_at A.IrText.reading)
        names.old s.old)) }
    ensures committed { IfErr result (λ fault. fault.committed ≡ true) }
    ensures spares { Spares (λ m. IsNew m s.old.state.ctx.now.graph (TheRegion region)) names.old s.old.state
        result names.new s.new.state }
{
    block_begin(s, names, keys, region)
}
