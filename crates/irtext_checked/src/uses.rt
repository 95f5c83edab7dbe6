//! Changes of what an operation uses, where the caller does not know whether the operation has such a use.
ghost use Rattle.std.specs.Prelude.{◌≡◌, ◌<◌, ◌↔◌, ℕ, IsTrue, IfErr, IfSome, IfNone, OnOk, OnErr, length};
ghost use Rattle.irtext_base.specs.declared.location.Location.{Unknown};
ghost use Rattle.irtext_graph.specs.Edits.{Redirects};
ghost use Rattle.irtext_graph.specs.Graph.{IsLive, IsNew, KeepsOlder};
ghost use Rattle.irtext_graph.specs.Parts.{operands, successors, IsDefinedValue};
ghost use Rattle.irtext_graph.specs.declared.object.Defined.TheVariants.{OfValue, OfBlock};
ghost use Rattle.irtext_graph.specs.declared.object.Object.TheVariants.{TheOperation, TheBlock};
ghost use Rattle.irtext_graph.specs.declared.object.Site.TheVariants.{AtOperand, AtSuccessor};
ghost use Rattle.irtext_checked.specs.Placing.{FailsToSetOperand, FailsToSetSuccessor, RefusesFor};
ghost use Rattle.irtext_checked.specs.Types.{IsContainedValue};

use crate::contains::ContainsParts;
use crate::unmet::Unmet;
use irtext_base::result;
use irtext_base::result::ErrorKind;
use irtext_base::text::{AttrText, IrText};
use irtext_context::base::{BasicBlock, Context, Operation, Ptr, Value};
use irtext_graph::graph::Graph;
use irtext_graph::held::HasGraph;
use irtext_graph::object::Object;
use irtext_graph_queries::edits::OperationEdits;

/// Changes of what an operation uses that test first what the calls of `OperationEdits` require. If an error is returned, it is of kind
/// invalid argument and has no location, and the context is unchanged.
pub trait TrySetUses: Sized {
    ghost use Rattle.irtext_graph.specs.declared.arena.Ptr.{Ptr};
    ghost use Rattle.irtext_graph.specs.declared.object.Operation.{Operation};

    // the pointer
    ghost pointer: { Self → Ptr Operation };

    /// Replaces the operand at an index by a value, as `set_operand` does. Fails with `Text` if the operation has no operand with this
    /// index, as if it is not in the context, or the value is not in the context (`contains_value`). The text says which. Fails with
    /// `Memory` if there is no memory for the text.
    fn try_set_operand<T: IrText<A>, A: AttrText<A>>(
        self,
        ctx: &mut Context<T, A>,
        index: usize,
        value: Value,
    ) -> result::Result<(), A>
        ensures ok { OnOk result (Redirects ctx.old.graph ctx.new.graph (AtOperand (pointer self) index)
            (OfValue value)) }
        ensures within { OnOk result (index < length (operands ctx.old.graph (pointer self))) }
        ensures alive { OnOk result (IsContainedValue ctx.old value) }
        ensures rest { ctx.new ≡ record ctx.old { graph = ctx.new.graph } }
        ensures err { OnErr result (ctx.new ≡ ctx.old) }
        ensures refused { IfErr result (λ e. RefusesFor (FailsToSetOperand ctx.old
            (pointer self) index value) e.err) }
        ensures kept { (m : ℕ) → IsNew m ctx.old.graph (TheOperation (pointer self))
            → KeepsOlder m ctx.old.graph ctx.new.graph }
        ensures kind { IfErr result (λ e. (e.kind ≡ ErrorKind.InvalidArgument) × (e.loc ≡ Unknown)) };

    /// Replaces the successor at an index by a block, as `set_successor` does. Fails with `Text` if the operation has no successor with this
    /// index, as if it is not in the context, or the block is not in the context. The text says which. Fails with `Memory` if there is no
    /// memory for the text.
    fn try_set_successor<T: IrText<A>, A: AttrText<A>>(
        self,
        ctx: &mut Context<T, A>,
        index: usize,
        block: Ptr<BasicBlock>,
    ) -> result::Result<(), A>
        ensures ok { OnOk result (Redirects ctx.old.graph ctx.new.graph (AtSuccessor (pointer self) index)
            (OfBlock block)) }
        ensures within { OnOk result (index < length (successors ctx.old.graph (pointer self))) }
        ensures alive { OnOk result (IsLive ctx.old.graph (TheBlock block)) }
        ensures rest { ctx.new ≡ record ctx.old { graph = ctx.new.graph } }
        ensures err { OnErr result (ctx.new ≡ ctx.old) }
        ensures refused { IfErr result (λ e. RefusesFor (FailsToSetSuccessor ctx.old
            (pointer self) index block) e.err) }
        ensures kept { (m : ℕ) → IsNew m ctx.old.graph (TheOperation (pointer self))
            → KeepsOlder m ctx.old.graph ctx.new.graph }
        ensures kind { IfErr result (λ e. (e.kind ≡ ErrorKind.InvalidArgument) × (e.loc ≡ Unknown)) };
}

/// Whether an operation has an operand with an index.
fn has_operand<O: Drop, B: Drop, T: Drop>(
    graph: &Graph<O, B, T>,
    op: Ptr<Operation>,
    index: usize,
) -> bool
    ensures { IsTrue result ↔ index < length (operands graph.now op) }
{
    graph.contains(Object::TheOperation(op)) && index < graph.num_operands(op)
}

/// Whether an operation has a successor with an index.
fn has_successor<O: Drop, B: Drop, T: Drop>(
    graph: &Graph<O, B, T>,
    op: Ptr<Operation>,
    index: usize,
) -> bool
    ensures { IsTrue result ↔ index < length (successors graph.now op) }
{
    graph.contains(Object::TheOperation(op)) && index < graph.num_successors(op)
}

/// The first condition under which an operand cannot be set.
fn unmet_to_set_operand<T: IrText<A>, A: AttrText<A>>(
    ctx: &Context<T, A>,
    op: Ptr<Operation>,
    index: usize,
    value: Value,
) -> Option<Unmet>
    ensures some { IfSome result (FailsToSetOperand ctx.now op index value) }
    ensures within { IfNone result (index < length (operands ctx.now.graph op)) }
    ensures alive { IfNone result (IsContainedValue ctx.now value) }
    ensures defined { IfNone result (IsDefinedValue ctx.now.graph value) }
{
    if !has_operand(ctx.graph(), op, index) {
        return Some(Unmet::NoOperand);
    }
    if !ctx.contains_value(value) {
        return Some(Unmet::ValueGone);
    }
    None
}

/// The first condition under which a successor cannot be set.
fn unmet_to_set_successor<T: IrText<A>, A: AttrText<A>>(
    ctx: &Context<T, A>,
    op: Ptr<Operation>,
    index: usize,
    block: Ptr<BasicBlock>,
) -> Option<Unmet>
    ensures some { IfSome result (FailsToSetSuccessor ctx.now op index block) }
    ensures within { IfNone result (index < length (successors ctx.now.graph op)) }
    ensures alive { IfNone result (IsLive ctx.now.graph (TheBlock block)) }
{
    if !has_successor(ctx.graph(), op, index) {
        return Some(Unmet::NoSuccessor);
    }
    if !ctx.contains_block(block) {
        return Some(Unmet::BlockGone);
    }
    None
}

impl TrySetUses for Ptr<Operation> {
    ghost pointer = { λ p. p };

    #[tactic(auto, using(crate::proofs::Unmets::refuses_for))]
    fn try_set_operand<T: IrText<A>, A: AttrText<A>>(
        self,
        ctx: &mut Context<T, A>,
        index: usize,
        value: Value,
    ) -> result::Result<(), A> {
        if let Some(unmet) = unmet_to_set_operand(ctx, self, index, value) {
            return Err(unmet.into_error(ctx.allocator()));
        }
        self.set_operand(ctx, index, value);
        Ok(())
    }

    #[tactic(auto, using(crate::proofs::Unmets::refuses_for))]
    fn try_set_successor<T: IrText<A>, A: AttrText<A>>(
        self,
        ctx: &mut Context<T, A>,
        index: usize,
        block: Ptr<BasicBlock>,
    ) -> result::Result<(), A> {
        if let Some(unmet) = unmet_to_set_successor(ctx, self, index, block) {
            return Err(unmet.into_error(ctx.allocator()));
        }
        self.set_successor(ctx, index, block);
        Ok(())
    }
}
