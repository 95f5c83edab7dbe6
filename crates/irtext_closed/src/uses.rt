//! Whether operations reach what they use.
ghost use Rattle.std.specs.Prelude.{◌≡◌, ◌↔◌, ◌<◌, ℕ, IsTrue, IfSome, IfNone, length};
ghost use Rattle.irtext_graph.specs.Erasing.{owner};
ghost use Rattle.irtext_graph.specs.Graph.{IsLive};
ghost use Rattle.irtext_graph.specs.Parts.{operands, successors};
ghost use Rattle.irtext_graph.specs.declared.object.Defined.TheVariants.{OfValue};
ghost use Rattle.irtext_graph.specs.declared.object.Object.TheVariants.{TheOperation};
ghost use Rattle.irtext_graph.specs.declared.object.Site.TheVariants.{AtOperand, AtSuccessor};
ghost use Rattle.irtext_closed.specs.Closed.{IsUseReached};
ghost use Rattle.irtext_closed.specs.First.{IsFirstNot};
ghost use Rattle.irtext_closed.specs.Noted.{AreScopes};

use crate::scope::{Scopes, is_same, shares_scope};
use irtext_base::text::{AttrText, IrText};
use irtext_context::base::{Context, Operation, Ptr, Value};
use irtext_graph::held::HasGraph;
use irtext_graph::object::Object;

/// The operation or the block that defines a value.
fn owner_of(value: Value) -> Object
    ensures { result ≡ owner (OfValue value) }
{
    match value {
        Value::Result(op, _) => Object::TheOperation(op),
        Value::Argument(block, _) => Object::TheBlock(block),
    }
}

/// Whether the operand at an index is a value of the operation's isolated scope.
fn reaches_operand<T: IrText<A>, A: AttrText<A>>(
    ctx: &Context<T, A>,
    scopes: &Scopes,
    op: Ptr<Operation>,
    index: usize,
) -> bool
    requires alive { IsLive ctx.now.graph (TheOperation op) }
    requires within { index < length (operands ctx.now.graph op) }
    requires known { AreScopes ctx.now scopes.now }
    ensures { IsTrue result ↔ IsUseReached ctx.now (AtOperand op index) }
{
    let graph = ctx.graph();
    graph.keeps_nesting();
    let value = graph.get_operand(op, index);
    shares_scope(ctx, scopes, Object::TheOperation(op), owner_of(value))
}

/// Whether the successor at an index is a block of the operation's region.
fn reaches_successor<T: IrText<A>, A: AttrText<A>>(
    ctx: &Context<T, A>,
    op: Ptr<Operation>,
    index: usize,
) -> bool
    requires alive { IsLive ctx.now.graph (TheOperation op) }
    requires within { index < length (successors ctx.now.graph op) }
    ensures { IsTrue result ↔ IsUseReached ctx.now (AtSuccessor op index) }
{
    let graph = ctx.graph();
    graph.keeps_nesting();
    let block = graph.get_successor(op, index);
    let holder = graph.get_parent(Object::TheBlock(block));
    is_same(holder, graph.ancestor(Object::TheOperation(op), 2))
}

/// The index of the first operand that is not a value of the operation's isolated scope.
pub(crate) fn stray_operand<T: IrText<A>, A: AttrText<A>>(
    ctx: &Context<T, A>,
    scopes: &Scopes,
    op: Ptr<Operation>,
) -> Option<usize>
    requires alive { IsLive ctx.now.graph (TheOperation op) }
    requires known { AreScopes ctx.now scopes.now }
    ensures none { IfNone result ((j : ℕ) → IsUseReached ctx.now (AtOperand op j)) }
    ensures first { IfSome result (IsFirstNot (λ j. IsUseReached ctx.now (AtOperand op j))) }
{
    for i in 0..ctx.graph().num_operands(op) {
        if !reaches_operand(ctx, scopes, op, i) {
            return Some(i);
        }
    }
    None
}

/// The index of the first successor that is not a block of the operation's region.
pub(crate) fn stray_successor<T: IrText<A>, A: AttrText<A>>(
    ctx: &Context<T, A>,
    op: Ptr<Operation>,
) -> Option<usize>
    requires { IsLive ctx.now.graph (TheOperation op) }
    ensures none { IfNone result ((j : ℕ) → IsUseReached ctx.now (AtSuccessor op j)) }
    ensures first { IfSome result (IsFirstNot (λ j. IsUseReached ctx.now (AtSuccessor op j))) }
{
    for i in 0..ctx.graph().num_successors(op) {
        if !reaches_successor(ctx, op, i) {
            return Some(i);
        }
    }
    None
}
