//! Whether a root is closed, or the first reason why it is not.
ghost use Rattle.std.specs.Prelude.{◌↔◌, IfOk, IfErr, IsOk};
ghost use Rattle.irtext_graph.specs.Graph.{IsLive};
ghost use Rattle.irtext_graph.specs.declared.object.Object.TheVariants.{TheOperation, TheBlock};
ghost use Rattle.irtext_closed.specs.Closed.{IsClosedRoot};
ghost use Rattle.irtext_closed.specs.Noted.{AreScopes};
ghost use Rattle.irtext_closed.specs.First.{IsBareRoot, IsRootReason, IsClosedAt, IsReasonAt, IsFirstReason};

use crate::not_closed::NotClosed;
use crate::scope::{Scopes, is_isolated, scopes_in};
use crate::typed::{untyped_argument, untyped_result};
use crate::uses::{stray_operand, stray_successor};
use irtext_base::text::{AttrText, IrText};
use irtext_context::base::{BasicBlock, BlockAccess, Context, Operation, Ptr, Value};
use irtext_graph::held::HasGraph;
use irtext_graph::object::Object;
use irtext_graph_queries::operation::OperationParts;

/// The key under which a text has the label of a block.
const BLOCK_LABEL_KEY: &str = "builtin_block_label";

/// Checks an operation of a root, without what is nested in it.
fn check_operation<T: IrText<A>, A: AttrText<A>>(
    ctx: &Context<T, A>,
    scopes: &Scopes,
    op: Ptr<Operation>,
) -> Result<(), NotClosed>
    requires alive { IsLive ctx.now.graph (TheOperation op) }
    requires known { AreScopes ctx.now scopes.now }
    ensures closed { IfOk result (λ x. IsClosedAt ctx.now (TheOperation op)) }
    ensures first { IfErr result (IsReasonAt ctx.now (TheOperation op)) }
{
    if !ctx.contains_operation(op) {
        return Err(NotClosed::Placeholder(op));
    }
    if let Some(i) = untyped_result(ctx, op) {
        return Err(NotClosed::Untyped(Value::Result(op, i)));
    }
    if let Some(i) = stray_operand(ctx, scopes, op) {
        return Err(NotClosed::Operand(op, i));
    }
    match stray_successor(ctx, op) {
        Some(i) => Err(NotClosed::Successor(op, i)),
        None => Ok(()),
    }
}

/// Checks a block of a root, without what is nested in it.
fn check_block<T: IrText<A>, A: AttrText<A>>(
    ctx: &Context<T, A>,
    block: Ptr<BasicBlock>,
) -> Result<(), NotClosed>
    requires { IsLive ctx.now.graph (TheBlock block) }
    ensures closed { IfOk result (λ x. IsClosedAt ctx.now (TheBlock block)) }
    ensures first { IfErr result (IsReasonAt ctx.now (TheBlock block)) }
{
    if block.attributes(ctx).get_str(BLOCK_LABEL_KEY).is_some() {
        return Err(NotClosed::Labelled(block));
    }
    match untyped_argument(ctx, block) {
        Some(i) => Err(NotClosed::Untyped(Value::Argument(block, i))),
        None => Ok(()),
    }
}

/// Checks an object of a root, without what is nested in it.
fn check_object<T: IrText<A>, A: AttrText<A>>(
    ctx: &Context<T, A>,
    scopes: &Scopes,
    object: Object,
) -> Result<(), NotClosed>
    requires alive { IsLive ctx.now.graph object }
    requires known { AreScopes ctx.now scopes.now }
    ensures closed { IfOk result (λ x. IsClosedAt ctx.now object) }
    ensures first { IfErr result (IsReasonAt ctx.now object) }
{
    match object {
        Object::TheOperation(op) => check_operation(ctx, scopes, op),
        Object::TheBlock(block) => check_block(ctx, block),
        Object::TheRegion(_) => Ok(()),
    }
}

/// Checks the root itself.
fn check_root<T: IrText<A>, A: AttrText<A>>(
    ctx: &Context<T, A>,
    root: Ptr<Operation>,
) -> Result<(), NotClosed>
    ensures bare { IfOk result (λ x. IsBareRoot ctx.now root) }
    ensures alive { IfOk result (λ x. IsLive ctx.now.graph (TheOperation root)) }
    ensures first { IfErr result (IsRootReason ctx.now root) }
{
    if !ctx.contains_operation(root) {
        return Err(NotClosed::NoOperation);
    }
    let graph = ctx.graph();
    if graph.get_parent(Object::TheOperation(root)).is_some() {
        return Err(NotClosed::InBlock);
    }
    if graph.num_results(root) > 0 {
        return Err(NotClosed::HasResults);
    }
    if graph.num_operands(root) > 0 {
        return Err(NotClosed::HasOperands);
    }
    if graph.num_successors(root) > 0 {
        return Err(NotClosed::HasSuccessors);
    }
    if root.num_regions(ctx) > 0 && !is_isolated(ctx, Object::TheOperation(root)) {
        return Err(NotClosed::NotIsolated);
    }
    Ok(())
}

/// Whether a root is closed, or why it is not: the first reason in the order of the text. The reasons of the root itself come first, as
/// they are listed, then those of the objects in it, each before what is nested in it. A closed root whose operations fit their formats is
/// parsed back from its printed text. Any pointer can be passed. It changes nothing, and does not recurse over nested regions.
///
/// Its time is linear in the objects in the root and in their uses. For that it keeps the isolated scope of each block; where there is no
/// memory for a block, it goes up from that block each time, and its result is the same.
pub fn check_closed<T: IrText<A>, A: AttrText<A>>(
    ctx: &Context<T, A>,
    root: Ptr<Operation>,
) -> Result<(), NotClosed>
    ensures closed { IsOk result ↔ IsClosedRoot ctx.now root }
    ensures first { IfErr result (IsFirstReason ctx.now root) }
{
    ctx.graph().keeps_nesting();
    check_root(ctx, root)?;
    let scopes = scopes_in(ctx, root);
    let top = Object::TheOperation(root);
    let mut at = Some(top);
    while let Some(object) = at {
        check_object(ctx, &scopes, object)?;
        at = ctx.graph().next_inside(top, object);
    }
    Ok(())
}
