//! Whether the types of values are known.
ghost use Rattle.std.specs.Prelude.{◌↔◌, ◌<◌, ℕ, IsTrue, IfSome, IfNone, length};
ghost use Rattle.irtext_graph.specs.Graph.{IsLive};
ghost use Rattle.irtext_graph.specs.Parts.{IsDefinedValue};
ghost use Rattle.irtext_graph.specs.declared.object.Object.TheVariants.{TheOperation, TheBlock};
ghost use Rattle.irtext_graph.specs.declared.object.Value.TheVariants.{Result, Argument};
ghost use Rattle.irtext_closed.specs.Closed.{IsTyped};
ghost use Rattle.irtext_closed.specs.First.{IsFirstNot};

use irtext_base::text::{AttrText, IrText};
use irtext_context::base::{BasicBlock, Context, Operation, Ptr, Value};
use irtext_graph::held::HasGraph;

/// Whether the type of a value is known.
fn is_typed<T: IrText<A>, A: AttrText<A>>(ctx: &Context<T, A>, value: Value) -> bool
    requires { IsDefinedValue ctx.now.graph value }
    ensures { IsTrue result ↔ IsTyped ctx.now value }
{
    ctx.graph().type_of(value).is_some()
}

/// The index of the first result whose type is not known.
pub(crate) fn untyped_result<T: IrText<A>, A: AttrText<A>>(
    ctx: &Context<T, A>,
    op: Ptr<Operation>,
) -> Option<usize>
    requires { IsLive ctx.now.graph (TheOperation op) }
    ensures none { IfNone result ((i : ℕ) → IsTyped ctx.now (Result op i)) }
    ensures first { IfSome result (IsFirstNot (λ i. IsTyped ctx.now (Result op i))) }
{
    for i in 0..ctx.graph().num_results(op) {
        if !is_typed(ctx, Value::Result(op, i)) {
            return Some(i);
        }
    }
    None
}

/// The index of the first argument whose type is not known.
pub(crate) fn untyped_argument<T: IrText<A>, A: AttrText<A>>(
    ctx: &Context<T, A>,
    block: Ptr<BasicBlock>,
) -> Option<usize>
    requires { IsLive ctx.now.graph (TheBlock block) }
    ensures none { IfNone result ((i : ℕ) → IsTyped ctx.now (Argument block i)) }
    ensures first { IfSome result (IsFirstNot (λ i. IsTyped ctx.now (Argument block i))) }
{
    for i in 0..ctx.graph().num_arguments(block) {
        if !is_typed(ctx, Value::Argument(block, i)) {
            return Some(i);
        }
    }
    None
}
