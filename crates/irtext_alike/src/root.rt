//! Whether another context knows each operation in a root alike, or the first one that it does not.
ghost use Rattle.std.specs.Prelude.{◌↔◌, IfOk, IfErr, IsOk};
ghost use Rattle.irtext_graph.specs.Graph.{IsLive};
ghost use Rattle.irtext_graph.specs.declared.object.Object.TheVariants.{TheOperation};
ghost use Rattle.irtext_alike.specs.Alike.{KnowsRoot};
ghost use Rattle.irtext_alike.specs.First.{IsAlikeAt, IsUnlikeAt, IsFirstUnlike};

use crate::known::unlike_id;
use crate::unlike::UnlikeOperation;
use irtext_base::text::{AttrText, IrText};
use irtext_context::base::{Context, Operation, OperationAccess, Ptr};
use irtext_graph::held::HasGraph;
use irtext_graph::object::Object;

/// Compares an operation that is no placeholder, without what is nested in it.
fn check_operation<T: IrText<A>, A: AttrText<A>>(
    ctx: &Context<T, A>,
    op: Ptr<Operation>,
    other: &Context<T, A>,
) -> Result<(), UnlikeOperation>
    ensures alike { IfOk result (λ x. IsAlikeAt ctx.now other.now.dialects (TheOperation op)) }
    ensures unlike { IfErr result (IsUnlikeAt ctx.now other.now.dialects (TheOperation op)) }
{
    if !ctx.contains_operation(op) {
        return Ok(());
    }
    match unlike_id(ctx, op.get_opid(ctx), other) {
        Some(why) => Err(UnlikeOperation { op, why }),
        None => Ok(()),
    }
}

/// Compares an object, without what is nested in it.
fn check_object<T: IrText<A>, A: AttrText<A>>(
    ctx: &Context<T, A>,
    object: Object,
    other: &Context<T, A>,
) -> Result<(), UnlikeOperation>
    ensures alike { IfOk result (λ x. IsAlikeAt ctx.now other.now.dialects object) }
    ensures unlike { IfErr result (IsUnlikeAt ctx.now other.now.dialects object) }
{
    match object {
        Object::TheOperation(op) => check_operation(ctx, op, other),
        Object::TheBlock(_) => Ok(()),
        Object::TheRegion(_) => Ok(()),
    }
}

/// Whether another context knows each operation in a root as the root's context does: it is registered with neither, or with both, with the
/// same format and isolation. Otherwise the error is the first operation in the order of the text that it knows otherwise, and how. A
/// closed root is parsed back from its text in a context that knows it. Any pointer can be passed: one to no live object has no
/// operations. It allocates nothing, changes nothing, and does not recurse over nested regions. Its time grows with the objects in the
/// root and with the lengths of their formats.
pub fn knows_root<T: IrText<A>, A: AttrText<A>>(
    ctx: &Context<T, A>,
    root: Ptr<Operation>,
    other: &Context<T, A>,
) -> Result<(), UnlikeOperation>
    ensures known { IsOk result ↔ KnowsRoot ctx.now other.now.dialects root }
    ensures first { IfErr result (IsFirstUnlike ctx.now other.now.dialects root) }
{
    ctx.graph().keeps_nesting();
    let top = Object::TheOperation(root);
    if !ctx.graph().contains(top) {
        return Ok(());
    }
    let mut at = Some(top);
    while let Some(object) = at {
        check_object(ctx, object, other)?;
        at = ctx.graph().next_inside(top, object);
    }
    Ok(())
}
