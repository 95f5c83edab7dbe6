//! Whether a context keeps the files of all locations in a root.
ghost use Rattle.std.specs.Prelude.{◌↔◌, IsTrue};
ghost use Rattle.irtext_graph.specs.Graph.{IsLive};
ghost use Rattle.irtext_closed.specs.Located.{IsLocatedAt, IsLocatedRoot};

use irtext_base::text::{AttrText, IrText};
use irtext_context::base::{BlockAccess, Context, Operation, OperationAccess, Ptr};
use irtext_graph::held::HasGraph;
use irtext_graph::object::Object;

/// Whether the context keeps the files of the location of an object, without what is nested in it. A region has no location.
fn is_located_at<T: IrText<A>, A: AttrText<A>>(ctx: &Context<T, A>, object: Object) -> bool
    requires { IsLive ctx.now.graph object }
    ensures { IsTrue result ↔ IsLocatedAt ctx.now object }
{
    match object {
        Object::TheOperation(op) => {
            !ctx.contains_operation(op) || ctx.contains_paths(op.loc(ctx))
        }
        Object::TheBlock(block) => ctx.contains_paths(block.loc(ctx)),
        Object::TheRegion(_) => true,
    }
}

/// Whether an operation is live, and the context keeps the files of its location and of the locations of everything nested in it. That is
/// so where the locations are those of texts parsed in this context, or have no files. Where it is so, the operation is printed as before
/// after other texts were parsed in the context. Any pointer can be passed. It allocates nothing, changes nothing, and does not recurse
/// over nested regions. Its time is linear.
pub fn is_located<T: IrText<A>, A: AttrText<A>>(ctx: &Context<T, A>, root: Ptr<Operation>) -> bool
    ensures { IsTrue result ↔ IsLocatedRoot ctx.now root }
{
    ctx.graph().keeps_nesting();
    if !ctx.contains_operation(root) {
        return false;
    }
    let top = Object::TheOperation(root);
    let mut at = Some(top);
    while let Some(object) = at {
        if !is_located_at(ctx, object) {
            return false;
        }
        at = ctx.graph().next_inside(top, object);
    }
    true
}
