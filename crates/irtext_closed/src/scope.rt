//! The isolated scope of an object.
ghost use Rattle.std.specs.Prelude.{◌≡◌, ◌↔◌, ◌<◌, ℕ, IsTrue, IfSome, Some, length, slice_get};
ghost use Rattle.irtext_graph.specs.Graph.{IsLive, content};
ghost use Rattle.irtext_graph.specs.declared.object.Object.TheVariants.{TheOperation};
ghost use Rattle.irtext_closed.specs.Closing.{is_isolated, IsScope, Shares};
ghost use Rattle.irtext_closed.specs.Closed.{isolated_data};
ghost use Rattle.irtext_closed.specs.Noted.{AreScopes};
ghost use Rattle.irtext_closed.specs.declared.scope.Noted.{Noted};

use irtext_base::text::{AttrText, IrText};
use irtext_context::base::{BasicBlock, Context, Operation, OperationAccess, Ptr};
use irtext_graph::held::HasGraph;
use irtext_graph::object::Object;

/// Whether an object is an operation that is isolated from above.
pub(crate) fn is_isolated<T: IrText<A>, A: AttrText<A>>(ctx: &Context<T, A>, o: Object) -> bool
    ensures { result ≡ is_isolated (isolated_data ctx.now.dialects) (content ctx.now.graph o) }
{
    let Object::TheOperation(op) = o else {
        return false;
    };
    if !ctx.contains_operation(op) {
        return false;
    }
    match ctx.op_info(op.get_opid(ctx)) {
        Some(info) => info.isolated,
        None => false,
    }
}

/// A block, and the innermost isolated region that is around it, if there is one.
#[derive(Clone, Copy)]
pub(crate) struct Noted {
    block: Ptr<BasicBlock>,
    scope: Option<Object>,
}

/// The isolated scopes of blocks that were found, each at the place of its block, so that it is looked up in constant time.
#[derive(Drop)]
pub(crate) struct Scopes {
    noted: Vec<Option<Noted>>,
}

/// The scope of a block, if it was noted.
fn noted_scope<T: IrText<A>, A: AttrText<A>>(
    ctx: &Context<T, A>,
    scopes: &Scopes,
    o: Object,
) -> Option<Option<Object>>
    requires { AreScopes ctx.now scopes.now }
    ensures { IfSome result (IsScope (isolated_data ctx.now.dialects) ctx.now.graph o) }
{
    let _ctx = ctx;
    let Object::TheBlock(block) = o else {
        return None;
    };
    match scopes.noted.get(block.place() as usize - 1) {
        Some(Some(found)) if found.block == block => Some(found.scope),
        _ => None,
    }
}

/// Returns the innermost isolated region that is around an object or is it, if there is one.
fn scope_of<T: IrText<A>, A: AttrText<A>>(
    ctx: &Context<T, A>,
    scopes: &Scopes,
    o: Object,
) -> Option<Object>
    requires alive { IsLive ctx.now.graph o }
    requires known { AreScopes ctx.now scopes.now }
    ensures { IsScope (isolated_data ctx.now.dialects) ctx.now.graph o result }
{
    ctx.graph().keeps_nesting();
    let mut at = o;
    while let Some(holder) = ctx.graph().get_parent(at) {
        if is_isolated(ctx, holder) {
            return Some(at);
        }
        if let Some(scope) = noted_scope(ctx, scopes, holder) {
            return scope;
        }
        at = holder;
    }
    None
}

/// Makes the vector longer than this, if there is memory for it.
fn make_place(noted: &mut Vec<Option<Noted>>, at: usize) -> bool
    ensures kept { (i : ℕ) (n : Noted) → slice_get noted.new.items i ≡ Some (Some n) → slice_get noted.old.items i ≡ Some (Some n) }
    ensures within { IsTrue result → at < length noted.new.items }
{
    while noted.len() <= at {
        if noted.push(None).is_err() {
            return false;
        }
    }
    true
}

/// Notes the scope of an object, if it is a block and there is memory for it.
fn note<T: IrText<A>, A: AttrText<A>>(ctx: &Context<T, A>, scopes: &mut Scopes, object: Object)
    requires alive { IsLive ctx.now.graph object }
    requires known { AreScopes ctx.now scopes.old }
    ensures { AreScopes ctx.now scopes.new }
{
    let Object::TheBlock(block) = object else {
        return;
    };
    let scope = scope_of(ctx, scopes, object);
    let at = block.place() as usize - 1;
    if make_place(&mut scopes.noted, at) {
        scopes.noted[at] = Some(Noted { block, scope });
    }
}

/// The scopes of the blocks in a root. It leaves out those for which there is no memory.
pub(crate) fn scopes_in<T: IrText<A>, A: AttrText<A>>(
    ctx: &Context<T, A>,
    root: Ptr<Operation>,
) -> Scopes
    requires { IsLive ctx.now.graph (TheOperation root) }
    ensures { AreScopes ctx.now result }
{
    let top = Object::TheOperation(root);
    let mut scopes = Scopes {
        noted: Vec::new(ctx.allocator()),
    };
    let mut at = Some(top);
    while let Some(object) = at {
        note(ctx, &mut scopes, object);
        at = ctx.graph().next_inside(top, object);
    }
    scopes
}

/// Whether both are the same object, or neither is one.
pub(crate) fn is_same(x: Option<Object>, y: Option<Object>) -> bool
    ensures { IsTrue result ↔ x ≡ y }
{
    x == y
}

/// Whether two objects are in the same isolated scope: whether the same isolated regions are around them.
pub(crate) fn shares_scope<T: IrText<A>, A: AttrText<A>>(
    ctx: &Context<T, A>,
    scopes: &Scopes,
    a: Object,
    b: Object,
) -> bool
    requires first { IsLive ctx.now.graph a }
    requires second { IsLive ctx.now.graph b }
    requires known { AreScopes ctx.now scopes.now }
    ensures { IsTrue result ↔ Shares (isolated_data ctx.now.dialects) ctx.now.graph a b }
{
    ctx.graph().keeps_nesting();
    is_same(scope_of(ctx, scopes, a), scope_of(ctx, scopes, b))
}
