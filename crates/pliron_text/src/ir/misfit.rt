//! The first operation of a root that does not fit its format.
ghost use Rattle.std.specs.Prelude.{◌≡◌, ◌∷◌, Some, IsSome, IfSome, IfNone};
ghost use Rattle.irtext_context.specs.Context.{operation};
ghost use Rattle.irtext_graph.specs.Chained.{Among};
ghost use Rattle.irtext_graph.specs.Graph.{children, parent, IsInside, IsLive};
ghost use Rattle.irtext_graph.specs.Nested.{Nested};
ghost use Rattle.irtext_graph.specs.Throughout.{all_from};
ghost use Rattle.irtext_graph.specs.declared.object.Object.TheVariants.{TheOperation};
ghost use Rattle.irtext_print_ops.specs.Fits as fits;
ghost use Rattle.irtext_print_ops.specs.Heads as heads;
ghost use Rattle.pliron_text.specs.Misfits.{FitsThere, AllFit, IsFirstMisfit};
ghost use Rattle.pliron_text.specs.Unprinted.{plain};

use irtext_base::text::{AttrText, IrText};
use irtext_context::base::{Context, Operation, Ptr};
use irtext_graph::held::HasGraph;
use irtext_graph::object::Object;
use irtext_print_ops::fits::{FitFault, check_fits};

/// Returns the operation that an object is, if it does not fit its format, and why not.
fn misfit_at<'c, T: IrText<A>, A: AttrText<A>>(
    ctx: &'c Context<T, A>,
    object: Object,
) -> Option<(Ptr<Operation>, FitFault<'c>)>
    ensures fits { IfNone result (FitsThere A.IrText.written A.AttrText.own A.eq ctx.now object) }
    ensures is { IfSome result (λ found. object ≡ TheOperation found.0) }
    ensures live { IfSome result (λ found. IsSome (operation ctx.now found.0)) }
    ensures reason { IfSome result (λ found. fits.IsFirstReasonIn A.IrText.written A.AttrText.own A.eq ctx.now
        found.0 found.1) }
{
    let Object::TheOperation(op) = object else {
        return None;
    };
    if !ctx.contains_operation(op) {
        return None;
    }
    match check_fits(ctx, op) {
        Ok(()) => None,
        Err(fault) => Some((op, fault)),
    }
}

/// The nesting of objects is a forest, and `next_inside` visits all that is nested in an object. Does nothing: the contract hands that out.
fn keeps_order<T: IrText<A>, A: AttrText<A>>(ctx: &Context<T, A>)
    ensures forest { Nested (children ctx.now.graph) (parent ctx.now.graph) }
    ensures all { (o q : _) → IsInside ctx.now.graph o q → Among q (all_from ctx.now.graph o (Some o)) }
{
    ctx.graph().keeps_nesting();
}

/// Returns the object after this one in the order of the text, of those nested in `top`.
fn next_inside<T: IrText<A>, A: AttrText<A>>(
    ctx: &Context<T, A>,
    top: Object,
    object: Object,
) -> Option<Object>
    requires alive { IsLive ctx.now.graph object }
    requires within { IsInside ctx.now.graph top object }
    ensures next { all_from ctx.now.graph top (Some object) ≡ object ∷ all_from ctx.now.graph top result }
    ensures inside { IfSome result (λ r. IsInside ctx.now.graph top r) }
    ensures there { IfSome result (λ r. IsLive ctx.now.graph r) }
{
    ctx.graph().next_inside(top, object)
}

/// Returns the first operation, in the order of the text, that does not fit its format, and why not: the operation itself, or one that is
/// nested in it, however deep. Returns `None` if all of them fit; then printing does not fail for a misfit. Allocates nothing.
pub fn first_misfit<'c, T: IrText<A>, A: AttrText<A>>(
    ctx: &'c Context<T, A>,
    root: Ptr<Operation>,
) -> Option<(Ptr<Operation>, FitFault<'c>)>
    requires live { IsSome (operation ctx.now root) }
    ensures fits { IfNone result (AllFit A.IrText.written A.AttrText.own A.eq ctx.now root) }
    ensures printable { IfNone result (heads.MisfitsUnder T.IrText.own A.IrText.own A.AttrText.own A.eq ctx.now root
        plain → ⊥) }
    ensures first { IfSome result (λ found. IsFirstMisfit A.IrText.written A.AttrText.own A.eq ctx.now root found.0
        found.1) }
{
    keeps_order(ctx);
    let top = Object::TheOperation(root);
    let mut at = Some(top);
    while let Some(object) = at {
        match misfit_at(ctx, object) {
            Some(found) => return Some(found),
            None => at = next_inside(ctx, top, object),
        }
    }
    None
}
