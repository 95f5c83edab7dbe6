//! A family of dialects: what a program registers before it parses a text.
ghost use Rattle.std.specs.Prelude.{◌≡◌, List, [], IfOk, OnOk};
ghost use Rattle.irtext_formatter.specs.Formatted.{new_context};

use irtext_base::result;
use irtext_base::seed::Seed;
use irtext_base::text::{AttrText, IrText};
use irtext_context::base::Context;
use std::alloc::Global;

/// The dialects of a program, over its types `T` and its attributes `A`. An impl is a type without values:
///
/// ```text
/// pub struct Demo;
///
/// impl Dialects<DemoType, DemoAttr> for Demo {
///     ghost registered = { λ dialects. with_all dialects demo_operations };
///
///     fn register(ctx: &mut Context<DemoType, DemoAttr>) -> result::Result<(), DemoAttr> {
///         register_demo(ctx)
///     }
/// }
/// ```
pub trait Dialects<T: IrText<A>, A: AttrText<A>> {
    ghost use Rattle.irtext_base.specs.Text.{Text};
    ghost use Rattle.irtext_context.specs.Dialects.{Table};

    // the dialects after these are registered, from those before
    ghost registered: { List (Text × Table) → List (Text × Table) };

    /// Registers the dialects with their operations. Nothing of the context but its dialects changes. Fails if an allocation fails, or if
    /// the context has another dialect under one of these names; then some of them may be registered.
    fn register(ctx: &mut Context<T, A>) -> result::Result<(), A>
        ensures ok { OnOk result (ctx.new.dialects ≡ registered ctx.old.dialects) }
        ensures rest { ctx.new ≡ record ctx.old { dialects = ctx.new.dialects } };
}

/// Makes a context with this seed that has these dialects, and nothing else. The error is that of [`Dialects::register`].
pub fn new_context<T: IrText<A>, A: AttrText<A>, D: Dialects<T, A>>(
    alloc: Global,
    seed: Seed,
) -> result::Result<Context<T, A>, A>
    ensures { IfOk result (λ ctx. ctx ≡ new_context (D.registered [])) }
{
    let mut ctx = Context::with_seed(alloc, seed);
    match D::register(&mut ctx) {
        Ok(()) => Ok(ctx),
        Err(error) => Err(error),
    }
}
