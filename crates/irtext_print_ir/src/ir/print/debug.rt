//! An operation's text for debugging: regions are elided, and there is no mark and no section.
ghost use Rattle.std.specs.Prelude.{OnOk, OnErr, IfErr, IsSome};
ghost use Rattle.irtext_base.specs.Appending.{OnlyAppends};
ghost use Rattle.irtext_context.specs.Context.{operation};
ghost use Rattle.irtext_print_ir.specs.Printers.Printed as printed;
ghost use Rattle.irtext_print_ops.specs.Heads as heads;

use crate::ir::print::print_concrete;
use crate::printable::{Refusal, RegionPrintDepthLimit, State};
use irtext_base::text::{AttrText, IrText};
use irtext_context::base::{Context, Operation, Ptr};
use std::fmt;

/// Appends the concrete text of an operation, without its mark and without a section, with `{..}` for each of its regions: of a module
/// that is `builtin.module @m {..}`.
///
/// The error is `Memory`, or `Misfit` if the operation does not fit its format. What was appended up to the error remains.
pub fn print_elided<T: IrText<A>, A: AttrText<A>>(
    ctx: &Context<T, A>,
    op: Ptr<Operation>,
    f: &mut String,
) -> Result<(), Refusal>
    requires live { IsSome (operation ctx.now op) }
    ensures prints { OnOk result (printed.PrintsElided T.IrText.own A.IrText.own A.AttrText.own A.eq ctx.now
        op f.old f.new) }
    ensures refused { IfErr result (heads.RefusesUnder T.IrText.own A.IrText.own A.AttrText.own A.eq ctx.now
        op printed.debugging) }
    ensures appended { OnErr result (OnlyAppends f.old f.new) }
{
    let mut state = State::new(ctx.allocator(), ());
    state.set_region_print_depth_limit(RegionPrintDepthLimit::Max(0));
    print_concrete(ctx, op, &mut state, f)
}

/// Appends what [`print_elided`] appends, and fails as that call does, which also returns why.
pub fn print_dbg<T: IrText<A>, A: AttrText<A>>(
    ctx: &Context<T, A>,
    op: Ptr<Operation>,
    f: &mut String,
) -> fmt::Result
    requires live { IsSome (operation ctx.now op) }
    ensures prints { OnOk result (printed.PrintsElided T.IrText.own A.IrText.own A.AttrText.own A.eq ctx.now
        op f.old f.new) }
    ensures defined { OnOk result (printed.WritesElided T.IrText.own A.IrText.own A.AttrText.own A.eq ctx.now
        op f.old f.new) }
    ensures appended { OnErr result (OnlyAppends f.old f.new) }
{
    print_elided(ctx, op, f)?;
    Ok(())
}

/// An operation with its context, as a `Display` and a `Debug` of what `print_dbg` appends. If the operation is not live, formatting
/// fails. The contract of `Display` states the text alone; that of `print_dbg` states in addition that the operation fits its format.
#[derive(Drop)]
pub struct OpDbg<'a, T: IrText<A>, A: AttrText<A>> {
    /// The operation.
    pub op: Ptr<Operation>,
    /// The context that holds it.
    pub ctx: &'a Context<T, A>,
}

impl<T: IrText<A>, A: AttrText<A>> fmt::Display for OpDbg<'_, T, A> {
    ghost output = { λ d. printed.elided_gives T.IrText.own A.IrText.own A.AttrText.own A.eq d.ctx.now d.op };

    fn fmt<W: fmt::Write>(&self, f: &mut fmt::Formatter<W>) -> fmt::Result {
        if !self.ctx.contains_operation(self.op) {
            return Err(fmt::Error);
        }
        let mut text = String::new(self.ctx.allocator());
        print_dbg(self.ctx, self.op, &mut text)?;
        f.write_str(text.as_str())
    }
}

impl<T: IrText<A>, A: AttrText<A>> fmt::Debug for OpDbg<'_, T, A> {
    ghost debug_output = { λ d. printed.elided_gives T.IrText.own A.IrText.own A.AttrText.own A.eq d.ctx.now d.op };

    fn fmt<W: fmt::Write>(&self, f: &mut fmt::Formatter<W>) -> fmt::Result {
        fmt::Display::fmt(self, f)
    }
}
