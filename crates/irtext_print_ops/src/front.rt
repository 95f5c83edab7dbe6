//! What is printed of an operation before its parts, by its format.
ghost use Rattle.std.specs.Prelude.{◌≡◌, OnOk, OnErr, IfOk, IfErr, IsSome, is_none};
ghost use Rattle.irtext_base.specs.Appending.{OnlyAppends};
ghost use Rattle.irtext_context.specs.Context.{operation};
ghost use Rattle.irtext_print.specs.Printers.Appended.{AppendsText};
ghost use Rattle.irtext_print.specs.Refusals.{IsMemory, IsOther};
ghost use Rattle.irtext_print.specs.declared.printable.refusal.Refusal.TheVariants as refusal;
ghost use Rattle.irtext_print_ops.specs.Heads as heads;

use crate::fits::fitting_directives;
use crate::printer::Printer;
use irtext_base::format::Directive;
use irtext_base::text::{AttrText, IrText};
use irtext_context::base::{Context, Operation, OperationAccess, Ptr};
use irtext_print::ir::print::concrete::fmt_id;
use irtext_print::printable::Refusal;

/// Appends the names of an operation's results and its id, and, in the canonical form, everything before its regions.
fn fmt_front<T: IrText<A>, A: AttrText<A>>(
    ctx: &Context<T, A>,
    op: Ptr<Operation>,
    canonical: bool,
    f: &mut String,
) -> Result<(), Refusal>
    requires live { IsSome (operation ctx.now op) }
    requires form { canonical ≡ heads.is_canonical_at T.IrText.own A.IrText.own A.AttrText.own A.eq
        ctx.now op }
    ensures text { OnOk result
        (AppendsText f.old (heads.operation_front_at T.IrText.own A.IrText.own A.AttrText.own A.eq ctx.now op)
        f.new) }
    ensures refused { IfErr result (λ e. IsMemory e) }
    ensures appended { OnErr result (OnlyAppends f.old f.new) }
{
    let printer = Printer { ctx };
    printer.fmt_results(op, f)?;
    fmt_id(op.get_opid(ctx), f)?;
    if !canonical {
        return Ok(());
    }
    printer.fmt_canonical_front(op, f)
}

/// Returns the directives of an operation's format, or `None` if it is printed in the canonical form. The error is always `Misfit`: the
/// operation does not fit its format.
fn find_directives<'c, T: IrText<A>, A: AttrText<A>>(
    ctx: &'c Context<T, A>,
    op: Ptr<Operation>,
) -> Result<Option<&'c [Directive]>, Refusal>
    requires live { IsSome (operation ctx.now op) }
    ensures found { IfOk result (λ found. heads.AreDirectivesAt T.IrText.own A.IrText.own A.AttrText.own A.eq
        ctx.now op found) }
    ensures form { IfOk result (λ found. is_none found ≡ heads.is_canonical_at T.IrText.own A.IrText.own
        A.AttrText.own A.eq ctx.now op) }
    ensures fits { OnOk result (heads.FitsAt T.IrText.own A.IrText.own A.AttrText.own A.eq ctx.now op) }
    ensures refused { IfErr result (λ e.
        (e ≡ refusal.Misfit) × (heads.FitsAt T.IrText.own A.IrText.own A.AttrText.own A.eq ctx.now op → ⊥)) }
{
    match fitting_directives(ctx, op) {
        Ok(directives) => Ok(directives),
        Err(_) => Err(Refusal::Misfit),
    }
}

/// Checks that an operation fits its format, appends the names of its results and its id, and, in the canonical form, everything before
/// its regions. Returns the directives of its format, if that has some. Looks the format up once. The error is `Misfit` if the
/// operation does not fit its format, otherwise `Memory`. What was appended up to the error remains.
pub fn begin_front<'c, T: IrText<A>, A: AttrText<A>>(
    ctx: &'c Context<T, A>,
    op: Ptr<Operation>,
    f: &mut String,
) -> Result<Option<&'c [Directive]>, Refusal>
    requires live { IsSome (operation ctx.now op) }
    ensures text { OnOk result
        (AppendsText f.old (heads.operation_front_at T.IrText.own A.IrText.own A.AttrText.own A.eq ctx.now op)
        f.new) }
    ensures found { IfOk result (λ found. heads.AreDirectivesAt T.IrText.own A.IrText.own A.AttrText.own A.eq
        ctx.now op found) }
    ensures fits { OnOk result (heads.FitsAt T.IrText.own A.IrText.own A.AttrText.own A.eq ctx.now op) }
    ensures refused { IfErr result (λ e. IsOther e →
        (e ≡ refusal.Misfit) × (heads.FitsAt T.IrText.own A.IrText.own A.AttrText.own A.eq ctx.now op → ⊥)) }
    ensures appended { OnErr result (OnlyAppends f.old f.new) }
{
    let directives = find_directives(ctx, op)?;
    fmt_front(ctx, op, directives.is_none(), f)?;
    Ok(directives)
}
