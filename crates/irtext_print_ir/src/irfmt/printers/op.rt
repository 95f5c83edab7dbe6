//! Printers of an operation's parts: its header, the header with a type, and its only region.
ghost use Rattle.std.specs.Prelude.{◌≡◌, OnOk, OnErr, IfErr, IsSome};
ghost use Rattle.irtext_base.specs.Appending.{OnlyAppends};
ghost use Rattle.irtext_context.specs.Context.{operation};
ghost use Rattle.irtext_print_ir.specs.Printers.OpPrinters.{PrintsPart, WritesPart};
ghost use Rattle.irtext_print.specs.Printers.Printing.{gathered_of, with_gathered};
ghost use Rattle.irtext_print_ir.specs.Printers.OpPrinters as parts;
ghost use Rattle.irtext_print_ir.specs.Printers.Refused.{HasAppended};

use crate::ir::print::nesting::only_region;
use crate::ir::print::print_region as print_nested_region;
use crate::printable::{Printable, Refusal, State};
use irtext_base::text::{AttrText, IrText};
use irtext_context::base::{Context, Operation, OperationAccess, Ptr};
use irtext_graph::held::HasGraph;
use irtext_memory::string;
use irtext_print::ir::print::concrete::fmt_id;
use irtext_print::ir::print::pieces::symbol_of;
use irtext_print::printable::refusal::memory_alone;
use irtext_print_ops::children::count_regions;
use std::fmt;

/// Prints an operation's id and its symbol's name. Created by [`symb_op_header`].
#[derive(Clone, Copy, Debug)]
pub struct SymbHeader {
    op: Ptr<Operation>,
}

/// Prints an operation's id, its symbol's name and a type. Created by [`typed_symb_op_header`].
#[derive(Clone, Copy)]
pub struct TypedSymbHeader<'a, T> {
    op: Ptr<Operation>,
    ty: &'a T,
}

/// Prints an operation's only region. Created by [`region`].
#[derive(Clone, Copy, Debug)]
pub struct OneRegion {
    op: Ptr<Operation>,
}

/// Returns a printer that appends an operation's id, a space, and `@` with its symbol's name, the identifier under the key
/// `builtin_sym_name`: `builtin.module @m`. The operation has to be live. Printing fails if there is no such name, or if out of memory;
/// [`print_symb_op_header`] appends the same and returns which.
pub fn symb_op_header(op: Ptr<Operation>) -> SymbHeader
    ensures { result.op ≡ op }
{
    SymbHeader { op }
}

/// Returns a printer that appends what [`symb_op_header`] appends, then `: ` and the type: `builtin.func @f: builtin.integer si64`. It
/// fails as that one does; [`print_typed_symb_op_header`] appends the same and returns why.
pub fn typed_symb_op_header<T>(op: Ptr<Operation>, ty: &T) -> TypedSymbHeader<'_, T>
    ensures op { result.op ≡ op }
    ensures ty { result.ty.now ≡ ty.now }
{
    TypedSymbHeader { op, ty }
}

/// Returns a printer that appends the only region of an operation, with everything nested in it. The operation has to be live. Printing
/// fails if it has no region or several, if an operation that is shown inside does not fit its format, if an indentation inside does
/// not fit 16 bits, or if out of memory; [`print_region`] appends the same and returns which.
pub fn region(op: Ptr<Operation>) -> OneRegion
    ensures { result.op ≡ op }
{
    OneRegion { op }
}

/// Appends what [`symb_op_header`] appends. The error is [`Refusal::Misfit`] if the operation has no symbol's name, otherwise
/// [`Refusal::Memory`]. What was appended up to the error remains.
pub fn print_symb_op_header<T: IrText<A>, A: AttrText<A>>(
    ctx: &Context<T, A>,
    op: Ptr<Operation>,
    f: &mut String,
) -> Result<(), Refusal>
    requires live { IsSome (operation ctx.now op) }
    ensures prints { OnOk result (WritesPart parts.header_of ctx.now op f.old f.new) }
    ensures refused { IfErr result (parts.RefusesPart parts.header_of ctx.now op) }
    ensures appended { OnErr result (OnlyAppends f.old f.new) }
{
    let id = op.get_opid(ctx);
    let attributes = op.attributes(ctx);
    let Some(symbol) = symbol_of(attributes) else {
        return Err(Refusal::Misfit);
    };
    fmt_id(id, f)?;
    string::push_str(f, " @")?;
    string::push_str(f, symbol.as_str())?;
    Ok(())
}

/// Appends what [`typed_symb_op_header`] appends. The errors are those of [`print_symb_op_header`].
pub fn print_typed_symb_op_header<T: IrText<A>, A: AttrText<A>>(
    ctx: &Context<T, A>,
    op: Ptr<Operation>,
    ty: &T,
    f: &mut String,
) -> Result<(), Refusal>
    requires live { IsSome (operation ctx.now op) }
    ensures prints { OnOk result (WritesPart (parts.typed_header_of (T.written ty.now)) ctx.now op
        f.old f.new) }
    ensures refused { IfErr result (parts.RefusesPart (parts.typed_header_of (T.written ty.now)) ctx.now op) }
    ensures appended { OnErr result (OnlyAppends f.old f.new) }
{
    print_symb_op_header(ctx, op, f)?;
    string::push_str(f, ": ")?;
    memory_alone(ty.write_text(f))
}

/// Appends what [`region`] appends. The error is [`Refusal::Misfit`] if the operation has no region or several, or if an operation that
/// is shown inside does not fit its format; [`Refusal::Depth`] if the region is not elided and an indentation inside does not fit 16
/// bits; otherwise [`Refusal::Memory`]. Items inside are gathered in the state. What was appended and gathered up to the error remains.
/// Nothing else of the state changes.
pub fn print_region<T: IrText<A>, A: AttrText<A>, U>(
    ctx: &Context<T, A>,
    op: Ptr<Operation>,
    state: &mut State<U>,
    f: &mut String,
) -> Result<(), Refusal>
    requires live { IsSome (operation ctx.now op) }
    ensures prints { OnOk result (parts.PrintsOne T.IrText.own A.IrText.own A.AttrText.own A.eq ctx.now op
        state.old f.old state.new f.new) }
    ensures refused { IfErr result (parts.RefusesOne T.IrText.own A.IrText.own A.AttrText.own A.eq ctx.now op
        state.old) }
    ensures rest { state.new ≡ with_gathered state.old (gathered_of state.new) }
    ensures appended { OnErr result (OnlyAppends f.old f.new) }
{
    let graph = ctx.graph();
    if count_regions(graph, op) != 1 {
        return Err(Refusal::Misfit);
    }
    graph.keeps_nesting();
    print_nested_region(ctx, only_region(graph, op), state, f)
}

/// Prints the header as [`print_symb_op_header`] does. The operation has to be live.
impl<T: IrText<A>, A: AttrText<A>, U> Printable<U, T, A> for SymbHeader {
    ghost can_print = { λ h ctx. IsSome (operation ctx h.op) };

    ghost gives = { λ h ctx s. parts.printed_part parts.header_of ctx h.op s };

    ghost prints = { λ h ctx s b t d. PrintsPart parts.header_of ctx h.op s b t d };

    ghost refuses = { λ _ _. HasAppended };

    fn fmt(&self, ctx: &Context<T, A>, _state: &mut State<U>, f: &mut String) -> fmt::Result {
        print_symb_op_header(ctx, self.op, f)?;
        Ok(())
    }
}

/// Prints the header as [`print_typed_symb_op_header`] does. The operation has to be live.
impl<T: IrText<A>, A: AttrText<A>, U> Printable<U, T, A> for TypedSymbHeader<'_, T> {
    ghost can_print = { λ h ctx. IsSome (operation ctx h.op) };

    ghost gives = { λ h ctx s. parts.printed_part (parts.typed_header_of (T.written h.ty.now)) ctx h.op s };

    ghost prints = { λ h ctx s b t d. PrintsPart (parts.typed_header_of (T.written h.ty.now)) ctx h.op s b t d };

    ghost refuses = { λ _ _. HasAppended };

    fn fmt(&self, ctx: &Context<T, A>, _state: &mut State<U>, f: &mut String) -> fmt::Result {
        print_typed_symb_op_header(ctx, self.op, self.ty, f)?;
        Ok(())
    }
}

/// Prints the region as [`print_region`] does. The operation has to be live.
impl<T: IrText<A>, A: AttrText<A>, U> Printable<U, T, A> for OneRegion {
    ghost can_print = { λ r ctx. IsSome (operation ctx r.op) };

    ghost gives = { λ r ctx s. parts.one_gives T.IrText.own A.IrText.own A.AttrText.own A.eq ctx r.op s };

    ghost prints = { λ r ctx s b t d. parts.PrintsOne T.IrText.own A.IrText.own A.AttrText.own A.eq ctx r.op s b t d };

    fn fmt(&self, ctx: &Context<T, A>, state: &mut State<U>, f: &mut String) -> fmt::Result {
        print_region(ctx, self.op, state, f)?;
        Ok(())
    }
}
