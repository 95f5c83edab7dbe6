//! Printing of operations, blocks and regions with everything nested in them. The printing state gathers the items, the operations and
//! blocks that carry a mark; a root in no block is followed by the section, which has an entry for each.
ghost use Rattle.std.specs.Prelude.{◌≡◌, ◌++◌, [], OnOk, OnErr, IfErr, IsSome};
ghost use Rattle.irtext_base.specs.Appending.{OnlyAppends};
ghost use Rattle.irtext_context.specs.Context.{operation};
ghost use Rattle.irtext_context.specs.Context as context;
ghost use Rattle.irtext_graph.specs.Graph.{IsLive};
ghost use Rattle.irtext_graph.specs.declared.object.Object.TheVariants.{TheRegion};
ghost use Rattle.irtext_print.specs.Printers.Appended.{AppendsText};
ghost use Rattle.irtext_print.specs.Printers.Printing.{gathered_of, with_gathered};
ghost use Rattle.irtext_print.specs.Refusals.{IsMemory};
ghost use Rattle.irtext_print_ir.specs.Printers.Printed as printed;
ghost use Rattle.irtext_print_ops.specs.Heads as heads;

use crate::ir::print::nesting::block_of;
use crate::printable::{Printable, Refusal, State};
use irtext_base::text::{AttrText, IrText};
use irtext_context::base::{BasicBlock, Context, Item, Operation, Ptr, Region};
use irtext_graph::held::HasGraph;
use irtext_print::printable::gathered::{has_gathered, put_gathered, take_gathered};
use irtext_print::section::{print_alone, print_section};
use irtext_print_ops::nested::{print_nested, print_nested_block, print_nested_region};
use irtext_print_ops::printer::Printer;
use std::fmt;

pub mod debug;
pub(crate) mod nesting;

/// Appends the concrete text of an operation with everything nested in it, and its mark after that, if `marked`. Items are gathered.
fn gather_operation<T: IrText<A>, A: AttrText<A>, U>(
    ctx: &Context<T, A>,
    op: Ptr<Operation>,
    marked: bool,
    state: &mut State<U>,
    f: &mut String,
) -> Result<(), Refusal>
    requires live { IsSome (operation ctx.now op) }
    ensures prints { OnOk result (printed.PrintsNested T.IrText.own A.IrText.own A.AttrText.own A.eq ctx.now
        op state.old f.old state.new f.new marked) }
    ensures refused { IfErr result (heads.RefusesUnder T.IrText.own A.IrText.own A.AttrText.own A.eq ctx.now
        op state.old) }
    ensures rest { state.new ≡ with_gathered state.old (gathered_of state.new) }
    ensures appended { OnErr result (OnlyAppends f.old f.new) }
{
    let mut items = take_gathered(state, ctx.allocator());
    let answer = print_nested(ctx, op, marked, state, &mut items, f);
    put_gathered(state, items);
    answer
}

/// Appends the concrete text of an operation with everything nested in it, as [`OpObj`] prints it. Items inside are gathered in the
/// state.
///
/// The error is `Memory`, `Misfit` (the operation, or one that is shown inside, does not fit its format) or `Depth` (an indentation
/// inside does not fit 16 bits). What was appended and gathered up to the error remains. Nothing else of the state changes.
///
/// For example: `x_v1 = test.make: builtin.integer si64`.
pub fn print_concrete<T: IrText<A>, A: AttrText<A>, U>(
    ctx: &Context<T, A>,
    op: Ptr<Operation>,
    state: &mut State<U>,
    f: &mut String,
) -> Result<(), Refusal>
    requires live { IsSome (operation ctx.now op) }
    ensures prints { OnOk result (printed.PrintsConcrete T.IrText.own A.IrText.own A.AttrText.own A.eq ctx.now
        op state.old f.old state.new
        f.new) }
    ensures refused { IfErr result (heads.RefusesUnder T.IrText.own A.IrText.own A.AttrText.own A.eq ctx.now
        op state.old) }
    ensures rest { state.new ≡ with_gathered state.old (gathered_of state.new) }
    ensures appended { OnErr result (OnlyAppends f.old f.new) }
{
    gather_operation(ctx, op, false, state, f)
}

/// Appends the text of a block with everything nested in it, at the state's indentation, with its mark. The items, the block and those
/// inside that carry a mark, are gathered in the state.
///
/// The error is `Memory`, `Misfit` (an operation that is shown inside does not fit its format) or `Depth` (an indentation inside does
/// not fit 16 bits). What was appended and gathered up to the error remains. Nothing else of the state changes.
///
/// For example, at indentation 0:
///
/// ```text
/// ^a_block1v1() !0:
///   test.nop !1
/// ```
pub fn print_block<T: IrText<A>, A: AttrText<A>, U>(
    ctx: &Context<T, A>,
    block: Ptr<BasicBlock>,
    state: &mut State<U>,
    f: &mut String,
) -> Result<(), Refusal>
    requires live { IsSome (context.block ctx.now block) }
    ensures prints { OnOk result (printed.PrintsBlock T.IrText.own A.IrText.own A.AttrText.own A.eq ctx.now
        block state.old f.old state.new
        f.new) }
    ensures refused { IfErr result (heads.RefusesBlockUnder T.IrText.own A.IrText.own A.AttrText.own A.eq
        ctx.now block state.old) }
    ensures rest { state.new ≡ with_gathered state.old (gathered_of state.new) }
    ensures appended { OnErr result (OnlyAppends f.old f.new) }
{
    let mut items = take_gathered(state, ctx.allocator());
    let answer = print_nested_block(ctx, block, state, &mut items, f);
    put_gathered(state, items);
    answer
}

/// Appends the text of a region with everything nested in it, at the state's indentation: `{..}` if the state's limit elides it,
/// otherwise a newline, its blocks between braces on lines of their own. Items inside are gathered in the state.
///
/// The error is `Memory`, `Misfit` (an operation that is shown inside does not fit its format) or `Depth` (the region is shown and an
/// indentation inside does not fit 16 bits). What was appended and gathered up to the error remains. Nothing else of the state changes.
pub fn print_region<T: IrText<A>, A: AttrText<A>, U>(
    ctx: &Context<T, A>,
    region: Ptr<Region>,
    state: &mut State<U>,
    f: &mut String,
) -> Result<(), Refusal>
    requires live { IsLive ctx.now.graph (TheRegion region) }
    ensures prints { OnOk result (printed.PrintsRegion T.IrText.own A.IrText.own A.AttrText.own A.eq ctx.now
        region state.old f.old
        state.new f.new) }
    ensures refused { IfErr result (heads.RefusesRegionUnder T.IrText.own A.IrText.own A.AttrText.own A.eq
        ctx.now region state.old) }
    ensures rest { state.new ≡ with_gathered state.old (gathered_of state.new) }
    ensures appended { OnErr result (OnlyAppends f.old f.new) }
{
    let mut items = take_gathered(state, ctx.allocator());
    let answer = print_nested_region(ctx, region, state, &mut items, f);
    put_gathered(state, items);
    answer
}

/// Appends what follows the concrete text of an operation in no block: its mark, and the section of all gathered items, which are
/// cleared. If nothing was gathered, no list is allocated for the operation alone.
fn fmt_end<T: IrText<A>, A: AttrText<A>, U>(
    ctx: &Context<T, A>,
    op: Ptr<Operation>,
    state: &mut State<U>,
    f: &mut String,
) -> Result<(), Refusal>
    requires live { IsSome (operation ctx.now op) }
    ensures text { OnOk result (AppendsText f.old
        (printed.end_text T.IrText.own A.IrText.own A.AttrText.own A.eq ctx.now op (gathered_of state.old))
        f.new) }
    ensures state { OnOk result (state.new ≡ with_gathered state.old []) }
    ensures refused { IfErr result (λ e. IsMemory e) }
    ensures rest { state.new ≡ with_gathered state.old (gathered_of state.new) }
    ensures appended { OnErr result (OnlyAppends f.old f.new) }
{
    if !has_gathered(state) {
        return print_alone(ctx, Item::Operation(op), f);
    }
    let mut items = take_gathered(state, ctx.allocator());
    match (Printer { ctx }).end_operation(op, true, &mut items, f) {
        Ok(()) => print_section(ctx, &items, f),
        Err(refusal) => {
            put_gathered(state, items);
            Err(refusal)
        }
    }
}

/// Appends the text of an operation with everything nested in it, and its mark, numbered after the marks that were gathered before. If
/// the operation is in no block, the section of all gathered items follows, and the state's list of them is cleared. `Printable`
/// appends the same; this call also returns why it failed.
///
/// The error is `Memory`, `Misfit` (the operation, or one that is shown inside, does not fit its format) or `Depth` (an indentation
/// inside does not fit 16 bits). What was appended and gathered up to the error remains. Nothing else of the state changes.
///
/// For example, an operation in no block:
///
/// ```text
/// test.nop !0
///
/// outlined_attributes:
/// !0 = @[<in-memory>: line: 1, column: 1], []
/// ```
pub fn print_root<T: IrText<A>, A: AttrText<A>, U>(
    ctx: &Context<T, A>,
    op: Ptr<Operation>,
    state: &mut State<U>,
    f: &mut String,
) -> Result<(), Refusal>
    requires live { IsSome (operation ctx.now op) }
    ensures prints { OnOk result (printed.PrintsRoot T.IrText.own A.IrText.own A.AttrText.own A.eq ctx.now op
        state.old f.old state.new
        f.new) }
    ensures text { OnOk result (printed.WritesRoot T.IrText.own A.IrText.own A.AttrText.own A.eq ctx.now op
        state.old f.old state.new f.new) }
    ensures defined { OnOk result (printed.DefinesRoot T.IrText.own A.IrText.own A.AttrText.own A.eq ctx.now
        op state.old f.old state.new
        f.new) }
    ensures refused { IfErr result (heads.RefusesUnder T.IrText.own A.IrText.own A.AttrText.own A.eq ctx.now
        op state.old) }
    ensures rest { state.new ≡ with_gathered state.old (gathered_of state.new) }
    ensures appended { OnErr result (OnlyAppends f.old f.new) }
{
    let graph = ctx.graph();
    graph.keeps_nesting();
    match block_of(graph, op) {
        Some(_block) => gather_operation(ctx, op, true, state, f),
        None => {
            gather_operation(ctx, op, false, state, f)?;
            fmt_end(ctx, op, state, f)
        }
    }
}

/// The text that `disp` and `print` show for an operation in no block is the text that the definitions of printing give for its graph.
/// Does nothing: the contract hands that out.
pub fn keeps_text<T: IrText<A>, A: AttrText<A>>(ctx: &Context<T, A>, op: Ptr<Operation>)
    requires live { IsSome (operation ctx.now op) }
    ensures { printed.IsDefined T.IrText.own A.IrText.own A.AttrText.own A.eq ctx.now op }
{
    ctx.graph().keeps_nesting();
}

/// An operation as a plain value, which prints its concrete text: without its mark, and without a section. The operation has to be
/// live. [`print_concrete`] prints the same, and returns why it failed.
#[derive(Clone, Copy, Debug, PartialEq, Eq)]
pub struct OpObj {
    /// The operation.
    pub op: Ptr<Operation>,
}

/// Prints the operation as [`print_root`] does. The operation has to be live.
impl<T: IrText<A>, A: AttrText<A>, U> Printable<U, T, A> for Ptr<Operation> {
    ghost can_print = { λ op ctx. IsSome (operation ctx op) };

    ghost gives = { λ op ctx s. printed.root_gives T.IrText.own A.IrText.own A.AttrText.own A.eq ctx op s };

    ghost prints = { λ op ctx s b t d. printed.PrintsRoot T.IrText.own A.IrText.own A.AttrText.own A.eq ctx op s b t d };

    fn fmt(&self, ctx: &Context<T, A>, state: &mut State<U>, f: &mut String) -> fmt::Result {
        print_root(ctx, *self, state, f)?;
        Ok(())
    }
}

impl<T: IrText<A>, A: AttrText<A>, U> Printable<U, T, A> for OpObj {
    ghost can_print = { λ obj ctx. IsSome (operation ctx obj.op) };

    ghost gives = { λ obj ctx s. printed.concrete_gives T.IrText.own A.IrText.own A.AttrText.own A.eq ctx obj.op s };

    ghost prints = { λ obj ctx s b t d. printed.PrintsConcrete T.IrText.own A.IrText.own A.AttrText.own A.eq ctx obj.op s b t d };

    fn fmt(&self, ctx: &Context<T, A>, state: &mut State<U>, f: &mut String) -> fmt::Result {
        print_concrete(ctx, self.op, state, f)?;
        Ok(())
    }
}

/// Prints the block as [`print_block`] does. The block has to be live.
impl<T: IrText<A>, A: AttrText<A>, U> Printable<U, T, A> for Ptr<BasicBlock> {
    ghost can_print = { λ block ctx. IsSome (context.block ctx block) };

    ghost gives = { λ block ctx s. printed.block_gives T.IrText.own A.IrText.own A.AttrText.own A.eq ctx block s };

    ghost prints = { λ block ctx s b t d. printed.PrintsBlock T.IrText.own A.IrText.own A.AttrText.own A.eq ctx block s b t d };

    fn fmt(&self, ctx: &Context<T, A>, state: &mut State<U>, f: &mut String) -> fmt::Result {
        print_block(ctx, *self, state, f)?;
        Ok(())
    }
}

/// Prints the region as [`print_region`] does. The region has to be live.
impl<T: IrText<A>, A: AttrText<A>, U> Printable<U, T, A> for Ptr<Region> {
    ghost can_print = { λ region ctx. IsLive ctx.graph (TheRegion region) };

    ghost gives = { λ region ctx s. printed.region_gives T.IrText.own A.IrText.own A.AttrText.own A.eq ctx region s };

    ghost prints = { λ region ctx s b t d. printed.PrintsRegion T.IrText.own A.IrText.own A.AttrText.own A.eq ctx region s b t d };

    fn fmt(&self, ctx: &Context<T, A>, state: &mut State<U>, f: &mut String) -> fmt::Result {
        print_region(ctx, *self, state, f)?;
        Ok(())
    }
}
