//! Printing of an operation, a block or a region with everything nested in it. An item is an operation or a block that carries a mark.
ghost use Rattle.std.specs.Prelude.{◌≡◌, ◌++◌, OnOk, OnErr, IfErr, IsSome, length, true};
ghost use Rattle.irtext_base.specs.Appending.{OnlyAppends};
ghost use Rattle.irtext_context.specs.Context.{operation};
ghost use Rattle.irtext_context.specs.Context as context;
ghost use Rattle.irtext_graph.specs.Graph.{IsLive};
ghost use Rattle.irtext_graph.specs.declared.object.Object.TheVariants.{TheRegion};
ghost use Rattle.irtext_print.specs.Printers.Appended.{AppendsText};
ghost use Rattle.irtext_print.specs.declared.printable.refusal.Refusal.TheVariants as refusal;
ghost use Rattle.irtext_print_ops.specs.Heads as heads;
ghost use Rattle.irtext_print_ops.specs.Steps.{begun_frames, listed};

use crate::block_heads::fmt_block_head;
use crate::frame::{BlockFrame, Frame, RegionFrame};
use crate::opening::{begin_region, deeper, fmt_colon};
use crate::printer::Printer;
use crate::step::begin_operation;
use crate::walk::{print_frames, print_operation};
use irtext_base::text::{AttrText, IrText};
use irtext_context::base::{BasicBlock, Context, Item, Operation, Ptr, Region};
use irtext_print::printable::{Refusal, State};

/// Returns the frame of a region that was begun, if it is not elided.
fn region_frame<'c>(begun: Option<RegionFrame>) -> Option<Frame<'c>>
    ensures { listed result ≡ begun_frames begun }
{
    match begun {
        Some(begun) => Some(Frame::Region(begun)),
        None => None,
    }
}

/// Appends the text of an operation with everything nested in it, at the state's indentation and under its limit, and after it its
/// mark, if `marked`. Items are added to `items`, in the order of their marks; the index of a mark is its item's place in `items`. Does
/// not recurse, so no nesting is too deep for it.
///
/// The error is `Depth` if the spaces before a line inside a region that is shown do not fit 16 bits; `Misfit` if the operation, or one
/// that is shown inside, does not fit its format; otherwise `Memory`. What was appended and gathered up to the error remains.
pub fn print_nested<T: IrText<A>, A: AttrText<A>, U>(
    ctx: &Context<T, A>,
    op: Ptr<Operation>,
    marked: bool,
    state: &State<U>,
    items: &mut Vec<Item>,
    f: &mut String,
) -> Result<(), Refusal>
    requires live { IsSome (operation ctx.now op) }
    ensures text { OnOk result (AppendsText f.old (heads.text_under T.IrText.own A.IrText.own A.AttrText.own
        A.eq ctx.now op state.now
        marked (length items.old.items)) f.new) }
    ensures items { OnOk result (items.new.items ≡ items.old.items ++
        heads.items_under T.IrText.own A.IrText.own A.AttrText.own A.eq ctx.now op state.now marked) }
    ensures fits { OnOk result (heads.MisfitsUnder T.IrText.own A.IrText.own A.AttrText.own A.eq ctx.now op
        state.now → ⊥) }
    ensures refused { IfErr result (heads.RefusesUnder T.IrText.own A.IrText.own A.AttrText.own A.eq ctx.now
        op state.now) }
    ensures appended { OnErr result (OnlyAppends f.old f.new) }
{
    let width = state.indent_width();
    let indent = state.current_indent();
    let limit = state.current_region_print_depth_limit();
    let begun = begin_operation(ctx, op, marked, indent, limit, f)?;
    print_operation(ctx, width, begun, items, f)
}

/// Appends the text of a block with everything nested in it, at the state's indentation and under its limit, with its mark if it has
/// one. Items are added to `items`, in the order of their marks; the index of a mark is its item's place in `items`. Does not recurse,
/// so no nesting is too deep for it.
///
/// The error is `Depth` if the spaces before its operations, or before a line inside a region that is shown, do not fit 16 bits;
/// `Misfit` if an operation that is shown inside does not fit its format; otherwise `Memory`. What was appended and gathered up to the
/// error remains.
pub fn print_nested_block<T: IrText<A>, A: AttrText<A>, U>(
    ctx: &Context<T, A>,
    block: Ptr<BasicBlock>,
    state: &State<U>,
    items: &mut Vec<Item>,
    f: &mut String,
) -> Result<(), Refusal>
    requires live { IsSome (context.block ctx.now block) }
    ensures text { OnOk result (AppendsText f.old (heads.block_text_under T.IrText.own A.IrText.own
        A.AttrText.own A.eq ctx.now block
        state.now (length items.old.items)) f.new) }
    ensures items { OnOk result (items.new.items ≡ items.old.items ++
        heads.block_items_under T.IrText.own A.IrText.own A.AttrText.own A.eq ctx.now block state.now) }
    ensures fits { OnOk result (
        heads.BlockFaultUnder T.IrText.own A.IrText.own A.AttrText.own A.eq ctx.now block state.now
        refusal.Misfit → ⊥) }
    ensures refused { IfErr result (heads.RefusesBlockUnder T.IrText.own A.IrText.own A.AttrText.own A.eq
        ctx.now block state.now) }
    ensures appended { OnErr result (OnlyAppends f.old f.new) }
{
    let width = state.indent_width();
    let indent = state.current_indent();
    let limit = state.current_region_print_depth_limit();
    let inner = deeper(indent, width)?;
    fmt_block_head(ctx, block, f)?;
    Printer { ctx }.fmt_block_mark(block, items, f)?;
    fmt_colon(inner, f)?;
    let first = Frame::Block(BlockFrame {
        block,
        operation: 0,
        first: true,
        indent,
        limit,
    });
    let mut frames = Vec::new(ctx.allocator());
    print_frames(ctx, width, Some(first), &mut frames, items, f)
}

/// Appends the text of a region with everything nested in it, at the state's indentation and under its limit. Items are added to
/// `items`, in the order of their marks; the index of a mark is its item's place in `items`. Does not recurse, so no nesting is too
/// deep for it.
///
/// The error is `Depth` if the region is shown and the spaces before a line inside it do not fit 16 bits; `Misfit` if an operation that
/// is shown inside does not fit its format; otherwise `Memory`. What was appended and gathered up to the error remains.
pub fn print_nested_region<T: IrText<A>, A: AttrText<A>, U>(
    ctx: &Context<T, A>,
    region: Ptr<Region>,
    state: &State<U>,
    items: &mut Vec<Item>,
    f: &mut String,
) -> Result<(), Refusal>
    requires live { IsLive ctx.now.graph (TheRegion region) }
    ensures text { OnOk result (AppendsText f.old (heads.region_text_under T.IrText.own A.IrText.own
        A.AttrText.own A.eq ctx.now region
        state.now (length items.old.items)) f.new) }
    ensures items { OnOk result (items.new.items ≡ items.old.items ++
        heads.region_items_under T.IrText.own A.IrText.own A.AttrText.own A.eq ctx.now region state.now) }
    ensures fits { OnOk result (
        heads.RegionFaultUnder T.IrText.own A.IrText.own A.AttrText.own A.eq ctx.now region state.now
        refusal.Misfit → ⊥) }
    ensures refused { IfErr result (heads.RefusesRegionUnder T.IrText.own A.IrText.own A.AttrText.own A.eq
        ctx.now region state.now) }
    ensures appended { OnErr result (OnlyAppends f.old f.new) }
{
    let width = state.indent_width();
    let indent = state.current_indent();
    let limit = state.current_region_print_depth_limit();
    let begun = begin_region(region, true, indent, width, limit, f)?;
    let mut frames = Vec::new(ctx.allocator());
    print_frames(ctx, width, region_frame(begun), &mut frames, items, f)
}
