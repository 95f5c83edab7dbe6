//! The steps of the walk: what is printed next of the innermost open frame, and what is open after that.
ghost use Rattle.std.specs.Prelude.{◌≡◌, ◌++◌, ◌∷◌, [], OnOk, OnErr, IfOk, IfErr, IsSome, length, option_map};
ghost use Rattle.irtext_base.specs.Appending.{OnlyAppends};
ghost use Rattle.irtext_context.specs.Context.{operation};
ghost use Rattle.irtext_context.specs.Context as context;
ghost use Rattle.irtext_graph.specs.Graph.{IsLive};
ghost use Rattle.irtext_graph.specs.declared.object.Object.TheVariants.{TheBlock, TheRegion};
ghost use Rattle.irtext_print.specs.Printers.Appended.{AppendsText};
ghost use Rattle.irtext_print.specs.Refusals.{IsMemory, IsOther};
ghost use Rattle.irtext_print.specs.declared.printable.refusal.Refusal.TheVariants as refusal;
ghost use Rattle.irtext_print_ops.specs.Heads as heads;
ghost use Rattle.irtext_print_ops.specs.Steps as steps;
ghost use Rattle.irtext_print_ops.specs.declared.frame.Frame.TheVariants as framed;

use crate::block_heads::fmt_block_head;
use crate::children::{block_at, count_blocks, operation_at, region_at};
use crate::frame::{BlockFrame, BlockTurn, Frame, OperationFrame, RegionFrame, Turn, gather, open};
use crate::front::begin_front;
use crate::marks::{is_block_marked, is_operation_marked};
use crate::opening::{
    begin_region, deeper, fmt_between_blocks, fmt_between_operations, fmt_closing, fmt_colon,
    fmt_index,
};
use crate::pieces::fmt_piece;
use crate::printer::Printer;
use irtext_base::format::Directive;
use irtext_base::text::{AttrText, IrText};
use irtext_context::base::{BasicBlock, Context, Item, Operation, OperationAccess, Ptr};
use irtext_graph::held::HasGraph;
use irtext_memory::string;
use irtext_print::printable::{Refusal, RegionPrintDepthLimit};

/// Where the pieces of an operation end.
#[derive(Clone, Copy)]
pub(crate) enum Stop {
    /// After the last directive.
    End,
    /// At a region; the directive after it has this index.
    Region(usize),
    /// At all regions that are left; the directive after them has this index.
    Regions(usize),
}

/// Appends what the directives that were found for an operation print from this one on, before the first that prints a region.
#[inline(always)]
fn fmt_pieces<T: IrText<A>, A: AttrText<A>>(
    ctx: &Context<T, A>,
    op: Ptr<Operation>,
    found: Option<&[Directive]>,
    from: usize,
    f: &mut String,
) -> Result<Stop, Refusal>
    requires live { IsSome (operation ctx.now op) }
    requires format { heads.AreDirectivesAt T.IrText.own A.IrText.own A.AttrText.own A.eq ctx.now op found }
    ensures text { OnOk result (AppendsText f.old (heads.pieces_at T.IrText.own A.IrText.own A.AttrText.own
        A.eq ctx.now op from) f.new) }
    ensures stop { IfOk result (λ stop. heads.StopsAt T.IrText.own A.IrText.own A.AttrText.own A.eq ctx.now op
        from stop) }
    ensures refused { IfErr result (λ e. IsMemory e) }
    ensures appended { OnErr result (OnlyAppends f.old f.new) }
{
    let Some(directives) = found else {
        return Ok(Stop::End);
    };
    let mut at = from;
    while at < directives.len() {
        let directive = &directives[at];
        at += 1;
        match directive {
            Directive::Region(_) => return Ok(Stop::Region(at)),
            Directive::Regions => return Ok(Stop::Regions(at)),
            _ => fmt_piece(ctx, op, directives, directive, f)?,
        }
    }
    Ok(Stop::End)
}

/// Checks that an operation fits its format, and appends what comes before its parts. Returns the frame with its parts open.
#[inline(always)]
pub(crate) fn begin_operation<'c, T: IrText<A>, A: AttrText<A>>(
    ctx: &'c Context<T, A>,
    op: Ptr<Operation>,
    marked: bool,
    indent: u16,
    limit: RegionPrintDepthLimit,
    f: &mut String,
) -> Result<OperationFrame<'c>, Refusal>
    requires live { IsSome (operation ctx.now op) }
    ensures text { OnOk result
        (AppendsText f.old (heads.operation_front_at T.IrText.own A.IrText.own A.AttrText.own A.eq ctx.now op)
        f.new) }
    ensures begun { IfOk result (λ begun. begun ≡
        heads.begun_at T.IrText.own A.IrText.own A.AttrText.own A.eq ctx.now op begun.directives marked
        indent limit) }
    ensures found { IfOk result (λ begun. heads.AreDirectivesAt T.IrText.own A.IrText.own A.AttrText.own A.eq
        ctx.now op begun.directives) }
    ensures fits { OnOk result (heads.FitsAt T.IrText.own A.IrText.own A.AttrText.own A.eq ctx.now op) }
    ensures refused { IfErr result (λ e. IsOther e →
        (e ≡ refusal.Misfit) × (heads.FitsAt T.IrText.own A.IrText.own A.AttrText.own A.eq ctx.now op → ⊥)) }
    ensures appended { OnErr result (OnlyAppends f.old f.new) }
{
    let directives = begin_front(ctx, op, f)?;
    Ok(OperationFrame {
        op,
        directives,
        directive: 0,
        region: 0,
        repeats: directives.is_none(),
        marked,
        indent,
        limit,
    })
}

/// Begins the next region of an operation, if one is left: appends what comes before its blocks, or `{..}` if it is elided.
#[inline(always)]
fn region_turn<'c, T: IrText<A>, A: AttrText<A>>(
    ctx: &'c Context<T, A>,
    width: u16,
    frame: &mut OperationFrame<'c>,
    f: &mut String,
) -> Result<Option<RegionFrame>, Refusal>
    requires live { IsSome (operation ctx.now frame.old.op) }
    ensures text { OnOk result (AppendsText f.old (steps.region_turn_text ctx.now width frame.old) f.new) }
    ensures left { IfOk result (λ begun. framed.Operation frame.new ∷ steps.begun_frames begun ≡
        steps.region_turn_frames ctx.now frame.old) }
    ensures refused { IfErr result (λ e. IsOther e → (e ≡ refusal.Depth) × steps.NextTooDeep ctx.now
        width frame.old) }
    ensures appended { OnErr result (OnlyAppends f.old f.new) }
{
    let Some(region) = region_at(ctx.graph(), frame.op, frame.region) else {
        frame.repeats = false;
        return Ok(None);
    };
    let begun = begin_region(region, frame.repeats, frame.indent, width, frame.limit, f)?;
    frame.region += 1;
    Ok(begun)
}

/// Ends a region that was begun if it has no block, and returns what is open after that.
#[inline(always)]
fn entered<T: IrText<A>, A: AttrText<A>>(
    ctx: &Context<T, A>,
    begun: Option<RegionFrame>,
    f: &mut String,
) -> Result<Turn, Refusal>
    requires each_fits { heads.FramesFitAt T.IrText.own A.IrText.own A.AttrText.own A.eq ctx.now
        (steps.begun_frames begun) }
    ensures text { OnOk result (AppendsText f.old (steps.ended_text ctx.now begun) f.new) }
    ensures left { IfOk result (λ turn. turn ≡ steps.ended_turn ctx.now begun) }
    ensures refused { IfErr result (λ e. IsMemory e) }
    ensures appended { OnErr result (OnlyAppends f.old f.new) }
{
    let Some(inside) = begun else {
        return Ok(Turn::Stays);
    };
    if count_blocks(ctx.graph(), inside.region) == 0 {
        fmt_closing(inside.indent, f)?;
        return Ok(Turn::Stays);
    }
    Ok(Turn::Enters(inside))
}

impl<'c, T: IrText<A>, A: AttrText<A>> Printer<'c, T, A> {
    /// Appends the mark of an operation, if it has one and `marked`, and adds the operation to `items`; the mark's index is its place
    /// there. The error is always `Memory`.
    #[inline(always)]
    pub fn end_operation(
        self,
        op: Ptr<Operation>,
        marked: bool,
        items: &mut Vec<Item>,
        f: &mut String,
    ) -> Result<(), Refusal>
        requires live { IsSome (operation self.ctx.now op) }
        ensures text { OnOk result (AppendsText f.old (heads.own_mark_at T.IrText.own A.IrText.own
            A.AttrText.own
            A.eq self.entry.ctx.now op marked (length items.old.items)) f.new) }
        ensures items { OnOk result (items.new.items ≡ items.old.items ++
            heads.own_items_at T.IrText.own A.IrText.own A.AttrText.own A.eq self.entry.ctx.now op marked) }
        ensures refused { IfErr result (λ e. IsMemory e) }
        ensures appended { OnErr result (OnlyAppends f.old f.new) }
    {
        if !marked {
            return Ok(());
        }
        if !is_operation_marked(self.ctx, op) {
            return Ok(());
        }
        let index = gather(items, Item::Operation(op))?;
        fmt_index(index, f)
    }

    /// Appends the mark of a block, if it has one.
    #[inline(always)]
    pub(crate) fn fmt_block_mark(
        self,
        block: Ptr<BasicBlock>,
        items: &mut Vec<Item>,
        f: &mut String,
    ) -> Result<(), Refusal>
        requires live { IsSome (context.block self.ctx.now block) }
        ensures text { OnOk result (AppendsText f.old (heads.block_mark_at T.IrText.own A.IrText.own
            A.AttrText.own A.eq self.entry.ctx.now block (length items.old.items)) f.new) }
        ensures items { OnOk result (items.new.items ≡ items.old.items ++
            heads.block_items_at T.IrText.own A.IrText.own A.AttrText.own A.eq self.entry.ctx.now block) }
        ensures refused { IfErr result (λ e. IsMemory e) }
        ensures appended { OnErr result (OnlyAppends f.old f.new) }
    {
        if !is_block_marked(self.ctx, block) {
            return Ok(());
        }
        let index = gather(items, Item::Block(block))?;
        fmt_index(index, f)
    }
}

/// Prints what comes next of an operation: its pieces up to a region, and the beginning of that; or its mark after the last piece.
#[inline(always)]
fn operation_turn<'c, T: IrText<A>, A: AttrText<A>>(
    ctx: &'c Context<T, A>,
    width: u16,
    frame: &mut OperationFrame<'c>,
    items: &mut Vec<Item>,
    f: &mut String,
) -> Result<Turn, Refusal>
    requires fits { heads.FrameFitsAt T.IrText.own A.IrText.own A.AttrText.own A.eq ctx.now
        (framed.Operation frame.old) }
    ensures steps { IfOk result (λ turn.
        heads.StepsAt T.IrText.own A.IrText.own A.AttrText.own A.eq ctx.now width (framed.Operation frame.old)
        items.old.items items.new.items [] (steps.turn_frames frame.new turn) f.old f.new) }
    ensures refused { IfErr result (heads.RefusesFrame T.IrText.own A.IrText.own A.AttrText.own A.eq
        ctx.now width
        (framed.Operation frame.old)) }
    ensures appended { OnlyAppends f.old f.new }
{
    ctx.graph().keeps_nesting();
    if frame.repeats {
        let begun = region_turn(ctx, width, frame, f)?;
        return entered(ctx, begun, f);
    }
    match fmt_pieces(ctx, frame.op, frame.directives, frame.directive, f)? {
        Stop::End => {
            Printer { ctx }.end_operation(frame.op, frame.marked, items, f)?;
            Ok(Turn::Ends)
        }
        Stop::Region(directive) => {
            frame.directive = directive;
            let begun = region_turn(ctx, width, frame, f)?;
            entered(ctx, begun, f)
        }
        Stop::Regions(directive) => {
            string::push_str(f, " ")?;
            frame.directive = directive;
            frame.repeats = true;
            Ok(Turn::Stays)
        }
    }
}

/// Prints the rest of an operation, up to the first of its regions that has blocks. That region is begun, and its frame returned.
#[inline(always)]
pub(crate) fn operation_turns<'c, T: IrText<A>, A: AttrText<A>>(
    ctx: &'c Context<T, A>,
    width: u16,
    frame: &mut OperationFrame<'c>,
    items: &mut Vec<Item>,
    f: &mut String,
) -> Result<Option<RegionFrame>, Refusal>
    requires fits { heads.FrameFitsAt T.IrText.own A.IrText.own A.AttrText.own A.eq ctx.now
        (framed.Operation frame.old) }
    ensures steps { IfOk result (λ inside.
        heads.StepsAt T.IrText.own A.IrText.own A.AttrText.own A.eq ctx.now width (framed.Operation frame.old)
        items.old.items items.new.items [] (steps.left_frames frame.new inside) f.old f.new) }
    ensures refused { IfErr result (heads.RefusesFrame T.IrText.own A.IrText.own A.AttrText.own A.eq
        ctx.now width
        (framed.Operation frame.old)) }
    ensures appended { OnlyAppends f.old f.new }
{
    loop {
        match operation_turn(ctx, width, frame, items, f)? {
            Turn::Stays => {}
            Turn::Enters(inside) => return Ok(Some(inside)),
            Turn::Ends => return Ok(None),
        }
    }
}

/// Prints what comes next of an operation. Returns the region that was begun, if it has blocks.
#[inline(always)]
fn operation_step<'c, T: IrText<A>, A: AttrText<A>>(
    ctx: &'c Context<T, A>,
    width: u16,
    frame: OperationFrame<'c>,
    frames: &mut Vec<Frame<'c>>,
    items: &mut Vec<Item>,
    f: &mut String,
) -> Result<Option<RegionFrame>, Refusal>
    requires fits { heads.FrameFitsAt T.IrText.own A.IrText.own A.AttrText.own A.eq ctx.now
        (framed.Operation frame) }
    ensures steps { IfOk result (λ inside.
        heads.LeadsAt T.IrText.own A.IrText.own A.AttrText.own A.eq ctx.now width
        (framed.Operation frame.entry)
        (option_map framed.Region inside) items.old.items items.new.items frames.old.items frames.new.items
        f.old f.new) }
    ensures refused { IfErr result (heads.RefusesFrame T.IrText.own A.IrText.own A.AttrText.own A.eq
        ctx.now width
        (framed.Operation frame.entry)) }
    ensures appended { OnlyAppends f.old f.new }
{
    let mut left = frame;
    let Some(inside) = operation_turns(ctx, width, &mut left, items, f)? else {
        return Ok(None);
    };
    open(frames, Frame::Operation(left))?;
    Ok(Some(inside))
}

/// Prints what comes next of a region: the head of its next block, or its closing brace. Returns the block, if there is one.
#[inline(always)]
fn region_step<'c, T: IrText<A>, A: AttrText<A>>(
    ctx: &'c Context<T, A>,
    width: u16,
    frame: RegionFrame,
    frames: &mut Vec<Frame<'c>>,
    items: &mut Vec<Item>,
    f: &mut String,
) -> Result<Option<BlockFrame>, Refusal>
    requires fits { heads.FrameFitsAt T.IrText.own A.IrText.own A.AttrText.own A.eq ctx.now
        (framed.Region frame) }
    ensures steps { IfOk result (λ inner.
        heads.LeadsAt T.IrText.own A.IrText.own A.AttrText.own A.eq ctx.now width (framed.Region frame)
        (option_map framed.Block inner) items.old.items items.new.items frames.old.items frames.new.items
        f.old f.new) }
    ensures refused { IfErr result (heads.RefusesFrame T.IrText.own A.IrText.own A.AttrText.own A.eq ctx.now
        width (framed.Region frame)) }
    ensures appended { OnlyAppends f.old f.new }
{
    let graph = ctx.graph();
    graph.keeps_nesting();
    let Some(block) = block_at(graph, frame.region, frame.block) else {
        fmt_closing(frame.indent, f)?;
        return Ok(None);
    };
    let indent = deeper(frame.indent, width)?;
    let inner = deeper(indent, width)?;
    fmt_between_blocks(frame.first, indent, f)?;
    fmt_block_head(ctx, block, f)?;
    Printer { ctx }.fmt_block_mark(block, items, f)?;
    fmt_colon(inner, f)?;
    open(
        frames,
        Frame::Region(RegionFrame {
            block: frame.block + 1,
            first: false,
            ..frame
        }),
    )?;
    Ok(Some(BlockFrame {
        block,
        operation: 0,
        first: true,
        indent,
        limit: frame.limit,
    }))
}

/// Prints what comes next of a block: its next operation, up to the first region of that one that has blocks, or nothing after the
/// last. A placeholder is skipped.
#[inline(always)]
fn block_turn<'c, T: IrText<A>, A: AttrText<A>>(
    ctx: &'c Context<T, A>,
    width: u16,
    frame: BlockFrame,
    frames: &mut Vec<Frame<'c>>,
    items: &mut Vec<Item>,
    f: &mut String,
) -> Result<BlockTurn, Refusal>
    requires fits { heads.FrameFitsAt T.IrText.own A.IrText.own A.AttrText.own A.eq ctx.now
        (framed.Block frame) }
    ensures steps { IfOk result (λ turn.
        heads.LeadsAt T.IrText.own A.IrText.own A.AttrText.own A.eq ctx.now width (framed.Block frame)
        (steps.block_left turn) items.old.items items.new.items frames.old.items
        frames.new.items f.old f.new) }
    ensures refused { IfErr result (heads.RefusesFrame T.IrText.own A.IrText.own A.AttrText.own A.eq ctx.now
        width (framed.Block frame)) }
    ensures appended { OnlyAppends f.old f.new }
{
    let graph = ctx.graph();
    graph.keeps_nesting();
    let Some(op) = operation_at(graph, frame.block, frame.operation) else {
        return Ok(BlockTurn::Ends);
    };
    if !ctx.contains_operation(op) {
        return Ok(BlockTurn::Stays(BlockFrame {
            operation: frame.operation + 1,
            ..frame
        }));
    }
    let indent = deeper(frame.indent, width)?;
    fmt_between_operations(frame.first, indent, f)?;
    let mut begun = begin_operation(ctx, op, true, indent, frame.limit, f)?;
    let next = BlockFrame {
        operation: frame.operation + 1,
        first: false,
        ..frame
    };
    let Some(inside) = operation_turns(ctx, width, &mut begun, items, f)? else {
        return Ok(BlockTurn::Stays(next));
    };
    open(frames, Frame::Block(next))?;
    open(frames, Frame::Operation(begun))?;
    Ok(BlockTurn::Enters(inside))
}

/// Prints what comes next of a block, and the head of the first block of a region that begins there. Returns the block that is innermost
/// after that, if there is one.
#[inline(always)]
fn next_block<'c, T: IrText<A>, A: AttrText<A>>(
    ctx: &'c Context<T, A>,
    width: u16,
    frame: BlockFrame,
    frames: &mut Vec<Frame<'c>>,
    items: &mut Vec<Item>,
    f: &mut String,
) -> Result<Option<BlockFrame>, Refusal>
    requires fits { heads.FrameFitsAt T.IrText.own A.IrText.own A.AttrText.own A.eq ctx.now
        (framed.Block frame) }
    ensures steps { IfOk result (λ inner.
        heads.LeadsAt T.IrText.own A.IrText.own A.AttrText.own A.eq ctx.now width (framed.Block frame)
        (option_map framed.Block inner) items.old.items items.new.items frames.old.items frames.new.items
        f.old f.new) }
    ensures refused { IfErr result (heads.RefusesFrame T.IrText.own A.IrText.own A.AttrText.own A.eq ctx.now
        width (framed.Block frame)) }
    ensures appended { OnlyAppends f.old f.new }
{
    match block_turn(ctx, width, frame, frames, items, f)? {
        BlockTurn::Ends => Ok(None),
        BlockTurn::Stays(next) => Ok(Some(next)),
        BlockTurn::Enters(inside) => { region_step(ctx, width, inside, frames, items, f) }
    }
}

/// Prints what comes next of a block, and of the blocks that begin inside of it, up to the last operation of the innermost one.
fn block_step<'c, T: IrText<A>, A: AttrText<A>>(
    ctx: &'c Context<T, A>,
    width: u16,
    frame: BlockFrame,
    frames: &mut Vec<Frame<'c>>,
    items: &mut Vec<Item>,
    f: &mut String,
) -> Result<(), Refusal>
    requires fits { heads.FrameFitsAt T.IrText.own A.IrText.own A.AttrText.own A.eq ctx.now
        (framed.Block frame) }
    ensures steps { OnOk result (
        heads.StepsAt T.IrText.own A.IrText.own A.AttrText.own A.eq ctx.now width (framed.Block frame)
        items.old.items items.new.items frames.old.items frames.new.items f.old f.new) }
    ensures refused { IfErr result (heads.RefusesFrame T.IrText.own A.IrText.own A.AttrText.own A.eq ctx.now
        width (framed.Block frame)) }
    ensures appended { OnlyAppends f.old f.new }
{
    let mut left = frame;
    loop {
        let Some(next) = next_block(ctx, width, left, frames, items, f)? else {
            return Ok(());
        };
        left = next;
    }
}

/// Returns the block that is innermost after a step of a frame, if there is one. A block is innermost itself, and no step is made.
#[inline(always)]
fn innermost_block<'c, T: IrText<A>, A: AttrText<A>>(
    ctx: &'c Context<T, A>,
    width: u16,
    frame: Frame<'c>,
    frames: &mut Vec<Frame<'c>>,
    items: &mut Vec<Item>,
    f: &mut String,
) -> Result<Option<BlockFrame>, Refusal>
    requires fits { heads.FrameFitsAt T.IrText.own A.IrText.own A.AttrText.own A.eq ctx.now frame }
    ensures steps { IfOk result (λ inner.
        heads.ReachesAt T.IrText.own A.IrText.own A.AttrText.own A.eq ctx.now width frame.entry
        (option_map framed.Block inner) items.old.items items.new.items frames.old.items frames.new.items
        f.old f.new) }
    ensures refused { IfErr result (heads.RefusesFrame T.IrText.own A.IrText.own A.AttrText.own A.eq ctx.now
        width frame.entry) }
    ensures appended { OnlyAppends f.old f.new }
{
    match frame {
        Frame::Operation(frame) => {
            let Some(inside) = operation_step(ctx, width, frame, frames, items, f)? else {
                return Ok(None);
            };
            region_step(ctx, width, inside, frames, items, f)
        }
        Frame::Region(frame) => region_step(ctx, width, frame, frames, items, f),
        Frame::Block(frame) => Ok(Some(frame)),
    }
}

/// Prints what comes next of the innermost open frame, which was popped from the open ones, and of the blocks that begin inside of it.
/// What is still open after that was pushed.
#[inline(always)]
pub(crate) fn step<'c, T: IrText<A>, A: AttrText<A>>(
    ctx: &'c Context<T, A>,
    width: u16,
    frame: Frame<'c>,
    frames: &mut Vec<Frame<'c>>,
    items: &mut Vec<Item>,
    f: &mut String,
) -> Result<(), Refusal>
    requires fits { heads.FrameFitsAt T.IrText.own A.IrText.own A.AttrText.own A.eq ctx.now frame }
    ensures steps { OnOk result (
        heads.StepsAt T.IrText.own A.IrText.own A.AttrText.own A.eq ctx.now width frame.entry
        items.old.items items.new.items frames.old.items frames.new.items f.old f.new) }
    ensures refused { IfErr result (heads.RefusesFrame T.IrText.own A.IrText.own A.AttrText.own A.eq ctx.now
        width frame.entry) }
    ensures appended { OnlyAppends f.old f.new }
{
    let Some(block) = innermost_block(ctx, width, frame, frames, items, f)? else {
        return Ok(());
    };
    block_step(ctx, width, block, frames, items, f)
}
