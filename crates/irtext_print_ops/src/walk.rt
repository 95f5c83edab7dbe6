//! The loop over the open frames, which prints what is left of them. An item is an operation or a block that carries a mark.
ghost use Rattle.std.specs.Prelude.{◌≡◌, ◌++◌, ◌∷◌, [], OnOk, OnErr, IfErr, IfNone, length};
ghost use Rattle.irtext_base.specs.Appending.{OnlyAppends};
ghost use Rattle.irtext_print.specs.Printers.Appended.{AppendsText};
ghost use Rattle.irtext_print.specs.Refusals.{IsMemory, IsOther};
ghost use Rattle.irtext_print.specs.declared.printable.refusal.Refusal.TheVariants as refusal;
ghost use Rattle.irtext_print_ops.specs.Heads as heads;
ghost use Rattle.irtext_print_ops.specs.Steps.{listed};
ghost use Rattle.irtext_print_ops.specs.declared.frame.Frame.TheVariants as framed;

use crate::frame::{Frame, OperationFrame, open};
use crate::step::{operation_turns, step};
use irtext_base::text::{AttrText, IrText};
use irtext_context::base::{Context, Item};
use irtext_print::printable::Refusal;

/// Opens the first frame inside the open ones, if there is one.
#[inline(always)]
fn open_first<'c>(first: Option<Frame<'c>>, frames: &mut Vec<Frame<'c>>) -> Result<(), Refusal>
    ensures ok { OnOk result (frames.new.items ≡ frames.old.items ++ listed first.entry) }
    ensures refused { IfErr result (λ e. IsMemory e) }
{
    match first {
        Some(frame) => open(frames, frame),
        None => Ok(()),
    }
}

/// Closes the innermost open frame, and returns it; `None` if none is open.
#[inline(always)]
fn close<'c>(frames: &mut Vec<Frame<'c>>) -> Option<Frame<'c>>
    ensures all { frames.old.items ≡ frames.new.items ++ listed result }
    ensures none { IfNone result (frames.old.items ≡ []) }
{
    frames.pop()
}

/// Appends the text that is left of the open frames, the innermost first, until nothing is open. Items in it are added to `items`, in
/// the order of their marks; the index of a mark is its item's place in `items`. What was appended and gathered up to an error remains.
pub(crate) fn print_frames<'c, T: IrText<A>, A: AttrText<A>>(
    ctx: &'c Context<T, A>,
    width: u16,
    first: Option<Frame<'c>>,
    frames: &mut Vec<Frame<'c>>,
    items: &mut Vec<Item>,
    f: &mut String,
) -> Result<(), Refusal>
    requires some { IfNone first (frames.old.items ≡ []) }
    requires fit { heads.FramesFitAt T.IrText.own A.IrText.own A.AttrText.own A.eq ctx.now
        (frames.old.items ++ listed first) }
    ensures text { OnOk result (AppendsText f.old
        (heads.frames_text_at T.IrText.own A.IrText.own A.AttrText.own A.eq ctx.now width
        (frames.old.items ++ listed first.entry) (length items.old.items)) f.new) }
    ensures items { OnOk result (items.new.items ≡ items.old.items ++
        heads.frames_items_at T.IrText.own A.IrText.own A.AttrText.own A.eq ctx.now
        (frames.old.items ++ listed first.entry)) }
    ensures fits { OnOk result (
        heads.FramesFault T.IrText.own A.IrText.own A.AttrText.own A.eq ctx.now width
        refusal.Misfit (frames.old.items ++ listed first.entry) → ⊥) }
    ensures refused { IfErr result (λ e. IsOther e →
        heads.FramesFault T.IrText.own A.IrText.own A.AttrText.own A.eq ctx.now width e
        (frames.old.items ++ listed first.entry)) }
    ensures appended { OnErr result (OnlyAppends f.old f.new) }
{
    open_first(first, frames)?;
    while let Some(frame) = close(frames) {
        step(ctx, width, frame, frames, items, f)?;
    }
    Ok(())
}

/// Appends the text that is left of an operation. Items in it are added to `items`, in the order of their marks; the index of a mark is
/// its item's place in `items`. What was appended and gathered up to an error remains. Allocates no stack if no region has blocks.
pub(crate) fn print_operation<'c, T: IrText<A>, A: AttrText<A>>(
    ctx: &'c Context<T, A>,
    width: u16,
    frame: OperationFrame<'c>,
    items: &mut Vec<Item>,
    f: &mut String,
) -> Result<(), Refusal>
    requires fits { heads.FrameFitsAt T.IrText.own A.IrText.own A.AttrText.own A.eq ctx.now
        (framed.Operation frame) }
    ensures text { OnOk result (AppendsText f.old
        (heads.frames_text_at T.IrText.own A.IrText.own A.AttrText.own A.eq ctx.now width
        (framed.Operation frame.entry ∷ []) (length items.old.items)) f.new) }
    ensures items { OnOk result (items.new.items ≡ items.old.items ++
        heads.frames_items_at T.IrText.own A.IrText.own A.AttrText.own A.eq ctx.now
        (framed.Operation frame.entry ∷ [])) }
    ensures fits { OnOk result (
        heads.FramesFault T.IrText.own A.IrText.own A.AttrText.own A.eq ctx.now width
        refusal.Misfit (framed.Operation frame.entry ∷ []) → ⊥) }
    ensures refused { IfErr result (λ e. IsOther e →
        heads.FramesFault T.IrText.own A.IrText.own A.AttrText.own A.eq ctx.now width e
        (framed.Operation frame.entry ∷ [])) }
    ensures appended { OnErr result (OnlyAppends f.old f.new) }
{
    let mut left = frame;
    let Some(inside) = operation_turns(ctx, width, &mut left, items, f)? else {
        return Ok(());
    };
    let mut frames = Vec::new(ctx.allocator());
    open(&mut frames, Frame::Operation(left))?;
    print_frames(
        ctx,
        width,
        Some(Frame::Region(inside)),
        &mut frames,
        items,
        f,
    )
}
