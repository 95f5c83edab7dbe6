//! The items of an iterator, with separators between.
ghost use Rattle.std.specs.Prelude.{◌≡◌, false, OnOk, OnErr};
ghost use Rattle.std.specs.Iterator.{HoldsAlong, IsFinite};
ghost use Rattle.std.specs.List.{All};
ghost use Rattle.irtext_print_ir.specs.Printers.Items.{WritesGiven, PrintsItem, Separates};
ghost use Rattle.irtext_print_ir.specs.Printers.Refused.{RefusesSeparator, StopsGiven};

use crate::printable::state::State;
use crate::printable::{ListSeparator, Printable};
use irtext_base::text::{AttrText, IrText};
use irtext_context::base::Context;
use std::fmt;

/// Appends what is before an item: the separator, unless the item is the first.
pub(crate) fn fmt_between<T: IrText<A>, A: AttrText<A>, U>(
    first: bool,
    sep: ListSeparator,
    ctx: &Context<T, A>,
    state: &mut State<U>,
    f: &mut String,
) -> fmt::Result
    ensures text { OnOk result (Separates first sep state.old f.old f.new) }
    ensures refused { OnErr result ((first ≡ false) × RefusesSeparator sep state.old f.old state.new f.new) }
    ensures state { state.new ≡ state.old }
{
    if first {
        return Ok(());
    }
    sep.fmt(ctx, state, f)
}

/// Appends the texts of the items that an iterator yields, with a separator between each two: `a, b` with the separator
/// `CharSpace(',')`. Fails if a separator or an item does. What was appended up to the error remains.
pub fn fmt_iter<T: IrText<A>, A: AttrText<A>, U, I: Iterator + Drop>(
    iter: I,
    ctx: &Context<T, A>,
    state: &mut State<U>,
    sep: ListSeparator,
    f: &mut String,
) -> fmt::Result
where
    I::Item: Printable<U, T, A> + Drop,
    requires runs { I.can_next iter × IsFinite (I.remaining iter) }
    requires printable { HoldsAlong I.next_gives iter (All (λ x. I.Item.can_print x ctx.now)) }
    ensures prints { OnOk result (WritesGiven I.next_gives
        (PrintsItem I.Item.prints I.Item.gives ctx.now) iter sep state.old f.old state.new f.new) }
    ensures refused { OnErr result (StopsGiven I.next_gives
        (PrintsItem I.Item.prints I.Item.gives ctx.now) (λ x. I.Item.refuses x ctx.now) iter sep state.old
        f.old state.new f.new) }
{
    let mut first = true;
    for item in iter {
        fmt_between(first, sep, ctx, state, f)?;
        first = false;
        item.fmt(ctx, state, f)?;
    }
    Ok(())
}
