//! The items of an iterator, with separators between.
ghost use Rattle.std.specs.Prelude.{◌≡◌, Ok};
ghost use Rattle.std.specs.Iterator.{HoldsAlong, IsFinite};
ghost use Rattle.std.specs.List.{All};
ghost use Rattle.irtext_print_ir.specs.Printers.Calls.{FnWritesItem, FnRefusesItem};
ghost use Rattle.irtext_print_ir.specs.Printers.Items.{WritesCloned, PrintsItem};
ghost use Rattle.irtext_print_ir.specs.Printers.Refused.{StopsCloned};

use crate::printable::items::fmt_between;
use crate::printable::state::State;
use crate::printable::{ListSeparator, Printable, fmt_iter};
use irtext_base::text::{AttrText, IrText};
use irtext_context::base::Context;
use std::fmt;

/// Prints the items that a clone of its iterator yields. Created by [`list_with_sep`](crate::irfmt::printers::list_with_sep) and
/// [`iter_with_sep`](crate::irfmt::printers::iter_with_sep).
#[derive(Drop)]
pub struct IterWithSep<I> {
    pub(crate) iter: I,
    pub(crate) separator: ListSeparator,
}

impl<T: IrText<A>, A: AttrText<A>, U, I: Iterator + Clone + Drop> Printable<U, T, A>
    for IterWithSep<I>
where
    I::Item: Printable<U, T, A> + Drop,
{
    ghost can_print = { λ p c. (j : I) → I.is_clone p.iter j → I.can_next j × IsFinite (I.remaining j)
        × HoldsAlong I.next_gives j (All (λ x. I.Item.can_print x c)) };

    ghost prints = { λ p c s b t d. WritesCloned I.is_clone I.next_gives
        (PrintsItem I.Item.prints I.Item.gives c) p.iter p.separator s b t d };

    ghost refuses = { λ p c s b t d. StopsCloned I.is_clone I.next_gives
        (PrintsItem I.Item.prints I.Item.gives c) (λ x. I.Item.refuses x c) p.iter p.separator s b t d };

    fn fmt(&self, ctx: &Context<T, A>, state: &mut State<U>, f: &mut String) -> fmt::Result {
        fmt_iter(self.iter.clone()?, ctx, state, self.separator, f)
    }
}

/// Prints the items that a clone of its iterator yields, each with its closure. Created by
/// [`iter_with_sep_by`](crate::irfmt::printers::iter_with_sep_by).
#[derive(Drop)]
pub struct IterWithSepBy<I, F> {
    pub(crate) iter: I,
    pub(crate) separator: ListSeparator,
    pub(crate) print_item: F,
}

impl<
    T: IrText<A>,
    A: AttrText<A>,
    U,
    I: Iterator + Clone + Drop,
    F: Fn(I::Item, &Context<T, A>, &mut State<U>, &mut String) -> fmt::Result,
> Printable<U, T, A> for IterWithSepBy<I, F>
where
    I::Item: Drop,
{
    ghost can_print = { λ p _. F.IsAlwaysCallable p.print_item
        × ((j : I) → I.is_clone p.iter j → I.can_next j × IsFinite (I.remaining j)) };

    ghost prints = { λ p c s b t d. WritesCloned I.is_clone I.next_gives (FnWritesItem F.Fn p.print_item (Ok tt) c) p.iter p.separator s b t d };

    ghost refuses = { λ p c s b t d. StopsCloned I.is_clone I.next_gives (FnWritesItem F.Fn p.print_item (Ok tt) c)
        (FnRefusesItem F.Fn p.print_item c) p.iter p.separator s b t d };

    fn fmt(&self, ctx: &Context<T, A>, state: &mut State<U>, f: &mut String) -> fmt::Result {
        let items = self.iter.clone()?;
        let mut first = true;
        for item in items {
            fmt_between(first, self.separator, ctx, state, f)?;
            first = false;
            (self.print_item)(item, ctx, state, f)?;
        }
        Ok(())
    }
}
