//! A quoted text, and a text between two others.
ghost use Rattle.std.specs.Prelude.{◌≡◌, Some};
ghost use Rattle.irtext_print_ir.specs.Printers.Enclosed.{around, Encloses};
ghost use Rattle.irtext_print_ir.specs.Printers.Refused.{HasAppended, RefusesEnclosed};
ghost use Rattle.irtext_tokens.specs.QuotedBytes.{quoted_bytes};

use crate::printable::state::State;
use crate::printable::{Printable, fmt_quoted};
use irtext_base::text::{AttrText, IrText};
use irtext_context::base::Context;
use std::fmt;

/// Prints a text between quotation marks. Created by [`quoted`](crate::irfmt::printers::quoted).
#[derive(Clone, Copy)]
pub struct Quoted<'a> {
    pub(crate) text: &'a str,
}

impl<T: IrText<A>, A: AttrText<A>, U> Printable<U, T, A> for Quoted<'_> {
    ghost gives = { λ q _ s. Some (quoted_bytes q.text.now, s) };

    ghost refuses = { λ _ _. HasAppended };

    fn fmt(&self, _ctx: &Context<T, A>, _state: &mut State<U>, f: &mut String) -> fmt::Result {
        fmt_quoted(self.text, f)?;
        Ok(())
    }
}

/// Prints a value between two texts. Created by [`enclosed`](crate::irfmt::printers::enclosed).
#[derive(Drop)]
pub struct Enclosed<'a, P> {
    pub(crate) left: &'a str,
    pub(crate) right: &'a str,
    pub(crate) inside: P,
}

impl<'a, T: IrText<A>, A: AttrText<A>, U, P: Printable<U, T, A>> Printable<U, T, A>
    for Enclosed<'a, P> {
    ghost can_print = { λ e. P.can_print e.inside };

    ghost gives = { λ e c s. around e.left.now e.right.now (P.gives e.inside c s) };

    ghost prints = { λ e c s b t d. Encloses (P.prints e.inside c) e.left.now e.right.now s b t d };

    ghost refuses = { λ e c. RefusesEnclosed (P.prints e.inside c) (P.refuses e.inside c) e.left.now e.right.now };

    fn fmt(&self, ctx: &Context<T, A>, state: &mut State<U>, f: &mut String) -> fmt::Result {
        f.push_str(self.left)?;
        self.inside.fmt(ctx, state, f)?;
        f.push_str(self.right)?;
        Ok(())
    }
}
