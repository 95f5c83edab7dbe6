//! A printer that calls a closure.
ghost use Rattle.std.specs.Prelude.{◌≡◌, Ok};
ghost use Rattle.irtext_print_ir.specs.Printers.Calls.{FnWrites, FnRefuses};

use crate::printable::Printable;
use crate::printable::state::State;
use irtext_base::text::{AttrText, IrText};
use irtext_context::base::Context;
use std::fmt;

/// Prints by calling its closure. Created by [`printable_from_fn`](crate::irfmt::printers::printable_from_fn).
#[derive(Drop)]
pub struct PrinterFn<F> {
    pub(crate) print: F,
}

impl<
    T: IrText<A>,
    A: AttrText<A>,
    U,
    F: Fn(&Context<T, A>, &mut State<U>, &mut String) -> fmt::Result,
> Printable<U, T, A> for PrinterFn<F> {
    ghost can_print = { λ p _. F.IsAlwaysCallable p.print };

    ghost prints = { λ p c s b t d. FnWrites F.Fn p.print c s b (Ok tt) t d };

    ghost refuses = { λ p. FnRefuses F.Fn p.print };

    fn fmt(&self, ctx: &Context<T, A>, state: &mut State<U>, f: &mut String) -> fmt::Result {
        (self.print)(ctx, state, f)
    }
}
