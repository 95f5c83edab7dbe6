//! Numbers are printed in decimal digits, negative ones with a `-`.
ghost use Rattle.std.specs.Prelude.{◌≡◌, ◌++◌, OnOk, OnErr, Some, string_bytes};
ghost use Rattle.std.specs.Fmt.{decimal, signed_decimal};
ghost use Rattle.irtext_print_ir.specs.Printers.Refused.{HasNoRoom, IsFull};

use crate::printable::Printable;
use crate::printable::state::State;
use irtext_base::text::{AttrText, IrText};
use irtext_context::base::Context;
use itoa::{Buffer, Integer};
use std::fmt;

/// Appends a number in decimal digits. If there is no room for them, the text is unchanged.
fn fmt_number<I: Integer>(number: I, f: &mut String) -> fmt::Result
    ensures text { OnOk result (string_bytes f.new ≡ string_bytes f.old ++ I.text number) }
    ensures refused { OnErr result ((string_bytes f.new ≡ string_bytes f.old) × IsFull f.old (I.text number)) }
{
    let mut digits = Buffer::new();
    f.push_str(digits.format(number))?;
    Ok(())
}

impl<T: IrText<A>, A: AttrText<A>, U> Printable<U, T, A> for usize {
    ghost gives = { λ n _ s. Some (decimal n, s) };

    ghost refuses = { λ n _. HasNoRoom (decimal n) };

    fn fmt(&self, _ctx: &Context<T, A>, _state: &mut State<U>, f: &mut String) -> fmt::Result {
        fmt_number(*self, f)
    }
}

impl<T: IrText<A>, A: AttrText<A>, U> Printable<U, T, A> for u8 {
    ghost gives = { λ n _ s. Some (decimal n, s) };

    ghost refuses = { λ n _. HasNoRoom (decimal n) };

    fn fmt(&self, _ctx: &Context<T, A>, _state: &mut State<U>, f: &mut String) -> fmt::Result {
        fmt_number(*self, f)
    }
}

impl<T: IrText<A>, A: AttrText<A>, U> Printable<U, T, A> for u16 {
    ghost gives = { λ n _ s. Some (decimal n, s) };

    ghost refuses = { λ n _. HasNoRoom (decimal n) };

    fn fmt(&self, _ctx: &Context<T, A>, _state: &mut State<U>, f: &mut String) -> fmt::Result {
        fmt_number(*self, f)
    }
}

impl<T: IrText<A>, A: AttrText<A>, U> Printable<U, T, A> for u32 {
    ghost gives = { λ n _ s. Some (decimal n, s) };

    ghost refuses = { λ n _. HasNoRoom (decimal n) };

    fn fmt(&self, _ctx: &Context<T, A>, _state: &mut State<U>, f: &mut String) -> fmt::Result {
        fmt_number(*self, f)
    }
}

impl<T: IrText<A>, A: AttrText<A>, U> Printable<U, T, A> for u64 {
    ghost gives = { λ n _ s. Some (decimal n, s) };

    ghost refuses = { λ n _. HasNoRoom (decimal n) };

    fn fmt(&self, _ctx: &Context<T, A>, _state: &mut State<U>, f: &mut String) -> fmt::Result {
        fmt_number(*self, f)
    }
}

impl<T: IrText<A>, A: AttrText<A>, U> Printable<U, T, A> for i8 {
    ghost gives = { λ n _ s. Some (signed_decimal n, s) };

    ghost refuses = { λ n _. HasNoRoom (signed_decimal n) };

    fn fmt(&self, _ctx: &Context<T, A>, _state: &mut State<U>, f: &mut String) -> fmt::Result {
        fmt_number(*self, f)
    }
}

impl<T: IrText<A>, A: AttrText<A>, U> Printable<U, T, A> for i16 {
    ghost gives = { λ n _ s. Some (signed_decimal n, s) };

    ghost refuses = { λ n _. HasNoRoom (signed_decimal n) };

    fn fmt(&self, _ctx: &Context<T, A>, _state: &mut State<U>, f: &mut String) -> fmt::Result {
        fmt_number(*self, f)
    }
}

impl<T: IrText<A>, A: AttrText<A>, U> Printable<U, T, A> for i32 {
    ghost gives = { λ n _ s. Some (signed_decimal n, s) };

    ghost refuses = { λ n _. HasNoRoom (signed_decimal n) };

    fn fmt(&self, _ctx: &Context<T, A>, _state: &mut State<U>, f: &mut String) -> fmt::Result {
        fmt_number(*self, f)
    }
}

impl<T: IrText<A>, A: AttrText<A>, U> Printable<U, T, A> for i64 {
    ghost gives = { λ n _ s. Some (signed_decimal n, s) };

    ghost refuses = { λ n _. HasNoRoom (signed_decimal n) };

    fn fmt(&self, _ctx: &Context<T, A>, _state: &mut State<U>, f: &mut String) -> fmt::Result {
        fmt_number(*self, f)
    }
}
