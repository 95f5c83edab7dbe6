//! How references, texts, Booleans, characters and list separators are printed.
ghost use Rattle.std.specs.Prelude.{◌≡◌, Some, List, ℕ};
ghost use Rattle.std.specs.Char.{encode_utf8};
ghost use Rattle.std.specs.String.{string_bytes};
ghost use Rattle.irtext_tokens.specs.QuotedBytes.{quoted_bytes};
ghost use Rattle.irtext_print_ir.specs.Printers.Separator.{bool_text};
ghost use Rattle.irtext_print_ir.specs.Printers.Refused.{HasAppended, HasNoRoom, RefusesSeparator};

use crate::printable::state::State;
use crate::printable::{ListSeparator, Printable, fmt_indented_newline};
use irtext_base::text::{AttrText, IrText};
use irtext_context::base::Context;
use irtext_tokens::printable::fmt_quoted;
use std::fmt;

/// Prints what the value behind the reference prints.
impl<T: IrText<A>, A: AttrText<A>, U, X: Printable<U, T, A>> Printable<U, T, A> for &X {
    ghost can_print = { λ x. X.can_print x.now };

    ghost gives = { λ x c s. X.gives x.now c s };

    ghost prints = { λ x. X.prints x.now };

    ghost refuses = { λ x. X.refuses x.now };

    fn fmt(&self, ctx: &Context<T, A>, state: &mut State<U>, f: &mut String) -> fmt::Result {
        (**self).fmt(ctx, state, f)
    }
}

/// Prints the text unchanged, without quotation marks.
impl<T: IrText<A>, A: AttrText<A>, U> Printable<U, T, A> for &str {
    ghost gives = { λ x _ s. Some (x.now, s) };

    ghost refuses = { λ x _. HasNoRoom x.now };

    fn fmt(&self, _ctx: &Context<T, A>, _state: &mut State<U>, f: &mut String) -> fmt::Result {
        f.push_str(self)?;
        Ok(())
    }
}

/// Prints the text between quotation marks, as `fmt_quoted` does.
impl<T: IrText<A>, A: AttrText<A>, U> Printable<U, T, A> for String {
    ghost gives = { λ x _ s. Some (quoted_bytes (string_bytes x), s) };

    ghost refuses = { λ _ _. HasAppended };

    fn fmt(&self, _ctx: &Context<T, A>, _state: &mut State<U>, f: &mut String) -> fmt::Result {
        fmt_quoted(self.as_str(), f)?;
        Ok(())
    }
}

/// Prints `true` or `false`.
impl<T: IrText<A>, A: AttrText<A>, U> Printable<U, T, A> for bool {
    ghost gives = { λ b _ s. Some (bool_text b, s) };

    ghost refuses = { λ b _. HasNoRoom (bool_text b) };

    fn fmt(&self, _ctx: &Context<T, A>, _state: &mut State<U>, f: &mut String) -> fmt::Result {
        f.push_str(if *self { "true" } else { "false" })?;
        Ok(())
    }
}

/// Prints the character unchanged.
impl<T: IrText<A>, A: AttrText<A>, U> Printable<U, T, A> for char {
    ghost gives = { λ c _ s. Some (encode_utf8 c, s) };

    ghost refuses = { λ c _. HasNoRoom (encode_utf8 c) };

    fn fmt(&self, _ctx: &Context<T, A>, _state: &mut State<U>, f: &mut String) -> fmt::Result {
        f.push(*self)?;
        Ok(())
    }
}

/// Prints nothing for `None`; a newline and the state's indentation for `Newline`; the character, a newline and the indentation for
/// `CharNewline`; the character for `Char`; the character and a space for `CharSpace`.
impl<T: IrText<A>, A: AttrText<A>, U> Printable<U, T, A> for ListSeparator {
    ghost use Rattle.irtext_print_ir.specs.Printers.Separator.{separator_text};

    ghost gives = { λ x _ s. Some (separator_text x s, s) };

    ghost refuses = { λ x _. RefusesSeparator x };

    fn fmt(&self, _ctx: &Context<T, A>, state: &mut State<U>, f: &mut String) -> fmt::Result {
        match self {
            ListSeparator::None => Ok(()),
            ListSeparator::Newline => {
                fmt_indented_newline(state, f)?;
                Ok(())
            }
            ListSeparator::CharNewline(c) => {
                f.push(*c)?;
                fmt_indented_newline(state, f)?;
                Ok(())
            }
            ListSeparator::Char(c) => {
                f.push(*c)?;
                Ok(())
            }
            ListSeparator::CharSpace(c) => {
                f.push(*c)?;
                f.push(' ')?;
                Ok(())
            }
        }
    }
}
