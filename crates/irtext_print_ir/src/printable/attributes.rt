//! How attributes are printed.
ghost use Rattle.std.specs.Prelude.{◌≡◌, Some};
ghost use Rattle.std.specs.Str.{encode_utf8_all};
ghost use Rattle.irtext_base.specs.Locations.{attr_view};
ghost use Rattle.irtext_grammar.specs.Spelling.AttrText.{attr_text};
ghost use Rattle.irtext_print_ir.specs.Printers.Refused.{HasAppended};

use crate::printable::{Printable, State};
use irtext_base::base::AttrObj;
use irtext_base::text::{AttrText, IrText};
use irtext_context::base::Context;
use irtext_print::printable::attributes::fmt_attr;
use std::fmt;

/// Prints an identifier as `builtin.identifier b`, given names as `builtin.given_names [x, ?]`, and a caller's attribute as its own
/// text. Fails only if out of memory.
impl<T: IrText<A>, A: AttrText<A>, U> Printable<U, T, A> for AttrObj<A> {
    ghost gives = { λ x _ s. Some (encode_utf8_all (attr_text A.IrText.written (attr_view x)), s) };

    ghost refuses = { λ _ _. HasAppended };

    fn fmt(&self, _ctx: &Context<T, A>, _state: &mut State<U>, f: &mut String) -> fmt::Result {
        fmt_attr(self, f)?;
        Ok(())
    }
}
