//! A dialect is printed as its name.
ghost use Rattle.std.specs.Prelude.{◌≡◌, Some};
ghost use Rattle.irtext_print_ir.specs.Printers.Refused.{HasNoRoom};

use crate::printable::Printable;
use crate::printable::state::State;
use irtext_base::text::{AttrText, IrText};
use irtext_context::base::Context;
use irtext_context::dialect::Dialect;
use std::convert::AsStr;
use std::fmt;

/// Prints the dialect's name, as `builtin`. Fails only if out of memory.
impl<T: IrText<A>, A: AttrText<A>, U> Printable<U, T, A> for Dialect {
    ghost gives = { λ dialect _ s. Some (dialect.name, s) };

    ghost refuses = { λ dialect _. HasNoRoom dialect.name };

    fn fmt(&self, _ctx: &Context<T, A>, _state: &mut State<U>, f: &mut String) -> fmt::Result {
        f.push_str(self.name().as_str())?;
        Ok(())
    }
}
