//! A newline and the indentation, as a value that prints itself.
ghost use Rattle.std.specs.Prelude.{◌≡◌, Some};
ghost use Rattle.irtext_print.specs.Printers.Printing.{indent_of};
ghost use Rattle.irtext_grammar.specs.Spelling.Spell.{newline};
ghost use Rattle.irtext_print_ir.specs.Printers.Refused.{HasAppended};

use crate::printable::state::State;
use crate::printable::{Printable, fmt_newline};
use irtext_base::text::{AttrText, IrText};
use irtext_context::base::Context;
use std::fmt;

/// A newline and an indentation. Created by [`indented_nl`].
#[derive(Clone, Copy, Debug)]
pub struct IndentedNl {
    indent: u16,
}

/// Returns a newline and as many spaces as the state's indentation has at this call.
pub fn indented_nl<U>(state: &State<U>) -> IndentedNl
    ensures { result.indent ≡ indent_of state.now }
{
    IndentedNl {
        indent: state.current_indent(),
    }
}

impl fmt::Display for IndentedNl {
    ghost output = { λ line. Some (newline line.indent) };

    fn fmt<W: fmt::Write>(&self, f: &mut fmt::Formatter<W>) -> fmt::Result {
        f.write_str("\n")?;
        for _column in 0..self.indent {
            f.write_str(" ")?;
        }
        Ok(())
    }
}

impl<T: IrText<A>, A: AttrText<A>, U> Printable<U, T, A> for IndentedNl {
    ghost gives = { λ line _ s. Some (newline line.indent, s) };

    ghost refuses = { λ _ _. HasAppended };

    fn fmt(&self, _ctx: &Context<T, A>, _state: &mut State<U>, f: &mut String) -> fmt::Result {
        fmt_newline(self.indent, f)?;
        Ok(())
    }
}
