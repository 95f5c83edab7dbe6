//! How sources, positions and locations are printed.
ghost use Rattle.std.specs.Prelude.{◌≡◌, Some};
ghost use Rattle.std.specs.Str.{encode_utf8_all};
ghost use Rattle.irtext_base.specs.Causes.{position_text};
ghost use Rattle.irtext_base.specs.Paths.{path_of};
ghost use Rattle.irtext_grammar.specs.Spelling.Locations.{source_text, location_text};
ghost use Rattle.irtext_print_ir.specs.Printers.Refused.{HasAppended};

use crate::printable::{Printable, State};
use irtext_base::location::{Location, Source};
use irtext_base::parsable::SourcePosition;
use irtext_base::text::{AttrText, IrText};
use irtext_context::base::Context;
use irtext_print::location::print::{fmt_location, fmt_source};
use std::fmt;

/// Prints the path of a file between quotation marks, or `<in-memory>`. Fails only if out of memory.
impl<T: IrText<A>, A: AttrText<A>, U> Printable<U, T, A> for Source {
    ghost gives = { λ src ctx s. Some (encode_utf8_all (source_text (path_of ctx.paths src)), s) };

    ghost refuses = { λ _ _. HasAppended };

    fn fmt(&self, ctx: &Context<T, A>, _state: &mut State<U>, f: &mut String) -> fmt::Result {
        fmt_source(*self, ctx, f)?;
        Ok(())
    }
}

/// Prints line and column, both from 1, in characters: `line: 1, column: 21`. The text is made first, and appended at once. Fails only if
/// out of memory.
impl<T: IrText<A>, A: AttrText<A>, U> Printable<U, T, A> for SourcePosition {
    ghost gives = { λ pos _ s. Some (position_text pos, s) };

    ghost refuses = { λ _ _. HasAppended };

    fn fmt(&self, ctx: &Context<T, A>, _state: &mut State<U>, f: &mut String) -> fmt::Result {
        let text = format!(in ctx.allocator(); "{self}")?;
        f.push_str(text.as_str())?;
        Ok(())
    }
}

/// Prints the location: `"f.mlir": line: 2, column: 3` for a position, `name: "n", loc: (?)` for a named one, `?` for an unknown one.
/// Fails only if out of memory.
impl<T: IrText<A>, A: AttrText<A>, U> Printable<U, T, A> for Location<A> {
    ghost gives = { λ location ctx s. Some (encode_utf8_all (location_text A.written ctx.paths location), s) };

    ghost refuses = { λ _ _. HasAppended };

    fn fmt(&self, ctx: &Context<T, A>, _state: &mut State<U>, f: &mut String) -> fmt::Result {
        fmt_location(self, ctx, f)?;
        Ok(())
    }
}
