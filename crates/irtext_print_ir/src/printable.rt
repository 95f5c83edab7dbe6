//! Printable values: the trait, the printing state with its guards, values as a `Display`, and plain values.
ghost use Rattle.std.specs.Prelude.{List, ℕ, OnOk, OnErr, None, Option, ⊤, string_bytes};
ghost use Rattle.irtext_print.specs.Printers.Shown.{Shown};
ghost use Rattle.irtext_print.specs.Printers.Appended.{Writes};
ghost use Rattle.irtext_print_ir.specs.Printers.Refused.{HasGathered};
ghost use Rattle.std.specs.declared.string.String.{String};
ghost use Rattle.std.specs.declared.alloc.Global.{Global};
ghost use Rattle.irtext_context.specs.declared.base.context.Context.{Context};

use irtext_base::text::{AttrText, IrText};
use irtext_context::base::Context;
pub use irtext_print::printable::{
    IndentGuard, Refusal, RegionDepthGuard, RegionPrintDepthLimit, State, fmt_indented_newline,
    fmt_newline, guards, refusal, state,
};
pub use irtext_tokens::irfmt::separator::ListSeparator;
use std::fmt;

mod attributes;
pub mod displayable;
pub mod indented;
pub mod items;
pub mod numbers;
pub mod plain;

pub use displayable::{Disp, Displayable};
pub use indented::{IndentedNl, indented_nl};
pub use irtext_tokens::printable::fmt_quoted;
pub use items::fmt_iter;

/// A value with a text, which may depend on a context and a printing state.
pub trait Printable<U, T: IrText<A>, A: AttrText<A>> {
    // whether the value may be printed; for a pointer, whether its object is live
    ghost can_print: { Self → Context T A → Type 0 } = { λ _ _. ⊤ };

    // the text that is appended and the state that is left; `None` if nothing is claimed
    ghost gives: { Self → Context T A → Shown U → Option (List ℕ × Shown U) } = { λ _ _ _. None };

    // what one printing may do: the state and the text before it, and both after it
    ghost prints: { Self → Context T A → Shown U → String Global → Shown U → String Global → Type 0 } = { λ _ _ _ _ _ _. ⊤ };

    // what one printing that fails may leave: the state and the text before it, and both after it
    ghost refuses: { Self → Context T A → Shown U → String Global → Shown U → String Global → Type 0 } = { λ _ _. HasGathered };

    /// Appends the text. Fails if out of memory, if the indentation does not fit 16 bits, if an operation does not fit its format, or
    /// if a stored closure fails. An error leaves the text that was there, and what was appended up to the error; apart from gathered items
    /// it leaves the state as it was. Only a stored closure may do otherwise.
    fn fmt(&self, ctx: &Context<T, A>, state: &mut State<U>, f: &mut String) -> fmt::Result
        requires { can_print self.now ctx.now }
        ensures prints { OnOk result (prints self.now ctx.now state.old f.old state.new f.new) }
        ensures text { OnOk result (Writes (gives self.now ctx.now state.old) state.new (string_bytes f.old)
            (string_bytes f.new)) }
        ensures refused { OnErr result (refuses self.now ctx.now state.old f.old state.new f.new) };
}
