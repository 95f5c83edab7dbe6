//! What follows of the definitions of a text's roots.
ghost use Rattle.std.specs.Prelude.{◌≡◌, ℕ, List, true, false};
ghost use Rattle.std.specs.Str.{chars};
ghost use Rattle.irtext_base.specs.Stream.{StreamView};
ghost use Rattle.irtext_base.specs.declared.parsable.fault.ParseFault.{ParseFault};
ghost use Rattle.irtext_context.specs.Context.{ContextView};
ghost use Rattle.irtext_parse_state.specs.FromText.{at_beginning};
ghost use Rattle.irtext_formatter.specs.Lines.{lined};
ghost use Rattle.irtext_formatter.specs.Rows.{follows, GivesRoot, Formats, FailsAfter};
ghost use Rattle.irtext_stream.specs.Classes.{after_spaces};
ghost use Rattle.irtext_formatter.specs.declared.fault.Fault.TheVariants.{Misfit, Rejected};
ghost use Rattle.irtext_formatter.specs.declared.layout.Layout.{Layout};
ghost use Rattle.irtext_formatter.specs.declared.misfit.Misfit as unfit;

use irtext_base::text::{AttrText, IrText};

/// A text of which all roots are printed has none that is rejected, in whatever layouts. So [`format_text`] and [`check_text`] reject a
/// text exactly if it is not a row of roots that resolve, unless memory runs out, or an earlier root cannot be printed.
///
/// [`format_text`]: crate::format::format_text
/// [`check_text`]: crate::format::check_text
pub fn printed_is_not_rejected<T: IrText<A>, A: AttrText<A>>()
    ensures { (layout other : Layout) (text out : List ℕ) (ctx after : ContextView T A) (fault : ParseFault A)
        → Formats T.IrText.own A.IrText.own A.AttrText.own A.eq layout text ctx out after
        → FailsAfter T.IrText.own A.IrText.own A.AttrText.own A.eq other text ctx (Rejected fault) → ⊥ }
{}

/// A text of which all roots are printed has no operation that does not fit its format, in whatever layouts. So [`format_text`] and
/// [`check_text`] return a misfit only for a text that has one, whatever else they could have returned.
///
/// [`format_text`]: crate::format::format_text
/// [`check_text`]: crate::format::check_text
pub fn printed_fits<T: IrText<A>, A: AttrText<A>>()
    ensures { (layout other : Layout) (text out : List ℕ) (ctx after : ContextView T A) (misfit : unfit.Misfit)
        → Formats T.IrText.own A.IrText.own A.AttrText.own A.eq layout text ctx out after
        → FailsAfter T.IrText.own A.IrText.own A.AttrText.own A.eq other text ctx (Misfit misfit) → ⊥ }
{}

/// If a text is that of one root, which resolves and whose operations fit their formats, this is printed: the root's text, and a newline if
/// that does not end with one.
pub fn one_root_is_formatted<T: IrText<A>, A: AttrText<A>>()
    ensures { (layout : Layout) (text root : List ℕ) (next : StreamView) (ctx shown : ContextView T A)
        → follows (chars text) ≡ true
        → GivesRoot T.IrText.own A.IrText.own A.AttrText.own A.eq layout (after_spaces (at_beginning text)) ctx root next shown
        → follows next.rest ≡ false
        → Formats T.IrText.own A.IrText.own A.AttrText.own A.eq layout text ctx (lined root) shown }
{}
