//! The text of a root.
ghost use Rattle.std.specs.Prelude.{◌≡◌, ◌++◌, ℕ, List, IsSome, IfErr, OnOk, string_bytes};
ghost use Rattle.irtext_context.specs.Context.{operation};
ghost use Rattle.irtext_print_ops.specs.Heads as heads;
ghost use Rattle.pliron_text.specs.Calls.{IsPrinted};
ghost use Rattle.pliron_text.specs.Unprinted.{plain};

use irtext_base::text::{AttrText, IrText};
use irtext_context::base::{Context, Operation, Ptr};
use irtext_print::printable::{Refusal, State};
use irtext_print_ir::ir::print::print_root;

/// Appends the text of a root, as `disp` shows it: its concrete text with its mark, and the section. The error is `Memory`, `Misfit` (the
/// root, or an operation inside it, does not fit its format) or `Depth` (an indentation does not fit 16 bits); then a part of the text may
/// have been appended.
pub fn append_root<T: IrText<A>, A: AttrText<A>>(
    ctx: &Context<T, A>,
    op: Ptr<Operation>,
    out: &mut String,
) -> Result<(), Refusal>
    requires live { IsSome (operation ctx.now op) }
    ensures text { OnOk result ((text : List ℕ) × IsPrinted T.IrText.own A.IrText.own A.AttrText.own A.eq ctx.now op
        plain text × (string_bytes out.new ≡ string_bytes out.old ++ text)) }
    ensures refused { IfErr result (heads.RefusesUnder T.IrText.own A.IrText.own A.AttrText.own A.eq ctx.now
        op plain) }
{
    let mut state = State::new(ctx.allocator(), ());
    print_root(ctx, op, &mut state, out)
}
