//! An input, read to its end, formatted, and written to an output.
ghost use Rattle.std.specs.Prelude.{◌≡◌, ℕ, List, [], IfOk, IfErr, OnOk, string_bytes};
ghost use Rattle.std.specs.Io.KnownBytes.{Appends};
ghost use Rattle.irtext_formatter.specs.Formatted.{Gives, FailsText, FailsRead, FailsInput, IsRead, Unwritten};

use crate::dialects::{Dialects, new_context};
use crate::fault::Failure;
use crate::format::{check_text, format_text};
use crate::input::read_text;
use crate::layout::Layout;
use crate::output::write_text;
use irtext_base::seed::Seed;
use irtext_base::text::{AttrText, IrText};
use std::alloc::Global;
use std::io::{Read, Write};

/// Formats a text with these dialects, in a new context with this seed. The error is `Dialects` if they cannot be registered, and else
/// `Text` with the fault of [`format_text`].
pub fn format_new<T: IrText<A>, A: AttrText<A>, D: Dialects<T, A>>(
    alloc: Global,
    seed: Seed,
    text: &str,
    layout: Layout,
) -> Result<String, Failure<A>>
    ensures gives { IfOk result (λ out. Gives T.IrText.own A.IrText.own A.AttrText.own A.eq layout (D.registered [])
        text.now (string_bytes out)) }
    ensures fails { IfErr result (FailsText T.IrText.own A.IrText.own A.AttrText.own A.eq layout (D.registered [])
        text.now) }
{
    let mut ctx = match new_context::<T, A, D>(alloc, seed) {
        Ok(ctx) => ctx,
        Err(error) => return Err(Failure::Dialects(error)),
    };
    match format_text(&mut ctx, text, layout) {
        Ok(formatted) => Ok(formatted),
        Err(fault) => Err(Failure::Text(fault)),
    }
}

/// Reads the input to its end, formats its roots, and writes their texts to the output. What was read replaces `text`, also if its roots
/// are not printed, so that its lines can be shown. On any error but `Unwritable` nothing is written.
pub fn format_input<T: IrText<A>, A: AttrText<A>, D: Dialects<T, A>, R: Read, W: Write>(
    alloc: Global,
    seed: Seed,
    input: &mut R,
    layout: Layout,
    text: &mut String,
    output: &mut W,
) -> Result<(), Failure<A>>
    ensures read { IsRead (R.remaining input.old) (string_bytes text.old) (string_bytes text.new) result }
    ensures gives { OnOk result ((out : List ℕ) × Gives T.IrText.own A.IrText.own A.AttrText.own A.eq layout
        (D.registered []) (string_bytes text.new) out
        × Appends (W.contents output.old) (W.contents output.new) out) }
    ensures fails { IfErr result (FailsInput T.IrText.own A.IrText.own A.AttrText.own A.eq layout (D.registered [])
        (R.remaining input.old) (R.remaining input.new) (string_bytes text.new)) }
    ensures unwritten { Unwritten result (output.new ≡ output.old) }
{
    match read_text(alloc, input) {
        Ok(read) => *text = read,
        Err(fault) => return Err(Failure::Input(fault)),
    }
    let formatted = match format_new::<T, A, D>(alloc, seed, text.as_str(), layout) {
        Ok(formatted) => formatted,
        Err(failure) => return Err(failure),
    };
    match write_text(output, formatted.as_str()) {
        Ok(()) => Ok(()),
        Err(error) => Err(Failure::Unwritable(error)),
    }
}

/// Checks a text with these dialects, in a new context with this seed, and returns no text. It succeeds exactly where [`format_new`] does,
/// if there is memory enough, and fails for the same reason.
pub fn check_new<T: IrText<A>, A: AttrText<A>, D: Dialects<T, A>>(
    alloc: Global,
    seed: Seed,
    text: &str,
    layout: Layout,
) -> Result<(), Failure<A>>
    ensures gives { OnOk result ((out : List ℕ) × Gives T.IrText.own A.IrText.own A.AttrText.own A.eq layout
        (D.registered []) text.now out) }
    ensures fails { IfErr result (FailsText T.IrText.own A.IrText.own A.AttrText.own A.eq layout (D.registered [])
        text.now) }
{
    let mut ctx = match new_context::<T, A, D>(alloc, seed) {
        Ok(ctx) => ctx,
        Err(error) => return Err(Failure::Dialects(error)),
    };
    match check_text(&mut ctx, text, layout) {
        Ok(()) => Ok(()),
        Err(fault) => Err(Failure::Text(fault)),
    }
}

/// Reads the input to its end and checks its roots, as [`format_input`] does, and writes nothing: it succeeds exactly where that does, if
/// there is memory enough and nothing is wrong with the output, and fails for the same reason.
pub fn check_input<T: IrText<A>, A: AttrText<A>, D: Dialects<T, A>, R: Read>(
    alloc: Global,
    seed: Seed,
    input: &mut R,
    layout: Layout,
    text: &mut String,
) -> Result<(), Failure<A>>
    ensures read { IsRead (R.remaining input.old) (string_bytes text.old) (string_bytes text.new) result }
    ensures gives { OnOk result ((out : List ℕ) × Gives T.IrText.own A.IrText.own A.AttrText.own A.eq layout
        (D.registered []) (string_bytes text.new) out) }
    ensures fails { IfErr result (FailsRead T.IrText.own A.IrText.own A.AttrText.own A.eq layout (D.registered [])
        (R.remaining input.old) (R.remaining input.new) (string_bytes text.new)) }
{
    match read_text(alloc, input) {
        Ok(read) => *text = read,
        Err(fault) => return Err(Failure::Input(fault)),
    }
    check_new::<T, A, D>(alloc, seed, text.as_str(), layout)
}
