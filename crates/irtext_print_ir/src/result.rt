//! How errors are printed.
ghost use Rattle.std.specs.Prelude.{◌≡◌, ◌++◌, OnOk, OnErr, codes, string_bytes};
ghost use Rattle.irtext_base.specs.Appending.{OnlyAppends};
ghost use Rattle.irtext_base.specs.Causes.{cause_text, kind_text};
ghost use Rattle.irtext_print.specs.Errors.Located.{located_error};
ghost use Rattle.irtext_print_ir.specs.Printers.Refused.{HasAppended};

use crate::printable::Printable;
use crate::printable::state::State;
use irtext_base::result::{Cause, Error, ErrorKind, Result};
use irtext_base::text::{AttrText, IrText};
use irtext_context::base::Context;
use irtext_print::location::print::fmt_known;
use std::alloc::Global;
use std::fmt;

/// Appends the line of an error with its kind. The line is made first, and appended at once.
fn fmt_kind(kind: ErrorKind, alloc: Global, f: &mut String) -> fmt::Result
    ensures text { OnOk result (string_bytes f.new ≡ string_bytes f.old
        ++ (codes "Compilation error: " ++ (kind_text kind ++ codes ".\n"))) }
    ensures appended { OnErr result (OnlyAppends f.old f.new) }
{
    let line = format!(in alloc; "Compilation error: {kind}.\n")?;
    f.push_str(line.as_str())?;
    Ok(())
}

/// Appends the text of a cause. The text is made first, and appended at once.
fn fmt_cause<A: Drop>(cause: &Cause<A>, alloc: Global, f: &mut String) -> fmt::Result
    ensures text { OnOk result (string_bytes f.new ≡ string_bytes f.old ++ cause_text cause.now) }
    ensures appended { OnErr result (OnlyAppends f.old f.new) }
{
    let text = format!(in alloc; "{cause}")?;
    f.push_str(text.as_str())?;
    Ok(())
}

/// Appends an error's location in brackets, if it is known, its kind, and its cause. An inner error is printed the same way.
fn fmt_error<T: IrText<A>, A: AttrText<A>>(
    error: &Error<A>,
    ctx: &Context<T, A>,
    f: &mut String,
) -> fmt::Result
    ensures text { OnOk result (string_bytes f.new ≡ string_bytes f.old ++ located_error A.written ctx.now.paths
        error.now) }
    ensures appended { OnErr result (OnlyAppends f.old f.new) }
{
    fmt_known(&error.loc, "[", "] ", ctx, f)?;
    fmt_kind(error.kind, ctx.allocator(), f)?;
    match &error.err {
        Cause::Nested(inner) => fmt_error(inner, ctx, f),
        cause => fmt_cause(cause, ctx.allocator(), f),
    }
}

/// Prints the location in brackets, if it is known, the kind, and the cause on the next line. Fails only if out of memory.
///
/// ```text
/// [<in-memory>: line: 1, column: 3] Compilation error: invalid input program.
/// Parse error at line: 1, column: 3
/// Unexpected `b`, expected end of input
/// ```
impl<T: IrText<A>, A: AttrText<A>, U> Printable<U, T, A> for Error<A> {
    ghost use Rattle.irtext_print_ir.specs.Errors.Printed.{given_of};

    ghost gives = { λ error ctx s. given_of A.written ctx.paths error s };

    ghost refuses = { λ _ _. HasAppended };

    fn fmt(&self, ctx: &Context<T, A>, _state: &mut State<U>, f: &mut String) -> fmt::Result {
        fmt_error(self, ctx, f)
    }
}

/// Prints the value, or the error.
impl<X: Printable<U, T, A>, T: IrText<A>, A: AttrText<A>, U> Printable<U, T, A> for Result<X, A> {
    ghost use Rattle.irtext_print_ir.specs.Errors.Printed.{can_be, given, may_print, may_refuse};

    ghost can_print = { can_be X.can_print };

    ghost gives = { given A.written X.gives };

    ghost prints = { may_print A.written X.prints };

    ghost refuses = { may_refuse X.refuses };

    fn fmt(&self, ctx: &Context<T, A>, state: &mut State<U>, f: &mut String) -> fmt::Result {
        match self {
            Ok(value) => value.fmt(ctx, state, f),
            Err(error) => error.fmt(ctx, state, f),
        }
    }
}
