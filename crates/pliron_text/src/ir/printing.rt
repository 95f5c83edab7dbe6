//! The text of an operation, or why it has none.
ghost use Rattle.std.specs.Prelude.{◌≡◌, ◌++◌, ℕ, List, Some, IsSome, IfOk, IfErr, OnOk, OnErr, string_bytes};
ghost use Rattle.irtext_context.specs.Context.{operation};
ghost use Rattle.irtext_print_ops.specs.Heads as heads;
ghost use Rattle.pliron_text.specs.Misfits.{IsFirstMisfit};
ghost use Rattle.pliron_text.specs.Unprinted.{plain, misfit_text, IsErrorOfMisfit, IsMisfitIn, IsUnprinted, IsShown};

use crate::ir::misfit::first_misfit;
use irtext_base::base::OpId;
use irtext_base::location::Location;
use irtext_base::result::{Cause, Error, ErrorKind, StringError};
use irtext_base::text::{AttrText, IrText};
use irtext_context::base::{Context, Operation, OperationAccess, Ptr};
use irtext_memory::{OutOfMemory, string};
use irtext_print::printable::{Refusal, State};
use irtext_print_ir::ir::print::print_root;
use irtext_print_ops::fits::FitFault;
use std::alloc::{AllocError, Global};
use std::fmt;
use std::fmt::Display;

/// An operation that does not fit its format, so that it has no text. It borrows from the context, and allocates nothing. Text: `Operation
/// test.use does not fit its format: The format does not write 2 operands`.
#[derive(Drop)]
pub struct Misfit<'c, A> {
    /// The operation.
    pub op: Ptr<Operation>,
    /// The operation's id.
    pub id: &'c OpId,
    /// The operation's location.
    pub loc: &'c Location<A>,
    /// The first reason why the operation does not fit its format.
    pub fault: FitFault<'c>,
    alloc: Global,
}

/// Why an operation was not printed.
#[derive(Drop)]
pub enum PrintError<'c, A> {
    /// Out of memory: an allocation was refused. All operations fit their formats.
    Memory(OutOfMemory),
    /// An indentation does not fit 16 bits: regions are nested too deep. All operations fit their formats.
    TooDeep,
    /// The operation, or one that is nested in it, does not fit its format. This is the first one in the order of the text.
    Misfit(Misfit<'c, A>),
}

impl<A> Display for Misfit<'_, A> {
    ghost output = { λ misfit. Some (misfit_text misfit) };

    fn fmt<W: fmt::Write>(&self, f: &mut fmt::Formatter<W>) -> fmt::Result {
        write!(
            f,
            "Operation {} does not fit its format: {}",
            self.id, self.fault
        )
    }
}

impl<A: AttrText<A>> Misfit<'_, A> {
    /// Returns the misfit as an error: its text, at a copy of its location. If out of memory, that is the error.
    fn to_error(&self) -> Error<A>
        ensures { IsErrorOfMisfit self.now result }
    {
        let message = match format!(in self.alloc; "{self}") {
            Ok(message) => message,
            Err(AllocError) => return Error::from(AllocError),
        };
        match self.loc.try_clone(self.alloc) {
            Ok(loc) => Error {
                kind: ErrorKind::InvalidArgument,
                err: Cause::Text(StringError(message)),
                loc,
            },
            Err(error) => error,
        }
    }
}

/// As an error of the library, of kind `InvalidArgument`: of a misfit its text, at the location of the operation; `TooDeep` has the cause
/// `Fmt`, and `Memory` the cause `Memory`.
impl<A: AttrText<A>> From<PrintError<'_, A>> for Error<A> {
    ghost use Rattle.pliron_text.specs.Unprinted.{IsErrorOf};

    ghost from_gives = { λ printing error. IsErrorOf printing error };

    fn from(error: PrintError<'_, A>) -> Error<A> {
        match error {
            PrintError::Memory(_) => Error::from(AllocError),
            PrintError::TooDeep => Error::from(fmt::Error),
            PrintError::Misfit(misfit) => misfit.to_error(),
        }
    }
}

/// Returns the error of an operation whose printing failed. If an operation does not fit its format, that is the error, whatever else is
/// wrong. Allocates nothing.
fn unprinted<'c, T: IrText<A>, A: AttrText<A>>(
    ctx: &'c Context<T, A>,
    root: Ptr<Operation>,
    refusal: Refusal,
) -> PrintError<'c, A>
    requires live { IsSome (operation ctx.now root) }
    requires refused { heads.RefusesUnder T.IrText.own A.IrText.own A.AttrText.own A.eq ctx.now root plain refusal }
    ensures { IsUnprinted T.IrText.own A.IrText.own A.AttrText.own A.eq ctx.now root result }
{
    match first_misfit(ctx, root) {
        Some((op, fault)) => PrintError::Misfit(Misfit {
            op,
            id: op.get_opid(ctx),
            loc: op.loc(ctx),
            fault,
            alloc: ctx.allocator(),
        }),
        None => match refusal {
            Refusal::Memory(error) => PrintError::Memory(error),
            Refusal::Depth => PrintError::TooDeep,
            Refusal::Misfit => unreachable!(),
        },
    }
}

/// Printing of an operation that says why it fails. (`disp` is for `write!` and `format!`, whose only errors are `fmt::Error` and
/// `AllocError`, whatever the reason.)
pub trait ToText: Sized {
    ghost use Rattle.irtext_graph.specs.declared.arena.Ptr.{Ptr};
    ghost use Rattle.irtext_graph.specs.declared.object.Operation.{Operation};

    // the pointer
    ghost pointer: { Self → Ptr Operation };

    /// Returns the text of the operation with everything nested in it, the same that `disp` shows. If the operation is in no block, the
    /// section follows.
    ///
    /// If the operation, or one that is nested in it, does not fit its format, the error is `Misfit` with the first such operation in the
    /// order of the text, also where memory runs out. Otherwise it is `TooDeep` (an indentation does not fit 16 bits) or `Memory`.
    ///
    /// ```text
    /// test.nop !0
    ///
    /// outlined_attributes:
    /// !0 = @[<in-memory>: line: 1, column: 1], []
    /// ```
    fn to_text<'c, T: IrText<A>, A: AttrText<A>>(
        self,
        ctx: &'c Context<T, A>,
    ) -> Result<String, PrintError<'c, A>>
        requires live { IsSome (operation ctx.now (pointer self)) }
        ensures text { IfOk result (λ text. IsShown T.IrText.own A.IrText.own A.AttrText.own A.eq ctx.now
            (pointer self) (string_bytes text)) }
        ensures refused { IfErr result (IsUnprinted T.IrText.own A.IrText.own A.AttrText.own A.eq ctx.now
            (pointer self)) };

    /// Appends the text that `to_text` returns. The errors are the same; an error leaves `out` unchanged.
    fn append_text<'c, T: IrText<A>, A: AttrText<A>>(
        self,
        ctx: &'c Context<T, A>,
        out: &mut String,
    ) -> Result<(), PrintError<'c, A>>
        requires live { IsSome (operation ctx.now (pointer self)) }
        ensures text { OnOk result ((text : List ℕ) × IsShown T.IrText.own A.IrText.own A.AttrText.own A.eq ctx.now
            (pointer self) text × (string_bytes out.new ≡ string_bytes out.old ++ text)) }
        ensures refused { IfErr result (IsUnprinted T.IrText.own A.IrText.own A.AttrText.own A.eq ctx.now
            (pointer self)) }
        ensures err { OnErr result (string_bytes out.new ≡ string_bytes out.old) };
}

impl ToText for Ptr<Operation> {
    ghost pointer = { λ p. p };

    fn to_text<'c, T: IrText<A>, A: AttrText<A>>(
        self,
        ctx: &'c Context<T, A>,
    ) -> Result<String, PrintError<'c, A>> {
        let alloc = ctx.allocator();
        let mut text = String::new(alloc);
        let mut state = State::new(alloc, ());
        match print_root(ctx, self, &mut state, &mut text) {
            Ok(()) => Ok(text),
            Err(refusal) => Err(unprinted(ctx, self, refusal)),
        }
    }

    fn append_text<'c, T: IrText<A>, A: AttrText<A>>(
        self,
        ctx: &'c Context<T, A>,
        out: &mut String,
    ) -> Result<(), PrintError<'c, A>> {
        let text = match self.to_text(ctx) {
            Ok(text) => text,
            Err(error) => return Err(error),
        };
        match string::push_str(out, text.as_str()) {
            Ok(()) => Ok(()),
            Err(error) => Err(unprinted(ctx, self, Refusal::Memory(error))),
        }
    }
}
