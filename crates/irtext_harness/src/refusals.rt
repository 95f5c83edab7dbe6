//! The calls in which an allocation is made to fail from outside. Each word selects one, and the program checks what the caller sees then. It
//! ends with status 0 and the call's text, with 1 if out of memory, and with 3 if anything else happened.

mod locating;
mod printing;
mod reading;
mod registering;
mod strings;

use crate::fault::Fault;
use crate::refusals::printing::Located;
use crate::roots::Ctx;
use irtext_tests_common::contexts::with_context;
use std::alloc::Global;
use std::io::Write;
use std::process::ExitCode;
use std::test::Fail;

/// The calls that a word can select.
#[derive(Clone, Copy)]
pub(crate) enum Call {
    Again,
    Disp,
    Location,
    Objects,
    Strings,
    Unlocated,
}

impl Call {
    /// Returns the call that a word selects.
    pub(crate) fn of(word: &str) -> Option<Call> {
        match word {
            "again" => Some(Call::Again),
            "disp" => Some(Call::Disp),
            "location" => Some(Call::Location),
            "objects" => Some(Call::Objects),
            "strings" => Some(Call::Strings),
            "unlocated" => Some(Call::Unlocated),
            _ => None,
        }
    }

    /// Makes the call with an empty context, and appends its text.
    fn answer(
        self,
        alloc: Global,
        ctx: &mut Ctx,
        text: &str,
        out: &mut String,
    ) -> Result<(), Fault> {
        match self {
            Call::Again => reading::again(alloc, ctx, text, out),
            Call::Disp => printing::displayed(alloc, ctx, text, Located::AsRead, out),
            Call::Location => locating::read(ctx, text, out),
            Call::Objects => registering::objects(alloc, ctx, text, out),
            Call::Strings => strings::read(alloc, text, out),
            Call::Unlocated => printing::displayed(alloc, ctx, text, Located::Nowhere, out),
        }
    }

    /// Makes the call with an empty context, and writes its text if there is one. Returns the exit status.
    fn status(self, rt: &HostRuntime, ctx: &mut Ctx, text: &str) -> ExitCode {
        let mut out = String::new(rt.alloc());
        let answer = self.answer(rt.alloc(), ctx, text, &mut out);
        let done = written(rt, answer, out.as_str());
        drop(out);
        match done {
            Ok(()) => ExitCode::from(0),
            Err(fault) => fault.status(rt),
        }
    }
}

/// Writes the text of a call that had no fault.
fn written(rt: &HostRuntime, answer: Result<(), Fault>, text: &str) -> Result<(), Fault> {
    answer?;
    Ok(rt.stdout().write_all(text.as_bytes())?)
}

/// Makes the call with a new context, and writes its text if there is one. Returns the exit status.
pub(crate) fn status(rt: &HostRuntime, call: Call, text: &str) -> Result<ExitCode, Fail> {
    with_context(rt.alloc(), |_, ctx| Ok(call.status(rt, ctx, text)))
}
