//! What the rows of a second look are tried with: what it finds for a root that is rejected for a name, and where a root ends.
#![tactic(auto)]

ghost use Rattle.std.specs.Prelude.{◌≡◌, false};

use irtext_demo::DemoAttr;
use irtext_survey::{first_definition, first_use, skip_root, stream_at};
use irtext_tests_common::contexts::Ctx;
use pliron_text::base::Operation;
use pliron_text::ir::OperationText;
use pliron_text::location::Source;
use pliron_text::parsable::{
    ParseFault, ParserNameTrackerError, SourcePosition, State, StateStream, TextStream,
    UnresolvedReference,
};
use pliron_text::result::Cause;
use std::alloc::{AllocError, Global};
use std::fmt::Write;
use std::test::Fail;

/// Fails if a text could not be written.
fn written(done: Result<(), AllocError>) -> Result<(), Fail> {
    match done {
        Ok(()) => Ok(()),
        Err(error) => Err(Fail::from(error)),
    }
}

/// Parses this many roots and one more. Returns where that begins, and its fault.
fn last_fault(
    alloc: Global,
    ctx: &mut Ctx,
    text: &str,
    before: u64,
) -> Result<Option<(SourcePosition, ParseFault<DemoAttr>)>, Fail> {
    let stream = TextStream::new(alloc, text)?;
    let mut s = StateStream {
        stream,
        state: State::new(ctx, Source::InMemory, ()),
    };
    for _ in 0..before {
        let _ = Operation::top_level_parse(&mut s).ok().ok_or("refused")?;
    }
    let root = s.stream.locate(s.stream.position());
    match Operation::top_level_parse(&mut s) {
        Ok(_) => Ok(None),
        Err(fault) => Ok(Some((root, fault))),
    }
}

/// Says a position, or that there is none.
fn push_position(found: Option<SourcePosition>, said: &mut String) -> Result<(), Fail> {
    match found {
        Some(at) => written(write!(said, "{at}")),
        None => written(said.push_str("none")),
    }
}

/// The position that a second look finds for a fault.
fn noted(
    ctx: &Ctx,
    stream: &mut TextStream,
    fault: &ParseFault<DemoAttr>,
) -> Result<Option<SourcePosition>, Fail>
    requires { stream.old.failed ≡ false }
{
    match &fault.cause {
        Cause::UnresolvedReference(UnresolvedReference(name)) => {
            Ok(first_use(stream, ctx, name.as_str(), fault.pos)?)
        }
        Cause::ParserNameTrackerError(ParserNameTrackerError::MultipleDefinitions(name)) => {
            Ok(first_definition(stream, ctx, name.as_str(), fault.pos)?)
        }
        _ => Ok(None),
    }
}

/// Says the fault of a root after this many others, and what a second look finds for it.
pub fn push_noted(
    alloc: Global,
    ctx: &mut Ctx,
    text: &str,
    before: u64,
    said: &mut String,
) -> Result<(), Fail> {
    let Some((root, fault)) = last_fault(alloc, ctx, text, before)? else {
        return written(said.push_str("read"));
    };
    let mark = if fault.committed { "!" } else { "" };
    written(write!(said, "{}: {}{mark} ", fault.pos, fault.cause))?;
    let mut stream = stream_at(alloc, text, root)?;
    let found = noted(ctx, &mut stream, &fault)?;
    drop(stream);
    drop(fault);
    push_position(found, said)
}

/// Says where the first root of a text ends.
pub fn push_end(alloc: Global, ctx: &mut Ctx, text: &str, said: &mut String) -> Result<(), Fail> {
    let mut stream = TextStream::new(alloc, text)?;
    if skip_root(&mut stream, ctx)? {
        let end = stream.locate(stream.position());
        return push_position(Some(end), said);
    }
    push_position(None, said)
}
