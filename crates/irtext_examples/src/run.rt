//! The body of the program: from its arguments, its input and its outputs to its exit status.
ghost use Rattle.std.specs.Prelude.{◌≤◌, IfOk, IsSome};
ghost use Rattle.irtext_context.specs.Context.{operation};

use crate::both::{AnyAttr, Both};
use crate::ir::{Answer, Ir, register};
use crate::{both, front, pass};
use irtext_formatter::input::{InputFault, read_text};
use irtext_formatter::misfit::position_in_memory;
use irtext_formatter::output::write_text;
use pliron_text::base::{Context, Operation, Ptr};
use pliron_text::ir::{OperationText, PrintError, ToText};
use pliron_text::parsable::parse_from_str;
use pliron_text::printable::Disp;
use pliron_text::result;
use pliron_text::result::{Error, Excerpt};
use pliron_text::text::{AttrText, IrText};
use std::alloc::{AllocError, Global};
use std::fmt::Write as _;
use std::io::{Read, Write};
use thiserror::Error as ErrorText;

/// Why a task failed. Its text goes to the error output. `Refused`: the input was rejected, or the root could not be printed, with the
/// error's text.
#[derive(Debug, Drop, ErrorText)]
pub enum Fault {
    #[error("cannot read standard input as UTF-8")]
    Unreadable,
    #[error("out of memory")]
    Memory(#[from(alloc)] AllocError),
    #[error("{0}")]
    Refused(String),
    #[error("cannot write")]
    Unwritable,
}

/// What the program does with operations of `arith`.
#[derive(Clone, Copy)]
pub enum ArithTask {
    /// Builds the module of a sum.
    Front,
    /// Doubles the constants of a module.
    Pass,
}

/// What the program does.
#[derive(Clone, Copy)]
pub enum Task {
    /// Builds or changes a module with operations of `arith`.
    Arith(ArithTask),
    /// Parses a module with operations, types and attributes of two authors' dialects.
    Both,
}

impl Task {
    /// Returns the task of a word: `front`, `pass` or `both`.
    pub fn of(word: &str) -> Option<Task> {
        match word {
            "front" => Some(Task::Arith(ArithTask::Front)),
            "pass" => Some(Task::Arith(ArithTask::Pass)),
            "both" => Some(Task::Both),
            _ => None,
        }
    }
}

/// Returns the text of an error, and the line of the input that it is about with a caret below the place.
fn error_text<T: IrText<A>, A: AttrText<A>>(
    alloc: Global,
    ctx: &Context<T, A>,
    input: &str,
    error: &Error<A>,
) -> Result<String, AllocError> {
    let mut text = format!(in alloc; "{}", error.disp(ctx))?;
    let Some(position) = position_in_memory(&error.loc) else {
        return Ok(text);
    };
    if !text.as_str().ends_with('\n') {
        text.push('\n')?;
    }
    let excerpt = Excerpt {
        text: input,
        position,
    };
    write!(text, "{excerpt}")?;
    Ok(text)
}

/// Returns the fault for an error: its text.
fn refusal<T: IrText<A>, A: AttrText<A>>(
    alloc: Global,
    ctx: &Context<T, A>,
    input: &str,
    error: &Error<A>,
) -> Fault {
    match error_text(alloc, ctx, input, error) {
        Ok(text) => Fault::Refused(text),
        Err(AllocError) => Fault::Memory(AllocError),
    }
}

/// Parses a root from the input.
fn parsed<T: IrText<A>, A: AttrText<A>>(
    ctx: &mut Context<T, A>,
    input: &str,
) -> result::Result<Ptr<Operation>, A>
    ensures { IfOk result (λ op. IsSome (operation ctx.new op)) }
{
    parse_from_str(|stream| Operation::whole_text_parse(stream), ctx, input)
}

/// Builds the module of the sum in the input.
fn compiled(ctx: &mut Ir, input: &str) -> Answer<Ptr<Operation>>
    ensures { IfOk result (λ op. IsSome (operation ctx.new op)) }
{
    register(ctx)?;
    front::compile(ctx, input)
}

/// Parses a root from the input, and doubles its constants.
#[tactic(auto, using(crate::proofs::Changes::stays_live))]
fn doubled(ctx: &mut Ir, input: &str) -> Answer<Ptr<Operation>>
    ensures { IfOk result (λ op. IsSome (operation ctx.new op)) }
{
    register(ctx)?;
    let root = parsed(ctx, input)?;
    pass::double_all(ctx, root)?;
    Ok(root)
}

/// Does a task with operations of `arith`, and returns the root.
fn arith_root(ctx: &mut Ir, task: ArithTask, input: &str) -> Answer<Ptr<Operation>>
    ensures { IfOk result (λ op. IsSome (operation ctx.new op)) }
{
    match task {
        ArithTask::Front => compiled(ctx, input),
        ArithTask::Pass => doubled(ctx, input),
    }
}

/// Parses a root with the operations, types and attributes of two authors' dialects.
fn parsed_both(ctx: &mut Both, input: &str) -> result::Result<Ptr<Operation>, AnyAttr>
    ensures { IfOk result (λ op. IsSome (operation ctx.new op)) }
{
    both::register(ctx)?;
    parsed(ctx, input)
}

/// Returns the root's text, or the fault for the error.
fn printed<T: IrText<A>, A: AttrText<A>>(
    alloc: Global,
    ctx: &Context<T, A>,
    input: &str,
    root: result::Result<Ptr<Operation>, A>,
) -> Result<String, Fault>
    requires { IfOk root (λ op. IsSome (operation ctx.now op)) }
{
    match root {
        Ok(root) => match root.to_text(ctx) {
            Ok(text) => Ok(text),
            Err(PrintError::Memory(_)) => Err(Fault::Memory(AllocError)),
            Err(error) => Err(refusal(alloc, ctx, input, &Error::from(error))),
        },
        Err(error) => Err(refusal(alloc, ctx, input, &error)),
    }
}

/// Does a task with operations of `arith` in a new context, and returns the root's text.
fn arith_output(alloc: Global, task: ArithTask, input: &str) -> Result<String, Fault> {
    let mut ctx = Context::new(alloc);
    let root = arith_root(&mut ctx, task, input);
    printed(alloc, &ctx, input, root)
}

/// Parses a root with the operations, types and attributes of two authors' dialects in a new context, and returns its text.
fn both_output(alloc: Global, input: &str) -> Result<String, Fault> {
    let mut ctx = Context::new(alloc);
    let root = parsed_both(&mut ctx, input);
    printed(alloc, &ctx, input, root)
}

/// Does the task, and returns the root's text.
fn output_of(alloc: Global, task: Task, input: &str) -> Result<String, Fault> {
    match task {
        Task::Arith(task) => arith_output(alloc, task, input),
        Task::Both => both_output(alloc, input),
    }
}

/// Reads the input, does the task, and returns the root's text.
fn done(alloc: Global, task: Task, input: &mut impl Read) -> Result<String, Fault> {
    match read_text(alloc, input) {
        Ok(text) => output_of(alloc, task, text.as_str()),
        Err(InputFault::Memory) => Err(Fault::Memory(AllocError)),
        Err(_) => Err(Fault::Unreadable),
    }
}

/// Does a task, and returns the fault if there is one.
fn try_run(
    alloc: Global,
    task: Task,
    input: &mut impl Read,
    output: &mut impl Write,
) -> Result<(), Fault> {
    let printed = done(alloc, task, input)?;
    write_text(output, printed.as_str()).map_err(|_| Fault::Unwritable)
}

/// Does the task that the program's arguments ask for, and returns the exit status: 0, or 1 if the task failed, or 2 if they ask for
/// none. Why goes to `errors`.
pub fn run(
    alloc: Global,
    task: Option<Task>,
    input: &mut impl Read,
    output: &mut impl Write,
    errors: &mut impl Write,
) -> u8
    ensures { result ≤ 2 }
{
    let Some(task) = task else {
        let _ = writeln!(errors, "usage: irtext_examples front|pass|both");
        return 2;
    };
    let Err(fault) = try_run(alloc, task, input, output) else {
        return 0;
    };
    let _ = writeln!(errors, "{fault}");
    1
}
