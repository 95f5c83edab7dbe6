//! The body of the program: from its words, its input and its outputs to its exit status.
ghost use Rattle.std.specs.Prelude.{◌≡◌, Bool, None, OnOk, IfOk, IfErr, map, string_bytes};
ghost use Rattle.irtext.specs.Faults.{text_of, status_of};
ghost use Rattle.irtext.specs.Lines.{Says};
ghost use Rattle.irtext.specs.Program.{form_named, form_of, Makes, Unmade, Answers, Runs};

use crate::fault::Fault;
use crate::formatting::formatted;
use crate::input::read_text;
use crate::output::write_line;
use crate::root::Form;
use irtext_base::seed::Seed;
use irtext_demo::{DemoAttr, DemoType};
use pliron_text::base::Context;
use std::alloc::Global;
use std::io;
use std::io::{Read, Write};

/// Returns the form that a word asks for, `fmt` or `dbg`.
fn form_named(word: &str) -> Option<Form>
    ensures { result ≡ form_named word.now }
{
    match word {
        "fmt" => Some(Form::Whole),
        "dbg" => Some(Form::Elided),
        _ => None,
    }
}

/// Returns the form that the arguments ask for: one word, `fmt` or `dbg`.
fn form_of(args: &[&str]) -> Option<Form>
    ensures { result ≡ form_of (map (λ arg. arg.now) args.now) }
{
    match args {
        [word] => form_named(word),
        _ => None,
    }
}

/// Reads the input to its end, and returns the text of its root in this form. The objects of the root are not freed: the program ends when
/// the text is written.
fn make_text<R: Read>(alloc: Global, seed: Seed, form: Form, input: &mut R) -> Result<String, Fault>
    ensures text { IfOk result (λ text. Makes (R.remaining input.old) (R.remaining input.new) form (string_bytes text)) }
    ensures fault { IfErr result (Unmade (R.remaining input.old) (R.remaining input.new) form) }
{
    let text = read_text(alloc, input)?;
    let mut ctx: Context<DemoType, DemoAttr> = Context::with_seed(alloc, seed);
    let answer = formatted(&mut ctx, form, text);
    std::mem::forget(ctx);
    answer
}

/// Does the work of `run`, and returns the fault if there is one.
fn try_run<R: Read, W: Write>(
    alloc: Global,
    seed: Seed,
    args: &[&str],
    input: &mut R,
    output: &mut W,
) -> Result<(), Fault>
    ensures { Answers R.remaining W.contents
        (map (λ arg. arg.now) args.now) input.old input.new output.old output.new result }
{
    let Some(form) = form_of(args) else {
        return Err(Fault::Usage);
    };
    let text = make_text(alloc, seed, form, input)?;
    match write_line(output, text.as_str()) {
        Ok(()) => Ok(()),
        Err(_) => Err(Fault::Unwritable),
    }
}

/// Writes the text of a fault, if there is one. Allocates nothing.
fn tell<W: Write>(errors: &mut W, answer: &Result<(), Fault>) -> io::Result<()>
    ensures told { OnOk result (Says W.contents errors.old errors.new (text_of answer.now)) }
    ensures silent { text_of answer.now ≡ None → errors.new ≡ errors.old }
{
    match answer {
        Ok(()) => Ok(()),
        Err(fault) => match fault.text() {
            Some(text) => write_line(errors, text),
            None => Ok(()),
        },
    }
}

/// Returns the exit status of an answer.
fn status(answer: &Result<(), Fault>) -> u8
    ensures { result ≡ status_of answer.now }
{
    match answer {
        Ok(()) => 0,
        Err(fault) => fault.status(),
    }
}

/// How the program ended.
#[derive(Clone, Copy, Debug)]
pub struct Ended {
    /// The exit status.
    pub status: u8,
    /// Whether the errors took the text of the fault, if there was one.
    pub took: bool,
}

/// Does what `run` does, and returns in addition whether the errors took what was written to them.
pub fn run_to_end<R: Read, W: Write, E: Write>(
    alloc: Global,
    seed: Seed,
    args: &[&str],
    input: &mut R,
    output: &mut W,
    errors: &mut E,
) -> Ended
    ensures { Runs R.remaining W.contents
        (map (λ arg. arg.now) args.now) input.old input.new output.old output.new E.contents errors.old errors.new
        result.took result.status }
{
    let answer = try_run(alloc, seed, args, input, output);
    let took = tell(errors, &answer).is_ok();
    Ended {
        status: status(&answer),
        took,
    }
}

/// Runs the program, and returns its exit status. With the argument `fmt` it parses a root from the beginning of the input and prints it
/// in the canonical form, with marks and the section. With `dbg` it prints the root's concrete text with its regions elided: of
/// `builtin.module @m {}` that is `builtin.module @m {..}`.
///
/// The status is 0 if the text was written to `output`, as a line. It is 2 if the arguments are others: then nothing was read. Otherwise
/// it is 1: the input could not be read, or is not UTF-8; its text was rejected; its root was not printed; memory ran out; or the output
/// could not be written. Unless that is the reason, nothing was written to `output`. The text of the reason goes to `errors`, as a line;
/// if they fail the status is the same. The seed is that of the context; nothing that is written depends on it.
pub fn run<R: Read, W: Write, E: Write>(
    alloc: Global,
    seed: Seed,
    args: &[&str],
    input: &mut R,
    output: &mut W,
    errors: &mut E,
) -> u8
    ensures { (took : Bool) × Runs R.remaining W.contents
        (map (λ arg. arg.now) args.now) input.old input.new output.old output.new E.contents errors.old errors.new
        took result }
{
    run_to_end(alloc, seed, args, input, output, errors).status
}
