//! Exit statuses.
ghost use Rattle.std.specs.Prelude.{◌≡◌};
ghost use Rattle.irtext_tool.specs.Statuses.{answer_status, failure_status, input_status, text_status};

use irtext_formatter::fault::{Failure, Fault};
use irtext_formatter::input::InputFault;

/// All went well.
pub const DONE: u8 = 0;

/// A text is rejected, or would change.
pub const REJECTED: u8 = 1;

/// The words of the command line are wrong.
pub const WRONG_WORDS: u8 = 2;

/// Input or output failed, memory ran out, or the program's dialects could not be registered.
pub const FAILED: u8 = 3;

/// Returns the status for an input that was not read.
pub fn status_of_input(fault: &InputFault) -> u8
    ensures { result ≡ input_status fault.now }
{
    match fault {
        InputFault::NotUtf8 { .. } => REJECTED,
        InputFault::Memory | InputFault::Unreadable(_) => FAILED,
    }
}

/// Returns the status for a text whose roots were not printed.
pub fn status_of_text<A>(fault: &Fault<A>) -> u8
    ensures { result ≡ text_status fault.now }
{
    match fault {
        Fault::Memory => FAILED,
        Fault::Rejected(_) | Fault::Misfit(_) | Fault::TooDeep => REJECTED,
    }
}

/// Returns the status for an input that was not formatted.
pub fn status_of<A>(failure: &Failure<A>) -> u8
    ensures { result ≡ failure_status failure.now }
{
    match failure {
        Failure::Input(fault) => status_of_input(fault),
        Failure::Text(fault) => status_of_text(fault),
        Failure::Dialects(_) | Failure::Unwritable(_) => FAILED,
    }
}

/// Returns the status for an answer: `DONE` if all went well.
pub fn status_of_answer<A>(answer: &Result<(), Failure<A>>) -> u8
    ensures { result ≡ answer_status answer.now }
{
    match answer {
        Ok(()) => DONE,
        Err(failure) => status_of(failure),
    }
}
