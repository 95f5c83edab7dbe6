//! The test harness, which the tools run over texts. Its first argument says what is done with the text from standard input.
//!
//! - `rows`: it is a file of rows, that is texts and what has to be said of each (`rows.rt`). `tools/try_rows` does this with the files of
//!   `rows/`.
//! - `again`, `disp`, `location`, `objects`, `strings`, `unlocated`: one call is made with it, and the call's text is printed (`refusals.rt`).
//!   `tools/refuse` makes each memory allocation of such a run fail in turn.
//!
//! It ends with status 1 if a row differs or memory ran out, with 2 and its usage if the argument is no such word, and with 3 if a call did
//! something that it must not do.
#![tactic(auto)]

mod failed;
mod fault;
mod refusals;
mod roots;
mod rows;

use crate::fault::Fault;
use crate::refusals::Call;
use std::process::{ExitCode, Termination};
use std::test::Fail;
use std::{env, io};

/// What is done with the text from standard input.
#[derive(Clone, Copy)]
enum Task {
    /// Its rows are tried.
    Rows,
    /// A call is made with it.
    Call(Call),
}

impl Task {
    /// Returns the task that a word selects.
    fn of(word: &str) -> Option<Task> {
        if word == "rows" {
            return Some(Task::Rows);
        }
        match Call::of(word) {
            Some(call) => Some(Task::Call(call)),
            None => None,
        }
    }

    /// Does the task with a text, and returns the exit status.
    fn status(self, rt: &HostRuntime, text: &str) -> Result<ExitCode, Fail> {
        match self {
            Task::Rows => rows::status(rt, text),
            Task::Call(call) => refusals::status(rt, call, text),
        }
    }
}

/// Returns the task that the first argument selects.
fn selected(rt: &HostRuntime) -> io::Result<Option<Task>> {
    let mut words = env::args(rt)?.skip(1);
    match words.next() {
        Some(word) => Ok(Task::of(word.as_str())),
        None => Ok(None),
    }
}

/// Does a task with the text from standard input, and returns the exit status.
fn status(rt: &HostRuntime, task: Task) -> ExitCode {
    match io::read_to_string(rt.alloc(), rt.reader()) {
        Ok(text) => task.status(rt, text.as_str()).report(rt),
        Err(error) => Fault::from(error).status(rt),
    }
}

fn main(rt: HostRuntime) -> ExitCode {
    match selected(&rt) {
        Ok(Some(task)) => status(&rt, task),
        Ok(None) => {
            let _ = eprintln!(rt;
                "usage: irtext_harness rows|again|disp|location|objects|strings|unlocated"
            );
            ExitCode::from(2)
        }
        Err(error) => Fault::from(error).status(&rt),
    }
}
