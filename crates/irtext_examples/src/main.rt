//! The program `irtext_examples`: a small front end, a small pass, and two authors' dialects in one context. `irtext_examples front` parses a
//! sum such as `1 + 2 + 3` from standard input, builds a function that computes it, and prints its module. `irtext_examples pass` parses a
//! module, doubles each number that is the value of an `arith.constant`, and prints it. `irtext_examples both` parses a module with
//! operations, types and attributes of `arith` and of the demo dialects, and prints it.
#![tactic(auto)]

mod both;
mod front;
mod ir;
mod pass;
mod run;

use crate::run::Task;
use std::process::ExitCode;
use std::{env, io};

/// Returns the task that the arguments ask for, if they are one word.
fn task(rt: &HostRuntime) -> io::Result<Option<Task>> {
    let mut words = env::args(rt)?.skip(1);
    match (words.next(), words.next()) {
        (Some(word), None) => Ok(Task::of(word.as_str())),
        _ => Ok(None),
    }
}

fn main(rt: HostRuntime) -> ExitCode {
    let Ok(task) = task(&rt) else {
        let _ = eprintln!(rt; "cannot get the arguments");
        return ExitCode::from(1);
    };
    let (mut input, mut output, mut errors) = (rt.reader(), rt.stdout(), rt.stderr());
    ExitCode::from(run::run(rt.alloc(), task, &mut input, &mut output, &mut errors))
}
