//! The program of the benchmark. Its first argument selects what is measured on the text from standard input. `roots`: roots are parsed
//! from one stream, and printed once for each further argument. `numbers`, `strings`: the text is parsed as one list. `quoted`,
//! `copied`: the text is quoted or copied once for each further argument. `positions`: the position of its end is requested a million
//! times for each further argument. The other words test texts from outside. `erased`: roots are erased as they are parsed, once for
//! each further argument, with a random seed. `prints`: texts are parsed, and their printed texts are parsed again. `formats`: the same for texts with
//! operations in given formats. `graphs` needs no text: calls are made on graphs and names, which the further arguments select (`graphs.rt`).
#![tactic(auto)]

mod again;
mod directives;
mod erased;
mod formats;
mod graphs;
mod lists;
mod positions;
mod prints;
mod quoted;
mod roots;
mod said;

use crate::quoted::Way;
use irtext_base::seed::Seed;
use std::alloc::{AllocError, Global};
use std::io::Write;
use std::process::ExitCode;
use std::{env, io};

/// What a word selects.
#[derive(Clone, Copy)]
enum Task {
    Numbers,
    Strings,
    Positions,
    Written(Way),
    Erased,
    Prints,
    Formats,
    Roots,
}

impl Task {
    /// Returns the task of a word.
    fn of(word: &str) -> Task {
        match word {
            "numbers" => Task::Numbers,
            "strings" => Task::Strings,
            "positions" => Task::Positions,
            "quoted" => Task::Written(Way::Quoted),
            "copied" => Task::Written(Way::Copied),
            "erased" => Task::Erased,
            "prints" => Task::Prints,
            "formats" => Task::Formats,
            _ => Task::Roots,
        }
    }

    /// Does the task so many times, and appends a line with the amount.
    fn append(
        self,
        alloc: Global,
        seed: Seed,
        times: usize,
        text: &str,
        out: &mut String,
    ) -> Result<(), AllocError> {
        match self {
            Task::Numbers => lists::numbers(alloc, text, out),
            Task::Strings => lists::strings(alloc, text, out),
            Task::Positions => positions::positions(alloc, text, times, out),
            Task::Written(way) => quoted::write_often(alloc, way, text, times, out),
            Task::Erased => erased::erased(alloc, seed, text, times, out),
            Task::Prints => prints::prints(alloc, text, out),
            Task::Formats => formats::formats(alloc, text, out),
            Task::Roots => roots::roots(alloc, text, times, out),
        }
    }

    /// Does the same for a caller of input and output.
    fn measured(
        self,
        alloc: Global,
        seed: Seed,
        times: usize,
        text: &str,
        out: &mut String,
    ) -> io::Result<()> {
        Ok(self.append(alloc, seed, times, text, out)?)
    }
}

/// Does a task with the text from standard input, once for each argument after the first, and appends the line.
fn append_task(rt: &HostRuntime, task: Task, words: &[String], out: &mut String) -> io::Result<()> {
    let text = io::read_to_string(rt.alloc(), rt.reader())?;
    let times = words.len().saturating_sub(1);
    let done = task.measured(rt.alloc(), Seed::random(rt), times, text.as_str(), out);
    drop(text);
    done
}

/// Makes the calls that the arguments after the first select, and appends the line.
fn append_calls(rt: &HostRuntime, words: &[String], out: &mut String) -> io::Result<()> {
    if graphs::append_line(rt.alloc(), words, out)? {
        return Ok(());
    }
    Err(io::Error::from(io::ErrorKind::InvalidInput))
}

/// Does what the arguments select, and writes the line, which is empty before.
fn write_line(rt: &HostRuntime, words: &[String], out: &mut String) -> io::Result<()> {
    match words.first() {
        Some(word) if word.as_str() == "graphs" => append_calls(rt, words, out)?,
        Some(word) => append_task(rt, Task::of(word.as_str()), words, out)?,
        None => return Err(io::Error::from(io::ErrorKind::InvalidInput)),
    }
    println!(rt; "{out}")
}

/// Does the same with the program's arguments and a new line.
fn measure(rt: &HostRuntime) -> io::Result<()> {
    let words: Vec<String> = env::args(rt)?.skip(1).collect(rt.alloc())?;
    let mut out = String::new(rt.alloc());
    let done = write_line(rt, &words, &mut out);
    drop(out);
    drop(words);
    done
}

fn main(rt: HostRuntime) -> ExitCode {
    match measure(&rt) {
        Ok(()) => ExitCode::from(0),
        Err(_) => ExitCode::from(1),
    }
}
