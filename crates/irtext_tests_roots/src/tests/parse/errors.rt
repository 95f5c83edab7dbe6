//! Errors in errors, and errors as faults of a parser.
use crate::tests::checks::{Check, alone};
use crate::tests::value::{read, same};
use irtext_base::location::{Location, Source};
use irtext_base::parsable::{ParseResult, SourcePosition};
use irtext_base::result::{Cause, Error, ErrorKind};
use irtext_demo::DemoAttr;
use irtext_print_ir::printable::Disp;
use irtext_tests_common::contexts::Ctx;
use irtext_tokens::parsable::IntoParseResult;
use std::alloc::Global;
use std::fmt;
use std::process::Abort;

/// What a call returns here: an error either way.
pub(crate) type Answer = Result<Error<DemoAttr>, Error<DemoAttr>>;

/// A place in memory.
pub(crate) fn at(line: i32, column: i32) -> Location<DemoAttr> {
    Location::SrcPos {
        src: Source::InMemory,
        pos: SourcePosition { line, column },
    }
}

/// An error of a kind at a location.
pub(crate) fn error(
    kind: ErrorKind,
    loc: Location<DemoAttr>,
    err: Cause<DemoAttr>,
) -> Error<DemoAttr> {
    Error { kind, err, loc }
}

/// The text of a result, which ends here, with the locations of its error.
pub(crate) fn shown(rt: &impl Abort, alloc: Global, ctx: &Ctx, answer: Answer) -> String {
    let text = format!(in alloc; "{}", answer.disp(ctx)).expect(rt, "out of memory");
    drop(answer);
    text
}

/// The texts of errors that hold others, with their locations.
const INNER: &[&str] = &[
    "[<in-memory>: line: 1, column: 1] Compilation error: invalid argument.\nCompilation error: verification failed.\n[<in-memory>: line: 1, column: 2] Compilation error: invalid input program.\nRepeated item reads nothing",
    "Compilation error: invalid argument.\nan error occurred when formatting an argument",
    "[<in-memory>: line: 4, column: 2] Compilation error: verification failed.\nCompilation error: invalid argument.\nan error occurred when formatting an argument",
];

/// An error in an error in another.
fn third(rt: &impl Abort, alloc: Global) -> Error<DemoAttr> {
    let first = error(ErrorKind::InvalidInput, at(1, 2), Cause::EmptyItem);
    let first = Box::new(alloc, first).expect(rt, "out of memory");
    let second = Cause::Nested(first);
    let second = error(ErrorKind::VerificationFailed, Location::Unknown, second);
    let second = Box::new(alloc, second).expect(rt, "out of memory");
    error(ErrorKind::InvalidArgument, at(1, 1), Cause::Nested(second))
}

/// An error of a formatter in another.
fn formatted(rt: &impl Abort, alloc: Global) -> Error<DemoAttr> {
    let inner: Error<DemoAttr> = Error::from(fmt::Error);
    let inner = Box::new(alloc, inner).expect(rt, "out of memory");
    error(
        ErrorKind::VerificationFailed,
        at(4, 2),
        Cause::Nested(inner),
    )
}

/// The error of a line.
fn inner(rt: &impl Abort, alloc: Global, number: usize) -> Answer {
    match number {
        0 => Ok(third(rt, alloc)),
        1 => Ok(Error::from(fmt::Error)),
        _ => Ok(formatted(rt, alloc)),
    }
}

/// The results of a parser for errors, a value and a result.
const FAULTS: &[&str] = &[
    "line: 4, column: 2: Repeated item reads nothing!",
    "line: 1, column: 1: Repeated item reads nothing!",
    "7",
    "line: 4, column: 2: List separator is white space!",
];

/// The error of a line.
fn error_of(number: usize) -> Error<DemoAttr> {
    match number {
        0 => error(ErrorKind::InvalidInput, at(4, 2), Cause::EmptyItem),
        _ => error(
            ErrorKind::InvalidArgument,
            Location::Unknown,
            Cause::EmptyItem,
        ),
    }
}

/// The value or the error of a line.
fn result_of(number: usize) -> Result<u8, Error<DemoAttr>> {
    match number {
        2 => Ok(7),
        _ => Err(error(ErrorKind::InvalidInput, at(4, 2), Cause::BadSeparator)),
    }
}

/// The error, value or result of a line, as the result of a parser.
fn as_reading(number: usize) -> ParseResult<u8, DemoAttr> {
    match number {
        0 | 1 => error_of(number).into_parse_result(),
        _ => result_of(number).into_parse_result(),
    }
}

/// Checks the text of each error.
pub(crate) fn check(rt: &impl Abort, alloc: Global, ctx: &Ctx) {
    for (number, wanted) in INNER.iter().enumerate() {
        same(rt, shown(rt, alloc, ctx, inner(rt, alloc, number)), *wanted);
    }
}

#[test]
fn errors_in_errors_and_in_readings(rt: HostRuntime) {
    alone(&rt, rt.alloc(), Check::Errors);
    for (number, wanted) in FAULTS.iter().enumerate() {
        same(&rt, read(&rt, rt.alloc(), as_reading(number)), *wanted);
    }
}
