//! Results as texts: the value, or the error.
ghost use Rattle.std.specs.Prelude.{◌≡◌, IfOk, Ok};

use irtext_base::base::Identifier;
use irtext_base::parsable::{ParseFault, ParseResult, SourcePosition, TextStream};
use irtext_base::result::Result as Answer;
use std::alloc::Global;
use std::fmt;
use std::test::Fail;

/// The text of a value.
fn shown<X: fmt::Display>(alloc: Global, value: &X) -> Result<String, Fail> {
    Ok(format!(in alloc; "{value}")?)
}

/// The text of a result: its value, or its error.
pub fn printed<X: fmt::Display, A>(alloc: Global, answer: &Answer<X, A>) -> Result<String, Fail> {
    match answer {
        Ok(value) => shown(alloc, value),
        Err(error) => shown(alloc, error),
    }
}

/// The text of a result: its value, or the cause of its error.
pub fn value_or_cause<X: fmt::Display, A>(
    alloc: Global,
    answer: &Answer<X, A>,
) -> Result<String, Fail> {
    match answer {
        Ok(value) => shown(alloc, value),
        Err(error) => shown(alloc, &error.err),
    }
}

/// This word for a call that succeeded, or the cause of its error.
pub fn done_or_cause<X, A>(
    alloc: Global,
    answer: &Answer<X, A>,
    done: &str,
) -> Result<String, Fail> {
    match answer {
        Ok(_) => shown(alloc, &done),
        Err(error) => shown(alloc, &error.err),
    }
}

/// The text of a fault: its place and its cause, and `!` if it is committed.
pub fn result_text<A>(alloc: Global, fault: &ParseFault<A>) -> Result<String, Fail> {
    let mark = if fault.committed { "!" } else { "" };
    Ok(format!(in alloc; "{}: {}{mark}", fault.pos, fault.cause)?)
}

/// The text of the result of a parser: its value, or its fault.
pub fn line<X: fmt::Display, A>(alloc: Global, answer: &ParseResult<X, A>) -> Result<String, Fail> {
    match answer {
        Ok(value) => shown(alloc, value),
        Err(fault) => result_text(alloc, fault),
    }
}

/// The text of a fault, and the next character of the stream if the fault is uncommitted.
pub fn left<A>(alloc: Global, fault: &ParseFault<A>, next: Option<char>) -> Result<String, Fail> {
    if fault.committed {
        return result_text(alloc, fault);
    }
    Ok(format!(in alloc; "{}: {}|{next:?}", fault.pos, fault.cause)?)
}

/// The text of the result of a parser: the value with the next character of the stream, or the fault.
pub fn with_next<X: fmt::Display, A>(
    alloc: Global,
    answer: &ParseResult<X, A>,
    next: Option<char>,
) -> Result<String, Fail> {
    match answer {
        Ok(value) => Ok(format!(in alloc; "{value}|{next:?}")?),
        Err(fault) => left(alloc, fault, next),
    }
}

/// The text of the result of a list's parser: its items, the stream's place and its next character, or the fault.
pub fn listed<A>(
    alloc: Global,
    answer: &ParseResult<Vec<i32>, A>,
    at: SourcePosition,
    next: Option<char>,
) -> Result<String, Fail> {
    match answer {
        Ok(found) => Ok(format!(in alloc; "{found:?}, {at}: {next:?}")?),
        Err(fault) => left(alloc, fault, next),
    }
}

/// The text of what a parser returns for a text.
pub fn said<
    X: fmt::Display + Drop,
    A: Drop,
    F: FnOnce(&mut TextStream) -> ParseResult<X, A> + Drop,
>(alloc: Global, text: &str, read: F) -> Result<String, Fail>
    requires { F.IsAlwaysCallable read }
{
    let mut stream = TextStream::new(alloc, text)?;
    let said = said_next(alloc, &mut stream, read);
    drop(stream);
    said
}

/// The text of what a parser returns on a stream.
pub fn said_next<
    X: fmt::Display + Drop,
    A: Drop,
    F: FnOnce(&mut TextStream) -> ParseResult<X, A> + Drop,
>(alloc: Global, stream: &mut TextStream, read: F) -> Result<String, Fail>
    requires { F.IsAlwaysCallable read }
{
    told(alloc, read(stream))
}

/// The text of the result of a parser, which ends here.
pub fn told<X: fmt::Display + Drop, A: Drop>(
    alloc: Global,
    answer: ParseResult<X, A>,
) -> Result<String, Fail> {
    let text = line(alloc, &answer);
    drop(answer);
    text
}

/// The identifier with this text; fails if the text is no identifier.
pub fn named(alloc: Global, text: &str) -> Result<Identifier, Fail>
    ensures { IfOk result (λ name. name ≡ text.now) }
{
    let name: Answer<Identifier, ()> = Identifier::try_new(alloc, text);
    accepted(name, "no identifier")
}

/// The value of a call that has to succeed. A failed one fails for this reason, and its error ends here.
pub fn accepted<X, A: Drop>(answer: Answer<X, A>, why: &str) -> Result<X, Fail>
    ensures { IfOk result (λ x. answer ≡ Ok x) }
{
    match answer {
        Ok(value) => Ok(value),
        Err(error) => {
            drop(error);
            Err(Fail::from(why))
        }
    }
}

/// This error in place of a result; what was held for it ends here.
pub(crate) fn failed<H: Drop, X, E>(_held: H, error: E) -> Result<X, E> {
    Err(error)
}
