//! What is said of a row: texts, and why there is none.
use crate::fault::written;
use irtext_demo::DemoAttr;
use pliron_text::parsable::{ParseFault, ParseResult};
use std::fmt::Write;
use std::test::Fail;

/// Appends these words.
pub(crate) fn push_words(words: &str, said: &mut String) -> Result<(), Fail> {
    written(said.push_str(words))
}

/// Appends a fault: its place and its cause, and `!` if it is committed.
pub(crate) fn push_fault(fault: &ParseFault<DemoAttr>, said: &mut String) -> Result<(), Fail> {
    let mark = if fault.committed { "!" } else { "" };
    written(write!(said, "{}: {}{mark}", fault.pos, fault.cause))
}

/// Appends these words for a value that was parsed, or the fault.
pub(crate) fn push_answer<X: Drop>(
    answer: ParseResult<X, DemoAttr>,
    words: &str,
    said: &mut String,
) -> Result<(), Fail> {
    let done = match &answer {
        Ok(_) => push_words(words, said),
        Err(fault) => push_fault(fault, said),
    };
    drop(answer);
    done
}

/// Returns the text if what it says could be said.
pub(crate) fn if_said(done: Result<(), Fail>, said: String) -> Result<String, Fail> {
    match done {
        Ok(()) => Ok(said),
        Err(fail) => {
            drop(said);
            Err(fail)
        }
    }
}

/// Fails with these words unless something holds.
pub(crate) fn require(holds: bool, otherwise: &str) -> Result<(), Fail> {
    if holds {
        Ok(())
    } else {
        Err(Fail::from(otherwise))
    }
}
