//! What every step of these tests needs: a call that fails ends the test.
use irtext_base::parsable::ParseResult;
use irtext_base::result::Result as Answer;
use irtext_tests_common::answers;
use irtext_tests_common::answers::{done_or_cause, value_or_cause};
use std::alloc::Global;
use std::fmt;
use std::process::Abort;
use std::test::Fail;

/// The value of a call that has to succeed. A failed one ends the test, and drops nothing of what it owns.
pub(crate) fn must<X>(rt: &impl Abort, answer: Result<X, Fail>) -> X {
    match answer {
        Ok(value) => value,
        Err(_) => rt.panic("a call has failed"),
    }
}

/// Ends the test if a text, which ends here, is not the expected one. A caller has no branch for it, as it has for an assertion of its own.
pub(crate) fn same(rt: &impl Abort, said: String, wanted: &str) {
    assert_eq!(rt; said.as_str(), wanted);
    drop(said);
}

/// Whether a call was allowed. Its result ends here.
pub(crate) fn is_allowed<X: Drop, E: Drop>(answer: Result<X, E>) -> bool {
    let allowed = answer.is_ok();
    drop(answer);
    allowed
}

/// The text of the result of a parser: its value, or its fault, which end here.
pub(crate) fn line_told<X: fmt::Display + Drop, A: Drop>(
    rt: &impl Abort,
    alloc: Global,
    answer: ParseResult<X, A>,
) -> String {
    must(rt, answers::told(alloc, answer))
}

/// This word for a call that succeeded, or the cause of its error. The result ends here, and not in each test that has one.
pub(crate) fn told<X: Drop, A: Drop>(
    rt: &impl Abort,
    alloc: Global,
    answer: Answer<X, A>,
    done: &str,
) -> String {
    let said = must(rt, done_or_cause(alloc, &answer, done));
    drop(answer);
    said
}

/// The text of an error, which ends here.
pub(crate) fn error_told<E: fmt::Display + Drop>(
    rt: &impl Abort,
    alloc: Global,
    error: E,
) -> String {
    let said = format!(in alloc; "{error}").expect(rt, "out of memory");
    drop(error);
    said
}

/// The value of a call that succeeded, or the cause of its error, which end here.
pub(crate) fn value_told<X: fmt::Display + Drop, A: Drop>(
    rt: &impl Abort,
    alloc: Global,
    answer: Answer<X, A>,
) -> String {
    let said = must(rt, value_or_cause(alloc, &answer));
    drop(answer);
    said
}
