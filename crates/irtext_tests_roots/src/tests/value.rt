//! What the tests take from a helper that may fail, its value, or the test ends; texts, names and ids; and what a result says. Results end
//! here, by calls of `drop`: a value that ends of itself is proved part by part.
ghost use Rattle.std.specs.Prelude.{◌≡◌, Ok};

use irtext_base::base::{Identifier, OpId};
use irtext_base::parsable::ParseResult;
use irtext_base::result::Result as Answer;
use irtext_tests_common::answers;
use irtext_tests_common::answers::{done_or_cause, named, printed};
use irtext_tests_common::building::id;
use std::alloc::Global;
use std::fmt;
use std::process::Abort;
use std::test::Fail;

/// The value of a result, which ends the test with this message if it is an error.
pub(crate) fn value_of<X>(rt: &impl Abort, answer: Result<X, Fail>, message: &str) -> X
    ensures { answer ≡ Ok result }
{
    match answer {
        Ok(value) => value,
        Err(_) => rt.panic(message),
    }
}

/// A copy of a text.
pub(crate) fn held(rt: &impl Abort, alloc: Global, text: &str) -> String {
    String::from_str(alloc, text).expect(rt, "out of memory")
}

/// The identifier with this text.
pub(crate) fn name_of(rt: &impl Abort, alloc: Global, text: &str) -> Identifier
    ensures { result ≡ text.now }
{
    value_of(rt, named(alloc, text), "no identifier")
}

/// The id of these two words, a dialect and a name.
pub(crate) fn id_of(rt: &impl Abort, alloc: Global, words: (&str, &str)) -> OpId {
    value_of(rt, id(alloc, words), "no identifier")
}

/// The text of a value, which ends here.
pub(crate) fn to_text<X: fmt::Display + Drop>(rt: &impl Abort, alloc: Global, value: X) -> String {
    let text = format!(in alloc; "{value}").expect(rt, "out of memory");
    drop(value);
    text
}

/// The text of a result, which ends here: its value, or its error.
pub(crate) fn told<X: fmt::Display + Drop, A: Drop>(
    rt: &impl Abort,
    alloc: Global,
    answer: Answer<X, A>,
) -> String {
    let text = value_of(rt, printed(alloc, &answer), "out of memory");
    drop(answer);
    text
}

/// This word for a call that succeeded, or the cause of its error. The result ends here.
pub(crate) fn done<X: Drop, A: Drop>(
    rt: &impl Abort,
    alloc: Global,
    answer: Answer<X, A>,
    word: &str,
) -> String {
    let text = value_of(rt, done_or_cause(alloc, &answer, word), "out of memory");
    drop(answer);
    text
}

/// The text of the result of a parser, which ends here: its value, or its fault.
pub(crate) fn read<X: fmt::Display + Drop, A: Drop>(
    rt: &impl Abort,
    alloc: Global,
    answer: ParseResult<X, A>,
) -> String {
    value_of(rt, answers::told(alloc, answer), "out of memory")
}

/// Whether a call has succeeded. Its result ends here.
pub(crate) fn is_done<X: Drop, E: Drop>(answer: Result<X, E>) -> bool {
    let is_done = answer.is_ok();
    drop(answer);
    is_done
}

/// Ends the test if a text, which ends here, is not the expected one. A caller has no branch for it, as it has for an assertion of its own.
pub(crate) fn same(rt: &impl Abort, said: String, wanted: &str) {
    assert_eq!(rt; said.as_str(), wanted);
    drop(said);
}
