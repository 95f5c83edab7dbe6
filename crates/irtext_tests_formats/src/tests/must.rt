//! What every step of these tests needs: a call that fails ends the test.
use std::process::Abort;
use std::test::Fail;

/// The value of a call that has to succeed. A failed one ends the test, and drops nothing of what it owns.
pub(crate) fn must<X>(rt: &impl Abort, answer: Result<X, Fail>) -> X {
    match answer {
        Ok(value) => value,
        Err(_) => rt.panic("a call has failed"),
    }
}

/// Ends the test if a text is not the expected one. A caller has no branch for it, as it has for an assertion of its own.
pub(crate) fn same(rt: &impl Abort, said: &str, wanted: &str) {
    assert_eq!(rt; said, wanted);
}
