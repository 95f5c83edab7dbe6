//! What every test here needs: a text that is printed, and its comparison.
use std::alloc::Global;
use std::fmt;
use std::process::Abort;

/// Ends the test if a value is not printed as expected.
pub(crate) fn prints<D: fmt::Display + Drop>(
    rt: &impl Abort,
    alloc: Global,
    value: D,
    wanted: &str,
) {
    let said = format!(in alloc; "{value}").expect(rt, "out of memory");
    assert_eq!(rt; said.as_str(), wanted);
}
