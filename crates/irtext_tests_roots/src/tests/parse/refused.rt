//! A text that is no root, because its id is not registered.
use crate::tests::checks::{Check, alone};
use crate::tests::reading::read_root;
use crate::tests::value::{done, same};
use irtext_tests_common::contexts::Ctx;
use std::alloc::Global;
use std::process::Abort;

/// A text, and the error for the root.
const UNREGISTERED: (&str, &str) = (
    "  tests.nop",
    "Parse error at line: 1, column: 3\nUnregistered dialect tests\n",
);

/// Checks the result for a root.
pub(crate) fn check(rt: &impl Abort, alloc: Global, ctx: &mut Ctx) {
    let answer = read_root(ctx, UNREGISTERED.0);
    same(rt, done(rt, alloc, answer, "read"), UNREGISTERED.1);
}

#[test]
fn an_id_that_is_not_registered(rt: HostRuntime) {
    alone(&rt, rt.alloc(), Check::Refused);
}
