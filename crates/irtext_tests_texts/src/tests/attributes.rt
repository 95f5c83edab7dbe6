//! Attributes and types as they are parsed and printed.
use crate::tests::must::{must, same};
use irtext_base::base::AttrObj;
use irtext_base::parsable::{CharStream, ParseResult};
use irtext_demo::DemoAttr;
use irtext_parse_state::irfmt::parsers::type_parse;
use irtext_print_ir::printable::Disp;
use irtext_tests_common::answers::{left, with_next};
use irtext_tests_common::contexts::{Ctx, Stream, in_context};
use irtext_tokens::irfmt::parsers::attr_parse;
use std::alloc::Global;
use std::test::Fail;

/// Texts, and the result for the attribute that each begins with.
const ATTRIBUTES: &[(&str, &str)] = &[
    (
        "builtin.given_names [a, ?]",
        "builtin.given_names [a, ?]|None",
    ),
    (
        "builtin.given_names[ a ,?\n, b1 ] x",
        "builtin.given_names [a, ?, b1]|Some(' ')",
    ),
    ("builtin.given_names []", "builtin.given_names []|None"),
    (
        "builtin.given_names [a,]",
        "line: 1, column: 24: Unexpected `]`, expected identifier!",
    ),
    (
        "builtin.given_names [a b]",
        "line: 1, column: 24: Unexpected `b`, expected `]`!",
    ),
    (
        "builtin.given_names a",
        "line: 1, column: 21: Unexpected `a`, expected `[`!",
    ),
    (
        "builtin.identifier  entry;",
        "builtin.identifier entry|Some(';')",
    ),
    (
        "builtin.identifier\n1",
        "line: 2, column: 1: Unexpected `1`, expected identifier!",
    ),
    (
        "builtin.identifierx",
        "line: 1, column: 1: Unregistered attribute builtin.identifierx!",
    ),
    (
        "builtin.identifier.x a",
        "line: 1, column: 1: Unregistered attribute builtin.identifier.x!",
    ),
    ("builtin.string \"a\" x", "builtin.string \"a\"|Some(' ')"),
    (
        "1",
        "line: 1, column: 1: Unexpected `1`, expected attribute|Some('1')",
    ),
];

/// Texts, and the result for the type that each begins with.
const TYPES: &[(&str, &str)] = &[
    ("test.ptr x", "test.ptr |Some(' ')"),
    (
        "",
        "line: 1, column: 1: Unexpected end of input, expected type|None",
    ),
];

/// The text of an attribute that was parsed, or the fault, and the next character.
fn printed(
    alloc: Global,
    ctx: &Ctx,
    answer: &ParseResult<AttrObj<DemoAttr>, DemoAttr>,
    next: Option<char>,
) -> Result<String, Fail> {
    match answer {
        Ok(attr) => Ok(format!(in alloc; "{}|{next:?}", attr.disp(ctx))?),
        Err(fault) => left(alloc, fault, next),
    }
}

/// The result for the attribute that is parsed.
fn attribute(alloc: Global, s: &mut Stream<'_>) -> Result<String, Fail> {
    let answer = attr_parse(s);
    let next = s.peek();
    let ctx = &mut *s.state.ctx;
    printed(alloc, ctx, &answer, next)
}

/// The result for the type that is parsed.
fn type_of(alloc: Global, s: &mut Stream<'_>) -> Result<String, Fail> {
    let answer = type_parse(s);
    let next = s.peek();
    with_next(alloc, &answer, next)
}

#[test]
fn attributes_of_a_text(rt: HostRuntime) {
    for row in ATTRIBUTES {
        let said = must(&rt, in_context(rt.alloc(), row.0, attribute));
        same(&rt, said.as_str(), row.1);
    }
}

#[test]
fn types_of_a_text(rt: HostRuntime) {
    for row in TYPES {
        let said = must(&rt, in_context(rt.alloc(), row.0, type_of));
        same(&rt, said.as_str(), row.1);
    }
}
