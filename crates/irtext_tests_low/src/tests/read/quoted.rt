//! Quoted texts and their parser.
use crate::tests::must::{must, same};
use irtext_base::parsable::TextStream;
use irtext_tests_common::answers::with_next;
use irtext_tokens::irfmt::parsers::quoted_string_parse;
use std::alloc::Global;
use std::process::Abort;

/// Texts, and the result for the quoted text that each begins with.
const QUOTED: &[(&str, &str)] = &[
    ("\"\\u{41}b\"", "Ab|None"),
    ("\"a\\\"b\\\\c\\nd\\te\\u{7f}\"", "a\"b\\c\nd\te\u{7f}|None"),
    (
        "\"\\u{110000}\"",
        "line: 1, column: 2: Invalid unicode escape \\u{110000}!",
    ),
    (
        "\"a\\u{d800}\"",
        "line: 1, column: 3: Invalid unicode escape \\u{d800}!",
    ),
    (
        "\"\\u{100000041}\"",
        "line: 1, column: 2: Invalid unicode escape \\u{100000041}!",
    ),
    (
        "\"\\u{}\"",
        "line: 1, column: 5: Unexpected `}`, expected hexadecimal digit!",
    ),
    (
        "\"\\q\"",
        "line: 1, column: 2: Unexpected escaped character \\q!",
    ),
    (
        "\"ab",
        "line: 1, column: 4: Unexpected end of input, expected `\"`!",
    ),
    (
        "\"é\n\u{1F600}\\q\"",
        "line: 2, column: 2: Unexpected escaped character \\q!",
    ),
    (
        "x",
        "line: 1, column: 1: Unexpected `x`, expected `\"`|Some('x')",
    ),
    ("\"\\'\" x", "'|Some(' ')"),
];

/// The result of `quoted_string_parse` for a text: the characters, or the fault, and the next character.
fn read(rt: &impl Abort, alloc: Global, text: &str) -> String {
    let mut stream = TextStream::new(alloc, text).expect(rt, "out of memory");
    let answer = quoted_string_parse::<TextStream, ()>(&mut stream);
    let said = must(rt, with_next(alloc, &answer, stream.peek()));
    drop(answer);
    drop(stream);
    said
}

#[test]
fn texts_in_quotation_marks(rt: HostRuntime) {
    for row in QUOTED {
        same(&rt, read(&rt, rt.alloc(), row.0), row.1);
    }
}
