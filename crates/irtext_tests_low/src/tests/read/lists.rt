//! Lists of items, with and without separators.
use crate::tests::must::{must, same};
use irtext_base::parsable::{CharStream, ParseResult, TextStream};
use irtext_tests_common::answers::listed;
use irtext_tokens::irfmt::parsers::{
    delimited_list_parser, int_parse, list_parser, list_with_sep_parser, zero_or_more_parser,
};
use irtext_tokens::irfmt::separator::ListSeparator;
use std::alloc::Global;
use std::process::Abort;

/// The parsers of lists.
#[derive(Clone, Copy)]
enum Reader {
    Commas,
    Brackets,
    Items,
    Empty,
    Spaces,
    Lines,
}

/// Texts, and the parsers that read each, one after the other, with the result for the list that comes next.
const LISTS: &[(&str, &[(Reader, &str)])] = &[
    (
        "1 , 2 ,3 x",
        &[(Reader::Commas, "[1, 2, 3], line: 1, column: 10: Some('x')")],
    ),
    ("", &[(Reader::Commas, "[], line: 1, column: 1: None")]),
    ("[ ]", &[(Reader::Brackets, "[], line: 1, column: 4: None")]),
    (
        "[\n1 ,\n2]",
        &[(Reader::Brackets, "[1, 2], line: 3, column: 3: None")],
    ),
    (
        "[1,]",
        &[(
            Reader::Brackets,
            "line: 1, column: 4: Unexpected `]`, expected digit!",
        )],
    ),
    (
        "[1\n2]",
        &[(
            Reader::Brackets,
            "line: 2, column: 1: Unexpected `2`, expected `]`!",
        )],
    ),
    (
        "x",
        &[(
            Reader::Brackets,
            "line: 1, column: 1: Unexpected `x`, expected `[`|Some('x')",
        )],
    ),
    (
        "[1 2]",
        &[(
            Reader::Brackets,
            "line: 1, column: 4: Unexpected `2`, expected `]`!",
        )],
    ),
    (
        "  1 2  3 x",
        &[(Reader::Items, "[1, 2, 3], line: 1, column: 10: Some('x')")],
    ),
    ("   ", &[(Reader::Items, "[], line: 1, column: 4: None")]),
    (
        " x",
        &[(
            Reader::Empty,
            "line: 1, column: 2: Repeated item reads nothing!",
        )],
    ),
    (
        "1, x",
        &[
            (
                Reader::Commas,
                "line: 1, column: 4: Unexpected `x`, expected digit!",
            ),
            (Reader::Commas, "line: 1, column: 4: The stream has failed!"),
        ],
    ),
    (
        "1 2",
        &[
            (
                Reader::Spaces,
                "line: 1, column: 1: List separator is white space|Some('1')",
            ),
            (Reader::Lines, "[1, 2], line: 1, column: 4: None"),
        ],
    ),
];

/// The result of a parser of lists.
fn items(stream: &mut TextStream, reader: Reader) -> ParseResult<Vec<i32>, ()> {
    match reader {
        Reader::Commas => list_parser(stream, ',', int_parse),
        Reader::Brackets => delimited_list_parser(stream, '[', ']', ',', int_parse),
        Reader::Items => zero_or_more_parser(stream, int_parse),
        Reader::Empty => zero_or_more_parser(stream, |_| Ok(0)),
        Reader::Spaces => list_with_sep_parser(stream, ListSeparator::Char(' '), int_parse),
        Reader::Lines => list_with_sep_parser(stream, ListSeparator::Newline, int_parse),
    }
}

/// The text of the result of a list's parser.
fn read(rt: &impl Abort, alloc: Global, stream: &mut TextStream, reader: Reader) -> String {
    let answer = items(stream, reader);
    let at = stream.locate(stream.position());
    let said = must(rt, listed(alloc, &answer, at, stream.peek()));
    drop(answer);
    said
}

/// Checks the results of parsers that read a text one after the other.
fn check(rt: &impl Abort, alloc: Global, text: &str, lists: &[(Reader, &str)]) {
    let mut stream = TextStream::new(alloc, text).expect(rt, "out of memory");
    for list in lists {
        same(rt, read(rt, alloc, &mut stream, list.0), list.1);
    }
    drop(stream);
}

#[test]
fn lists_of_a_text(rt: HostRuntime) {
    for row in LISTS {
        check(&rt, rt.alloc(), row.0, row.1);
    }
}
