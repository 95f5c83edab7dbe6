//! Items with white space around them, and the marker that may be in place of one.
use crate::tests::value::{same, value_of};
use irtext_base::parsable::{ParseResult, TextStream};
use irtext_demo::DemoAttr;
use irtext_parse_root::irfmt::outlined::outlined_marker_or;
use irtext_tests_common::answers::left;
use irtext_tokens::irfmt::parsers::{bool_parse, int_parse, spaced};
use std::alloc::Global;
use std::fmt;
use std::process::Abort;

/// The results for the items with white space around them in ` 7 x`, one after the other.
const SPACED: &[&str] = &[
    "7|Some('x')",
    "line: 1, column: 4: Unexpected `x`, expected digit|Some('x')",
];

/// A text, and the result for the boolean with white space around it that it begins with: the column counts every character.
const TRUTH: (&str, &str) = (
    "\r\n\u{2028}x",
    "line: 2, column: 2: Unexpected `x`, expected true or false!",
);

/// Texts, and the result for the item or the marker in its place.
const MARKED: &[(&str, &str)] = &[
    ("  !outlined x", "None|Some(' ')"),
    ("7", "Some(7)|None"),
    (
        "!outlin",
        "line: 1, column: 1: Unexpected `!`, expected digit|Some('!')",
    ),
];

/// The text of the result for an item, or for the marker in its place, which ends here, with the next character of the stream.
fn told<X: fmt::Debug + Drop>(
    rt: &impl Abort,
    alloc: Global,
    answer: ParseResult<X, DemoAttr>,
    next: Option<char>,
) -> String {
    let text = match &answer {
        Ok(found) => format!(in alloc; "{found:?}|{next:?}").expect(rt, "out of memory"),
        Err(fault) => value_of(rt, left(alloc, fault, next), "out of memory"),
    };
    drop(answer);
    text
}

/// What is parsed from a stream.
#[derive(Clone, Copy)]
enum Item {
    /// A number with white space around it.
    Number,
    /// A boolean with white space around it.
    Truth,
    /// A number or the marker in its place.
    Marked,
}

/// The result for an item.
fn parsed(rt: &impl Abort, alloc: Global, stream: &mut TextStream, item: Item) -> String {
    match item {
        Item::Number => {
            let answer: ParseResult<i32, DemoAttr> = spaced(stream, int_parse);
            told(rt, alloc, answer, stream.peek())
        }
        Item::Truth => {
            let answer: ParseResult<bool, DemoAttr> = spaced(stream, bool_parse);
            told(rt, alloc, answer, stream.peek())
        }
        Item::Marked => {
            let answer: ParseResult<Option<i32>, DemoAttr> = outlined_marker_or(stream, int_parse);
            told(rt, alloc, answer, stream.peek())
        }
    }
}

/// Checks the results for an item that is parsed again and again from a text.
fn check(rt: &impl Abort, alloc: Global, text: &str, item: Item, wanted: &[&str]) {
    let mut stream = TextStream::new(alloc, text).expect(rt, "out of memory");
    for wanted in wanted {
        same(rt, parsed(rt, alloc, &mut stream, item), *wanted);
    }
    drop(stream);
}

#[test]
fn items_and_the_marker(rt: HostRuntime) {
    check(&rt, rt.alloc(), " 7 x", Item::Number, SPACED);
    check(&rt, rt.alloc(), TRUTH.0, Item::Truth, &[TRUTH.1]);
    for row in MARKED {
        check(&rt, rt.alloc(), row.0, Item::Marked, &[row.1]);
    }
}
