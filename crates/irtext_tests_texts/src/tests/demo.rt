//! The demo types and attributes, as they are parsed and printed.
use crate::tests::must::{must, same};
use irtext_base::parsable::{ParseResult, TextStream};
use irtext_base::text::IrText;
use irtext_demo::{DemoAttr, DemoType};
use irtext_tests_common::answers::result_text;
use std::alloc::Global;
use std::process::Abort;

/// Texts of types, and the printed text of the parsed type, or the fault.
const TYPES: &[(&str, &str)] = &[
    ("builtin.integer si64", "builtin.integer si64"),
    ("builtin.integer\n\tui008", "builtin.integer ui8"),
    ("builtin.integer i65535,", "builtin.integer i65535"),
    ("test.ptr", "test.ptr "),
    (
        "builtin.integer si65536",
        "line: 1, column: 19: Number out of range: 65536!",
    ),
    (
        "builtin.integer si0",
        "line: 1, column: 19: Number out of range: 0!",
    ),
    (
        "builtin.integer a",
        "line: 1, column: 17: Unexpected `a`, expected type!",
    ),
    (
        "builtin.integer si +8",
        "line: 1, column: 19: Unexpected ` `, expected digit!",
    ),
    (
        "builtin.some",
        "line: 1, column: 1: Unregistered type builtin.some!",
    ),
    ("?", "line: 1, column: 1: Unexpected `?`, expected type"),
];

/// Texts of attributes, and the printed text of the parsed attribute, or the fault.
const ATTRIBUTES: &[(&str, &str)] = &[
    (
        "builtin.integer <-9223372036854775808: si64>",
        "builtin.integer <-9223372036854775808: si64>",
    ),
    ("builtin.integer\n<+07 : i8 >x", "builtin.integer <7: i8>"),
    (
        "builtin.integer <9223372036854775808: si64>",
        "line: 1, column: 18: Number out of range: 9223372036854775808!",
    ),
    (
        "builtin.integer <1 i8>",
        "line: 1, column: 20: Unexpected `i`, expected `:`!",
    ),
    ("builtin.string\n\"a\\u{41}\"", "builtin.string \"aA\""),
    ("builtin.function <()->()>", "builtin.function <()->()>"),
    (
        "builtin.function < ( test.ptr , builtin.integer si8 ) -> (builtin.integer i01) >",
        "builtin.function <(test.ptr , builtin.integer si8)->(builtin.integer i1)>",
    ),
    (
        "builtin.function <(test.ptr,)->()>",
        "line: 1, column: 29: Unexpected `)`, expected type!",
    ),
    (
        "builtin.function <()>",
        "line: 1, column: 21: Unexpected `>`, expected `->`!",
    ),
    ("test.dbg \"\" x", "test.dbg \"\""),
    (
        "builtin.string a",
        "line: 1, column: 16: Unexpected `a`, expected `\"`!",
    ),
    (
        "test.dbg",
        "line: 1, column: 9: Unexpected end of input, expected `\"`!",
    ),
    (
        "builtin.some \"a\"",
        "line: 1, column: 1: Unregistered attribute builtin.some!",
    ),
];

/// The printed text of the value that is parsed, or the fault.
fn again<X: IrText<DemoAttr>, R: Abort>(rt: &R, alloc: Global, text: &str) -> String {
    let mut stream = TextStream::new(alloc, text).expect(rt, "out of memory");
    let answer = X::read(&mut stream);
    written(rt, alloc, &answer)
}

/// The text of a parsed value, or the fault.
fn written<X: IrText<DemoAttr>>(
    rt: &impl Abort,
    alloc: Global,
    answer: &ParseResult<X, DemoAttr>,
) -> String {
    match answer {
        Ok(value) => {
            let mut printed = String::new(alloc);
            value.write_text(&mut printed).expect(rt, "out of memory");
            printed
        }
        Err(fault) => must(rt, result_text(alloc, fault)),
    }
}

/// Checks the text of the value, or the fault, for each row of a table.
fn check<X: IrText<DemoAttr>, R: Abort>(rt: &R, alloc: Global, rows: &[(&str, &str)]) {
    for row in rows {
        same(rt, again::<X, R>(rt, alloc, row.0).as_str(), row.1);
    }
}

#[test]
fn types(rt: HostRuntime) {
    check::<DemoType, _>(&rt, rt.alloc(), TYPES);
}

#[test]
fn attributes(rt: HostRuntime) {
    check::<DemoAttr, _>(&rt, rt.alloc(), ATTRIBUTES);
}
