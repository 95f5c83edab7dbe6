//! The notation of formats: which texts denote which formats, how formats are printed, and where a wrong text is rejected.
use crate::tests::must::{must, same};
use irtext_base::format::OpFormat;
use irtext_tests_common::formats::format_of;
use std::alloc::Global;
use std::process::Abort;

/// Texts with the letters of the directives that they denote, and the text that is printed for these.
const DENOTED: &[(&str, &str, &str)] = &[
    ("", "", ""),
    (" \n", "", ""),
    ("$0", "0", "$0"),
    ("operands", "O", "operands"),
    ("^0successors", "sS", "^0 successors"),
];

/// Texts that are no notations, and where and why.
const REFUSED: &[(&str, &str)] = &[
    ("operand", "line: 1, column: 1: expected a directive"),
    ("$0 @nam", "line: 1, column: 4: expected a directive"),
    ("$0\n $", "line: 2, column: 3: expected a key or an index"),
    ("$+1", "line: 1, column: 2: expected a key or an index"),
    ("^x", "line: 1, column: 2: expected an index"),
    (
        "^18446744073709551616",
        "line: 1, column: 2: expected an index",
    ),
    ("type($0", "line: 1, column: 8: expected `)`"),
    ("type($k)", "line: 1, column: 7: expected an index"),
    ("{0 }", "line: 1, column: 3: expected `}`"),
    ("``", "line: 1, column: 2: expected a printable character"),
    ("`a b`", "line: 1, column: 3: expected a backquote"),
    ("`é`", "line: 1, column: 2: expected a backquote"),
    ("`a``", "line: 1, column: 5: expected a backquote"),
    ("canonical $0", "line: 1, column: 11: expected the end"),
    ("$0 canonical", "line: 1, column: 4: expected a directive"),
];

/// The notation that is printed for the format of a text, or the error.
fn printed(rt: &impl Abort, alloc: Global, text: &str) -> String {
    let printed = match OpFormat::parse(alloc, text) {
        Ok(format) => format!(in alloc; "{format}"),
        Err(fault) => format!(in alloc; "{fault}"),
    };
    printed.expect(rt, "out of memory")
}

/// The notation of the format of these letters.
fn of_letters(rt: &impl Abort, alloc: Global, letters: &str) -> String {
    let format = must(rt, format_of(alloc, letters));
    format!(in alloc; "{format}").expect(rt, "out of memory")
}

#[test]
fn notations_denote_formats(rt: HostRuntime) {
    for row in DENOTED {
        same(&rt, printed(&rt, rt.alloc(), row.0).as_str(), row.2);
        same(&rt, of_letters(&rt, rt.alloc(), row.1).as_str(), row.2);
    }
}

/// Notations that are printed as they are.
const KEPT: &[&str] = &[
    "@name `to` $my_to `with` {0}",
    "canonical",
    "$0 operands ^0 successors $k attr_dict type($0) {0} regions @name",
    "`a``b` ```` `->` ``````",
    "$18446744073709551615 ^10 $_9",
];

#[test]
fn printed_notations_are_kept(rt: HostRuntime) {
    for text in KEPT {
        same(&rt, printed(&rt, rt.alloc(), text).as_str(), *text);
    }
}

#[test]
fn wrong_notations_are_refused(rt: HostRuntime) {
    for row in REFUSED {
        same(&rt, printed(&rt, rt.alloc(), row.0).as_str(), row.1);
    }
}
