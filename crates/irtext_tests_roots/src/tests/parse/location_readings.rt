//! Locations of each kind and their parser, and the errors of other texts.
use crate::tests::checks::{Check, alone};
use crate::tests::value::{is_done, same};
use irtext_base::location::{Location, Source};
use irtext_base::result::Result as Answer;
use irtext_demo::DemoAttr;
use irtext_parse_root::parsable::{Parsable, SourcePosition, parse_from_str};
use irtext_print_ir::printable::Disp;
use irtext_tests_common::contexts::Ctx;
use irtext_tests_common::nesting::between;
use std::alloc::Global;
use std::process::Abort;

/// Texts of locations, which are printed unchanged.
const SAME: &[&str] = &[
    "?",
    "<in-memory>: line: 1, column: 2",
    "\"foo.mlir\": line: 42, column: 7",
    "\"a\\\"b\\\\c.mlir\": line: 1, column: 1",
    "name: \"foo\", loc: (?)",
    "name: \"a\\\"b\\\\c\\nd\\te\\u{7f}\", loc: (?)",
    "fused[]",
    "fused[<in-memory>: line: 3, column: 4, ?]",
    "fused<builtin.string \"testattr\">[?]",
    "callsite(? at ?)",
    "callsite(\"b\": line: -1, column: 2 at fused[name: \"n\", loc: (\"c\": line: 1, column: 2), ?])",
];

/// Texts, and the printed text of the location that each begins with, or the error.
const OTHERS: &[(&str, &str)] = &[
    (
        "fused < builtin.string \"s\" >[ ? , ? ]",
        "fused<builtin.string \"s\">[?, ?]",
    ),
    ("callsite ( ?\n at ? ) x", "callsite(? at ?)"),
    (
        "fused<builtin.string \"s\"> [?]",
        "Parse error at line: 1, column: 26\nUnexpected ` `, expected `[`\n",
    ),
    (
        "name: \"foo\", loc: ( ?)",
        "Parse error at line: 1, column: 20\nUnexpected ` `, expected location\n",
    ),
    (
        "fused[?,]",
        "Parse error at line: 1, column: 9\nUnexpected `]`, expected location\n",
    ),
    (
        "<in-memory>: line: 2147483648, column: 1",
        "Parse error at line: 1, column: 20\nNumber out of range: 2147483648\n",
    ),
    (
        "x",
        "Parse error at line: 1, column: 1\nUnexpected `x`, expected location\n",
    ),
];

/// How many times the text before and after a location is repeated in a text: four times as many locations nest.
const DEPTH: usize = 25_000;

/// The text before a location in four others, one of each kind.
const FRONT: &str = "name: \"a\", loc: (callsite(callsite(? at fused[?, ";

/// The text after it.
const BACK: &str = ", <in-memory>: line: 1, column: 1]) at ?))";

/// The printed text of a location.
fn printed(rt: &impl Abort, alloc: Global, ctx: &Ctx, location: &Location<DemoAttr>) -> String {
    format!(in alloc; "{}", location.disp(ctx)).expect(rt, "out of memory")
}

/// The printed text of a location, or the cause of an error. The result ends here.
fn told(
    rt: &impl Abort,
    alloc: Global,
    ctx: &Ctx,
    answer: Answer<Location<DemoAttr>, DemoAttr>,
) -> String {
    let text = match &answer {
        Ok(location) => printed(rt, alloc, ctx, location),
        Err(error) => format!(in alloc; "{}", error.err).expect(rt, "out of memory"),
    };
    drop(answer);
    text
}

/// The location that a text is parsed as.
fn location(ctx: &mut Ctx, text: &str) -> Answer<Location<DemoAttr>, DemoAttr> {
    parse_from_str(|s| Location::parse(s, ()), ctx, text)
}

/// Checks the printed text of the location that a text is parsed as, or the error.
pub(crate) fn check(rt: &impl Abort, alloc: Global, ctx: &mut Ctx, text: &str, wanted: &str) {
    let answer = location(ctx, text);
    same(rt, told(rt, alloc, ctx, answer), wanted);
}

#[test]
fn locations_of_a_text(rt: HostRuntime) {
    for text in SAME {
        alone(&rt, rt.alloc(), Check::Location(text, text));
    }
}

/// Checks whether a text is parsed as a location.
pub(crate) fn check_read(rt: &impl Abort, ctx: &mut Ctx, text: &str, wanted: bool) {
    assert!(rt; is_done(location(ctx, text)) == wanted);
}

#[test]
fn locations_deep_in_one_another(rt: HostRuntime) {
    let text = between(rt.alloc(), DEPTH, FRONT, "?", BACK).expect(&rt, "out of memory");
    alone(&rt, rt.alloc(), Check::IsLocation(text.as_str(), true));
    drop(text);
}

#[test]
fn a_fault_deep_in_locations(rt: HostRuntime) {
    let text = between(rt.alloc(), DEPTH, FRONT, "x", "").expect(&rt, "out of memory");
    alone(&rt, rt.alloc(), Check::IsLocation(text.as_str(), false));
    drop(text);
}

#[test]
fn white_space_and_faults_in_locations(rt: HostRuntime) {
    for row in OTHERS {
        alone(&rt, rt.alloc(), Check::Location(row.0, row.1));
    }
}

/// A file's name, and the printed text of its first place.
const FILE: (&str, &str) = ("a\"b\\c.mlir", "\"a\\\"b\\\\c.mlir\": line: 1, column: 1");

/// Whether this is the location that was parsed. The result ends here.
fn is_location(answer: Answer<Location<DemoAttr>, DemoAttr>, wanted: &Location<DemoAttr>) -> bool {
    let is_location = match &answer {
        Ok(location) => *location == *wanted,
        Err(_) => false,
    };
    drop(answer);
    is_location
}

/// Checks that the first place of the file has this text, and is parsed back.
pub(crate) fn check_file(rt: &impl Abort, alloc: Global, ctx: &mut Ctx) {
    let src = Source::new_from_file(ctx, FILE.0).expect(rt, "refused");
    let pos = SourcePosition { line: 1, column: 1 };
    let place = Location::SrcPos { src, pos };
    let answer = location(ctx, FILE.1);
    same(rt, printed(rt, alloc, ctx, &place), FILE.1);
    assert!(rt; is_location(answer, &place));
    drop(place);
}

#[test]
fn a_file_with_quotation_marks_in_its_name(rt: HostRuntime) {
    alone(&rt, rt.alloc(), Check::File);
}

/// The source that a text is parsed as.
fn source(ctx: &mut Ctx, text: &str) -> Option<Source> {
    parse_from_str(|s| Source::parse(s, ()), ctx, text).ok()
}

/// The position that a text is parsed as.
fn position(ctx: &mut Ctx, text: &str) -> Option<SourcePosition> {
    parse_from_str(|s| SourcePosition::parse(s, ()), ctx, text).ok()
}

/// The printed texts of a source and a position.
fn shown(
    rt: &impl Abort,
    alloc: Global,
    ctx: &Ctx,
    source: &Source,
    position: &SourcePosition,
) -> String {
    format!(in alloc; "{} {}", source.disp(ctx), position.disp(ctx)).expect(rt, "out of memory")
}

/// Texts of a source and a position, and the printed texts of what they are parsed as.
const PLACES: &[(&str, &str, &str)] = &[("\"b\"", "line : 3,column:4", "\"b\" line: 3, column: 4")];

/// Checks that sources and positions are parsed and printed so.
pub(crate) fn check_places(rt: &impl Abort, alloc: Global, ctx: &mut Ctx) {
    for row in PLACES {
        let source = source(ctx, row.0).expect(rt, "no source");
        let position = position(ctx, row.1).expect(rt, "no position");
        same(rt, shown(rt, alloc, ctx, &source, &position), row.2);
    }
}

#[test]
fn sources_and_positions_of_a_text(rt: HostRuntime) {
    alone(&rt, rt.alloc(), Check::Places);
}
