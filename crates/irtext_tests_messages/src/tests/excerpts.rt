//! Excerpts of texts: the line of a position, with a caret below it.
use crate::tests::must::prints;
use irtext_base::parsable::SourcePosition;
use irtext_excerpt::{Excerpt, Shown, ShownLines};

/// Texts with a line and a column, and the excerpt there.
const EXCERPTS: &[(&str, i32, i32, &str)] = &[
    ("", 1, 1, "\n^"),
    ("", 5, 7, "\n^"),
    ("abc\ndef\nghi", 1, 2, "abc\n ^"),
    ("abc\ndef\nghi", 2, 1, "def\n^"),
    ("abc\ndef\nghi", 3, 4, "ghi\n   ^"),
    ("abc\ndef\nghi", 3, 9, "ghi\n   ^"),
    ("abc\ndef\nghi", 4, 1, "ghi\n   ^"),
    ("abc\ndef\n", 3, 1, "\n^"),
    ("abc\ndef\n", i32::MAX, i32::MIN, "\n^"),
    ("abc\ndef", 0, -1, "abc\n^"),
    ("abc\r\ndef\r\n", 1, 9, "abc\n   ^"),
    ("abc\r\ndef\r", 5, 1, "def\n   ^"),
    ("a\rb", 1, 3, "aU+000Db\n       ^"),
    ("\tab\tc", 1, 5, " ab c\n    ^"),
    ("\u{feff}ab", 1, 2, "U+FEFFab\n      ^"),
    (
        "a\u{1}\u{7f}\u{ad}\u{200b}\u{202e}\u{2066}b",
        1,
        8,
        "aU+0001U+007FU+00ADU+200BU+202EU+2066b\n                                     ^",
    ),
    ("äöü€𝔸x", 1, 6, "äöü€𝔸x\n     ^"),
    ("ä\n𝔸€\nx", 2, 2, "𝔸€\n ^"),
    // Wide characters take two columns.
    ("漢字 = x", 1, 1, "漢字 = x\n^"),
    ("漢字 = x", 1, 2, "漢字 = x\n  ^"),
    ("漢字 = x", 1, 4, "漢字 = x\n     ^"),
    ("ｆｕｌｌ;", 1, 5, "ｆｕｌｌ;\n        ^"),
    ("ﾊﾝ;", 1, 3, "ﾊﾝ;\n  ^"),
    // A mark takes none, and stands with the character before it.
    ("e\u{301}a", 1, 2, "e\u{301}a\n ^"),
    ("e\u{301}a", 1, 3, "e\u{301}a\n ^"),
    ("e\u{301}\u{325}a", 1, 4, "e\u{301}\u{325}a\n ^"),
    // A joiner is shown by its code, so what it joins is shown in parts.
    ("👩\u{200d}💻x", 1, 2, "👩U+200D💻x\n  ^"),
    ("👩\u{200d}💻x", 1, 4, "👩U+200D💻x\n          ^"),
    ("🇩🇪x", 1, 3, "🇩🇪x\n  ^"),
    ("\t漢\t;", 1, 4, " 漢 ;\n    ^"),
    ("\u{feff}漢;", 1, 3, "U+FEFF漢;\n        ^"),
];

/// The excerpt of a text at a line and a column.
fn excerpt(text: &str, line: i32, column: i32) -> Excerpt<'_> {
    Excerpt {
        text,
        position: SourcePosition { line, column },
    }
}

#[test]
fn lines_with_carets(rt: HostRuntime) {
    for row in EXCERPTS {
        prints(&rt, rt.alloc(), excerpt(row.0, row.1, row.2), row.3);
    }
}

/// A line of 130 characters.
const LONG: &str =
    "0123456789012345678901234567890123456789012345678901234567890123456789012345678901234567890123456789\
    012345678901234567890123456789";

/// Columns, and the excerpt of that line there: cut on the right, not on the left yet, on both sides, and on the left.
const CUT: &[(i32, &str)] = &[
    (
        1,
        "012345678901234567890123456789012345678901234567890123456789..\n^",
    ),
    (
        61,
        "0123456789012345678901234567890123456789012345678901234567890123456789012345678901234567890123456789\
        01234567890123456789..\n                                                            ^",
    ),
    (
        62,
        "..1234567890123456789012345678901234567890123456789012345678901234567890123456789012345678901234567890\
        12345678901234567890..\n                                                              ^",
    ),
    (
        71,
        "..0123456789012345678901234567890123456789012345678901234567890123456789012345678901234567890123456789\
        01234567890123456789\n                                                              ^",
    ),
    (
        131,
        "..012345678901234567890123456789012345678901234567890123456789\n                                                              ^",
    ),
];

#[test]
fn long_lines_are_cut(rt: HostRuntime) {
    for row in CUT {
        prints(&rt, rt.alloc(), excerpt(LONG, 1, row.0), row.1);
    }
}

/// Lines of wide characters, of codes and of marks, which are cut at 60 columns before they have 60 characters, and the excerpt at a column.
const CUT_AT_COLUMNS: &[(&str, i32, &str)] = &[
    (
        "漢漢漢漢漢漢漢漢漢漢漢漢漢漢漢漢漢漢漢漢漢漢漢漢漢漢漢漢漢漢x漢漢漢漢漢漢漢漢漢漢漢漢漢漢漢漢漢漢漢漢漢漢漢漢漢漢漢漢漢漢",
        31,
        "漢漢漢漢漢漢漢漢漢漢漢漢漢漢漢漢漢漢漢漢漢漢漢漢漢漢漢漢漢漢x漢漢漢漢漢漢漢漢漢漢漢漢漢漢漢漢漢漢漢漢漢漢漢漢漢漢漢漢漢..\n                                                            ^",
    ),
    (
        "漢漢漢漢漢漢漢漢漢漢漢漢漢漢漢漢漢漢漢漢漢漢漢漢漢漢漢漢漢漢x=",
        32,
        "..漢漢漢漢漢漢漢漢漢漢漢漢漢漢漢漢漢漢漢漢漢漢漢漢漢漢漢漢漢x=\n                                                             ^",
    ),
    (
        "\u{1}\u{1}\u{1}\u{1}\u{1}\u{1}\u{1}\u{1}\u{1}\u{1}\u{1}=",
        12,
        "..U+0001U+0001U+0001U+0001U+0001U+0001U+0001U+0001U+0001U+0001=\n                                                              ^",
    ),
];

#[test]
fn wide_lines_are_cut(rt: HostRuntime) {
    for row in CUT_AT_COLUMNS {
        prints(&rt, rt.alloc(), excerpt(row.0, 1, row.1), row.2);
    }
}

/// Texts, and what is shown of them in one line and in several.
const SHOWN: &[(&str, &str, &str)] = &[
    ("", "", ""),
    ("a\tb\u{7}", "a bU+0007", "a bU+0007"),
    ("a\r\nb\n", "aU+000DU+000AbU+000A", "aU+000D\nb\n"),
    ("\u{1b}[31m漢", "U+001B[31m漢", "U+001B[31m漢"),
];

#[test]
fn texts_are_shown(rt: HostRuntime) {
    for row in SHOWN {
        prints(&rt, rt.alloc(), Shown { text: row.0 }, row.1);
        prints(&rt, rt.alloc(), ShownLines { text: row.0 }, row.2);
    }
}
