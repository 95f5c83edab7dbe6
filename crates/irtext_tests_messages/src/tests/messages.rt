//! Messages as a terminal shows them.
use crate::tests::must::prints;
use irtext_base::parsable::SourcePosition;
use irtext_diagnostics::{Diagnostic, Severity, Style};
use irtext_excerpt::Excerpt;

/// A message about a text at a line and a column.
fn message<'a>(
    severity: Severity,
    text: &'a str,
    place: (i32, i32),
    message: &'a str,
) -> Diagnostic<'a> {
    let (line, column) = place;
    Diagnostic {
        severity,
        path: "loop.ir",
        place: Some(Excerpt {
            text,
            position: SourcePosition { line, column },
        }),
        message,
    }
}

/// A message without a place.
fn placeless<'a>(path: &'a str, message: &'a str) -> Diagnostic<'a> {
    Diagnostic {
        severity: Severity::Error,
        path,
        place: None,
        message,
    }
}

/// Severities, texts, positions in them and messages, and what is written.
const PLAIN: &[(Severity, &str, (i32, i32), &str, &str)] = &[
    (
        Severity::Error,
        "{\n  test.use x\n}",
        (2, 12),
        "Identifier x was not resolved",
        "loop.ir:2:12: error: Identifier x was not resolved\n  test.use x\n           ^\n",
    ),
    (
        Severity::Note,
        "{\n  test.use x\n}",
        (1, 1),
        "used here\n",
        "loop.ir:1:1: note: used here\n{\n^\n",
    ),
    (
        Severity::Warning,
        "",
        (1, 1),
        "two\nlines\n\n",
        "loop.ir:1:1: warning: two\nlines\n\n\n^\n",
    ),
    (
        Severity::Error,
        "漢!",
        (1, 2),
        "bell \u{7} and tab\t",
        "loop.ir:1:2: error: bell U+0007 and tab \n漢!\n  ^\n",
    ),
];

#[test]
fn plain_messages(rt: HostRuntime) {
    for row in PLAIN {
        let diagnostic = message(row.0, row.1, row.2, row.3);
        prints(&rt, rt.alloc(), diagnostic.styled(Style::Plain), row.4);
    }
}

/// Severities, and a message of each in colours.
const COLOURED: &[(Severity, &str)] = &[
    (
        Severity::Error,
        "\u{1b}[1mloop.ir:1:2:\u{1b}[0m \u{1b}[1;31merror:\u{1b}[0m no\nab\n \u{1b}[1;32m^\u{1b}[0m\n",
    ),
    (
        Severity::Warning,
        "\u{1b}[1mloop.ir:1:2:\u{1b}[0m \u{1b}[1;35mwarning:\u{1b}[0m no\nab\n \u{1b}[1;32m^\u{1b}[0m\n",
    ),
    (
        Severity::Note,
        "\u{1b}[1mloop.ir:1:2:\u{1b}[0m \u{1b}[1;36mnote:\u{1b}[0m no\nab\n \u{1b}[1;32m^\u{1b}[0m\n",
    ),
];

#[test]
fn coloured_messages(rt: HostRuntime) {
    for row in COLOURED {
        let diagnostic = message(row.0, "ab", (1, 2), "no");
        prints(&rt, rt.alloc(), diagnostic.styled(Style::Coloured), row.1);
    }
}

#[test]
fn messages_without_a_place(rt: HostRuntime) {
    let missing = placeless("a\nb\u{1b}.ir", "No such file");
    prints(
        &rt,
        rt.alloc(),
        missing.styled(Style::Plain),
        "aU+000AbU+001B.ir: error: No such file\n",
    );
    prints(
        &rt,
        rt.alloc(),
        missing.styled(Style::Coloured),
        "\u{1b}[1maU+000AbU+001B.ir:\u{1b}[0m \u{1b}[1;31merror:\u{1b}[0m No such file\n",
    );
}
