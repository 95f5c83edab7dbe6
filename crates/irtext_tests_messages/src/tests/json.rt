//! Messages as lines of JSON.
use crate::tests::must::prints;
use irtext_base::parsable::SourcePosition;
use irtext_diagnostics::{Diagnostic, JsonLine, Severity};
use irtext_excerpt::Excerpt;

/// A message about a text at line 2.
fn message<'a>(severity: Severity, column: i32, message: &'a str) -> Diagnostic<'a> {
    Diagnostic {
        severity,
        path: "loop.ir",
        place: Some(Excerpt {
            text: "a\nb",
            position: SourcePosition { line: 2, column },
        }),
        message,
    }
}

/// A line about a name that is not defined.
fn line<'a>(name: Option<&'a str>, notes: &'a [Diagnostic<'a>]) -> JsonLine<'a> {
    let diagnostic = message(Severity::Error, 1, "x is not defined\n");
    JsonLine {
        diagnostic,
        cause: "unresolved-reference",
        name,
        notes,
    }
}

#[test]
fn lines_with_notes(rt: HostRuntime) {
    let notes = [
        message(Severity::Note, 3, "used here\n"),
        message(Severity::Note, 7, "and here"),
    ];
    prints(
        &rt,
        rt.alloc(),
        line(Some("x"), &notes),
        "{\"file\":\"loop.ir\",\"line\":2,\"column\":1,\"severity\":\"error\",\"cause\":\"unresolved-reference\",\
        \"message\":\"x is not defined\",\"name\":\"x\",\"notes\":[\
        {\"file\":\"loop.ir\",\"line\":2,\"column\":3,\"severity\":\"note\",\"message\":\"used here\"},\
        {\"file\":\"loop.ir\",\"line\":2,\"column\":7,\"severity\":\"note\",\"message\":\"and here\"}]}\n",
    );
}

#[test]
fn lines_without_a_name(rt: HostRuntime) {
    let notes = [message(Severity::Note, 3, "used here\n")];
    prints(
        &rt,
        rt.alloc(),
        line(None, &notes),
        "{\"file\":\"loop.ir\",\"line\":2,\"column\":1,\"severity\":\"error\",\"cause\":\"unresolved-reference\",\
        \"message\":\"x is not defined\",\"notes\":[\
        {\"file\":\"loop.ir\",\"line\":2,\"column\":3,\"severity\":\"note\",\"message\":\"used here\"}]}\n",
    );
}

/// A line without a place, a name and notes.
fn bare<'a>(message: &'a str) -> JsonLine<'a> {
    let diagnostic = Diagnostic {
        severity: Severity::Warning,
        path: "a\\b",
        place: None,
        message,
    };
    JsonLine {
        diagnostic,
        cause: "message",
        name: None,
        notes: &[],
    }
}

/// Texts, and the line in which each is the message.
const TEXTS: &[(&str, &str)] = &[
    (
        "",
        "{\"file\":\"a\\\\b\",\"severity\":\"warning\",\"cause\":\"message\",\"message\":\"\",\"notes\":[]}\n",
    ),
    (
        "say \"no\" \\ {x}",
        "{\"file\":\"a\\\\b\",\"severity\":\"warning\",\"cause\":\"message\",\"message\":\"say \\\"no\\\" \\\\ {x}\",\"notes\":[]}\n",
    ),
    (
        "two\nlines\n",
        "{\"file\":\"a\\\\b\",\"severity\":\"warning\",\"cause\":\"message\",\"message\":\"two\\nlines\",\"notes\":[]}\n",
    ),
    (
        "\u{1b}[1m\t\r",
        "{\"file\":\"a\\\\b\",\"severity\":\"warning\",\"cause\":\"message\",\"message\":\"\\u001B[1m\\u0009\\u000D\",\"notes\":[]}\n",
    ),
    (
        "漢\u{200d}\u{feff}\u{7f}",
        "{\"file\":\"a\\\\b\",\"severity\":\"warning\",\"cause\":\"message\",\"message\":\"漢\\u200D\\uFEFF\\u007F\",\"notes\":[]}\n",
    ),
];

#[test]
fn texts_are_escaped(rt: HostRuntime) {
    for row in TEXTS {
        prints(&rt, rt.alloc(), bare(row.0), row.1);
    }
}
