//! The stream over a text, places, faults and tokens.
use crate::tests::must::{must, same};
use irtext_base::parsable::{
    CharStream, ParseFault, ParseResult, Place, SourcePosition, TextStream,
};
use irtext_base::result::{Cause, Expected};
use irtext_tests_common::answers::{result_text, said, said_next};
use irtext_tokens::irfmt::demanded::spaced_text_demanded;
use irtext_tokens::irfmt::faults::{
    begins, commit, committed, fail_at, next_is, pass, refuse, refuse_at, unexpected,
};
use irtext_tokens::irfmt::parsers::{
    Class, id_parse, identifier_parse, skip_class, skip_white_space, text_parse,
};
use std::alloc::Global;
use std::process::Abort;

/// The results for the words and fixed texts of ` \t_a1 builtin.module ->x`, one after the other.
const WORDS: &[&str] = &[
    "_a1",
    "builtin.module",
    "read",
    "line: 1, column: 24: Unexpected `x`, expected `a text of more than 24 bytes`",
    "line: 1, column: 25: Unexpected end of input, expected `xy`!",
    "line: 1, column: 25: The stream has failed!",
];

/// The texts of faults after `a` in `ab`, and whether the stream has failed then.
const FAULTS: &[&str] = &[
    "line: 1, column: 2: Unexpected escaped character \\q false",
    "line: 1, column: 2: Unexpected `b`, expected digit! true",
    "line: 1, column: 2: No operation or block found for outline index: 3! true",
    "line: 1, column: 1: Duplicate outline index: 3! true",
    "line: 7, column: 9: No PrintOnceAttr found for outline index: 3! true",
];

/// Texts, whether the stream had failed, and then: whether white space and `->` are skipped, the position of the stream, and whether it
/// has failed.
const ACCEPTED: &[(&str, bool, &str)] = &[
    ("->x", false, "true line: 1, column: 3 false"),
    (
        " \u{2028}\u{3000}->x",
        false,
        "true line: 1, column: 6 false",
    ),
    ("\n \u{3000}->", false, "true line: 2, column: 5 false"),
    ("\u{3000}->x", true, "true line: 1, column: 4 true"),
    (" \u{3000}-", false, "false line: 1, column: 1 false"),
    ("\u{2028}- >", false, "false line: 1, column: 1 false"),
    ("\u{3000}x->", false, "false line: 1, column: 1 false"),
    ("\u{2028}", true, "false line: 1, column: 1 true"),
    ("", false, "false line: 1, column: 1 false"),
];

/// Texts, whether the stream had failed, and the result for an expected `->` with white space around it.
const ARROWS: &[(&str, bool, &str)] = &[
    ("->x", false, "line: 1, column: 3"),
    ("\u{2028} ->\u{3000}\n x", false, "line: 2, column: 2"),
    ("\u{3000}->", false, "line: 1, column: 4"),
    (
        "\u{3000}->",
        true,
        "line: 1, column: 1: The stream has failed!",
    ),
    (
        "\u{2028}-",
        false,
        "line: 1, column: 3: Unexpected end of input, expected `->`!",
    ),
    (
        "\u{2028} x",
        false,
        "line: 1, column: 3: Unexpected `x`, expected `->`!",
    ),
];

/// The position of a stream, the next character, and whether it has failed.
fn state_text(rt: &impl Abort, alloc: Global, stream: &TextStream) -> String {
    let at = stream.locate(stream.position());
    let text = format!(in alloc; "{at} {:?} {}", stream.peek(), stream.has_failed());
    text.expect(rt, "out of memory")
}

/// How many characters of `é\nb` are taken, the last of them, and the position of the stream then.
const TAKEN: &[(usize, &str)] = &[
    (0, "None line: 1, column: 1 Some('é') false"),
    (1, "Some('é') line: 1, column: 2 Some('\\n') false"),
    (2, "Some('\\n') line: 2, column: 1 Some('b') false"),
    (3, "Some('b') line: 2, column: 2 None false"),
    (4, "None line: 2, column: 2 None false"),
];

/// The last of so many characters, and the position of the stream after it.
fn taken(rt: &impl Abort, alloc: Global, text: &str, number: usize) -> String {
    let mut stream = TextStream::new(alloc, text).expect(rt, "out of memory");
    let mut last = None;
    for _ in 0..number {
        last = stream.take();
    }
    let state_text = state_text(rt, alloc, &stream);
    drop(stream);
    let said = format!(in alloc; "{last:?} {state_text}").expect(rt, "out of memory");
    drop(state_text);
    said
}

/// The text from the beginning of `é\nb` to the place after two characters, and the next character once the stream is reset to the start.
fn given_back(rt: &impl Abort, alloc: Global) -> String {
    let mut stream = TextStream::new(alloc, "é\nb").expect(rt, "out of memory");
    let start = stream.position();
    assert!(rt; stream.take() == Some('é') && stream.take() == Some('\n'));
    let text = String::from_str(alloc, stream.text_since(start)).expect(rt, "out of memory");
    stream.reset(start);
    let said = format!(in alloc; "{text:?} {:?}", stream.peek()).expect(rt, "out of memory");
    drop(text);
    drop(stream);
    said
}

/// Whether a stream has failed, before and after it is failed.
fn failed(rt: &impl Abort, alloc: Global) -> (bool, bool) {
    let mut stream = TextStream::new(alloc, "").expect(rt, "out of memory");
    let before = stream.has_failed();
    stream.fail();
    let after = stream.has_failed();
    drop(stream);
    (before, after)
}

#[test]
fn a_stream_counts_lines_and_characters(rt: HostRuntime) {
    assert!(rt; SourcePosition::default() == SourcePosition { line: 1, column: 1 });
    for row in TAKEN {
        same(&rt, taken(&rt, rt.alloc(), "é\nb", row.0), row.1);
    }
    same(&rt, given_back(&rt, rt.alloc()), "\"é\\n\" Some('é')");
    assert!(rt; failed(&rt, rt.alloc()) == (false, true));
}

/// The text of a fault.
fn text_of(rt: &impl Abort, alloc: Global, fault: ParseFault<()>) -> String {
    let said = must(rt, result_text(alloc, &fault));
    drop(fault);
    said
}

/// The result for a fixed text.
fn fixed(rt: &impl Abort, alloc: Global, stream: &mut TextStream, text: &str) -> String {
    match text_parse::<TextStream, ()>(stream, text) {
        Ok(()) => String::from_str(alloc, "read").expect(rt, "out of memory"),
        Err(fault) => text_of(rt, alloc, fault),
    }
}

/// The result for the identifier after white space.
fn identifier(rt: &impl Abort, alloc: Global, stream: &mut TextStream) -> String {
    skip_white_space(stream);
    must(
        rt,
        said_next(alloc, stream, identifier_parse::<TextStream, ()>),
    )
}

/// The result for the operation's id after white space.
fn id(rt: &impl Abort, alloc: Global, stream: &mut TextStream) -> String {
    skip_class(stream, Class::WhiteSpace);
    must(rt, said_next(alloc, stream, id_parse::<TextStream, ()>))
}

/// The result for the word or fixed text of a line.
fn word(rt: &impl Abort, alloc: Global, stream: &mut TextStream, number: usize) -> String {
    match number {
        0 => identifier(rt, alloc, stream),
        1 => id(rt, alloc, stream),
        2 => {
            skip_white_space(stream);
            fixed(rt, alloc, stream, "->")
        }
        3 => fixed(rt, alloc, stream, "a text of more than 24 bytes"),
        4 => fixed(rt, alloc, stream, "xy"),
        _ => identifier(rt, alloc, stream),
    }
}

#[test]
fn words_and_fixed_texts(rt: HostRuntime) {
    let stream = TextStream::new(rt.alloc(), " \t_a1 builtin.module ->x");
    let mut stream = stream.expect(&rt, "out of memory");
    for (number, wanted) in WORDS.iter().enumerate() {
        same(&rt, word(&rt, rt.alloc(), &mut stream, number), *wanted);
    }
    drop(stream);
}

/// The fault of a line, at the position of the stream, at its start or elsewhere.
fn fault(number: usize, stream: &mut TextStream, start: Place) -> ParseFault<()> {
    match number {
        0 => pass(stream, Cause::BadEscape('q')),
        1 => {
            let missing = unexpected(stream, Expected::Digit);
            commit(stream, missing)
        }
        2 => refuse(stream, Cause::UnknownIndex(3)),
        3 => refuse_at(stream, start, Cause::DuplicateIndex(3)),
        _ => fail_at(
            stream,
            SourcePosition { line: 7, column: 9 },
            Cause::UnknownPrintOnce(3),
        ),
    }
}

/// The text of the fault of a line, after a character, and whether the stream has failed then.
fn refused(rt: &impl Abort, alloc: Global, text: &str, number: usize) -> String {
    let mut stream = TextStream::new(alloc, text).expect(rt, "out of memory");
    let start = stream.position();
    let _ = stream.take();
    let text = text_of(rt, alloc, fault(number, &mut stream, start));
    let failed = stream.has_failed();
    drop(stream);
    let said = format!(in alloc; "{text} {failed}").expect(rt, "out of memory");
    drop(text);
    said
}

/// Checks what begins at the start of `ab`, and after its first character.
fn check_classes(rt: &impl Abort, alloc: Global) {
    let mut stream = TextStream::new(alloc, "ab").expect(rt, "out of memory");
    assert!(rt; next_is(&stream, 'a') && begins(&stream, Class::Beginning));
    let _ = stream.take();
    assert!(rt; !next_is(&stream, 'a') && !begins(&stream, Class::WhiteSpace));
    drop(stream);
}

/// A value as the result of a parser.
fn value(stream: &mut TextStream) -> ParseResult<u8, ()> {
    committed(stream, Ok(7))
}

#[test]
fn faults_are_committed_or_not(rt: HostRuntime) {
    check_classes(&rt, rt.alloc());
    for (number, wanted) in FAULTS.iter().enumerate() {
        same(&rt, refused(&rt, rt.alloc(), "ab", number), *wanted);
    }
    same(&rt, must(&rt, said(rt.alloc(), "ab", value)), "7");
}

/// Whether two fixed texts are skipped after white space, and the position of the stream then.
fn slices(rt: &impl Abort, alloc: Global, text: &str) -> String {
    let mut stream = TextStream::new(alloc, text).expect(rt, "out of memory");
    stream.skip(Class::WhiteSpace);
    let first = stream.accept("é!=");
    let second = stream.accept("ab");
    let state_text = state_text(rt, alloc, &stream);
    drop(stream);
    let said = format!(in alloc; "{first} {second} {state_text}").expect(rt, "out of memory");
    drop(state_text);
    said
}

/// A text, and the result for it.
const SLICES: (&str, &str) = (
    " \u{3000}\né!=a",
    "true false line: 2, column: 4 Some('a') false",
);

#[test]
fn a_stream_goes_by_slices(rt: HostRuntime) {
    same(&rt, slices(&rt, rt.alloc(), SLICES.0), SLICES.1);
}

/// Fails the stream, or not.
fn fail_if(stream: &mut TextStream, failed: bool) {
    if failed {
        stream.fail();
    }
}

/// Whether `->` is skipped after white space, the position of the stream then, and whether it has failed.
fn accepted(rt: &impl Abort, alloc: Global, text: &str, failed: bool) -> String {
    let mut stream = TextStream::new(alloc, text).expect(rt, "out of memory");
    fail_if(&mut stream, failed);
    let accepted = stream.accept_spaced("->");
    let (at, failed) = (stream.locate(stream.position()), stream.has_failed());
    drop(stream);
    format!(in alloc; "{accepted} {at} {failed}").expect(rt, "out of memory")
}

/// The position of a stream.
fn position_text(rt: &impl Abort, alloc: Global, stream: &TextStream) -> String {
    let at = stream.locate(stream.position());
    format!(in alloc; "{at}").expect(rt, "out of memory")
}

/// The error for an expected `->` with white space around it, or the position of the stream after it.
fn arrow(rt: &impl Abort, alloc: Global, text: &str, failed: bool) -> String {
    let mut stream = TextStream::new(alloc, text).expect(rt, "out of memory");
    fail_if(&mut stream, failed);
    let said = match spaced_text_demanded::<TextStream, ()>(&mut stream, "->") {
        Ok(()) => position_text(rt, alloc, &stream),
        Err(fault) => text_of(rt, alloc, fault),
    };
    drop(stream);
    said
}

#[test]
fn a_fixed_text_after_white_space(rt: HostRuntime) {
    for row in ACCEPTED {
        same(&rt, accepted(&rt, rt.alloc(), row.0, row.1), row.2);
    }
    for row in ARROWS {
        same(&rt, arrow(&rt, rt.alloc(), row.0, row.1), row.2);
    }
}

/// A line that begins after the first newline.
fn long_line(rt: &impl Abort, alloc: Global) -> String {
    let mut text = String::from_str(alloc, "\n").expect(rt, "out of memory");
    for _ in 0..600 {
        text.push_str("aé").expect(rt, "out of memory");
    }
    text
}

#[test]
fn a_long_line_counts_characters(rt: HostRuntime) {
    let text = long_line(&rt, rt.alloc());
    let said = taken(&rt, rt.alloc(), text.as_str(), 1100);
    drop(text);
    same(&rt, said, "Some('a') line: 2, column: 1100 Some('é') false");
}
