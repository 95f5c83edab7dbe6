//! Ready parts of texts (`irtext_syntax`), each parsed and printed again.
ghost use Rattle.std.specs.Prelude.{codes, refl};
ghost use Rattle.irtext_syntax.specs.KeywordTexts.{fixed_word};
ghost use Rattle.irtext_syntax.specs.Ranges.{from_to};

use crate::tests::must::{must, same};
use irtext_base::parsable::{CharStream, ParseResult, TextStream};
use irtext_demo::{DemoAttr, DemoType};
use irtext_syntax::characters::Characters;
use irtext_syntax::keyword::{Flag, Keyword, Word};
use irtext_syntax::list::ListOf;
use irtext_syntax::name::Name;
use irtext_syntax::number::Number;
use irtext_syntax::own::Own;
use irtext_syntax::part::Part;
use irtext_syntax::range::{Range, Ranged};
use irtext_syntax::ready::{Angle, Colon, Comma, Curly, Round, SpacedArrow, Square};
use irtext_syntax::sequence::{Then, Within};
use irtext_tests_common::answers::left;
use std::alloc::Global;
use std::process::Abort;

/// The word `to`.
struct To;

impl Word for To {
    ghost word = { fixed_word (codes "to") refl };

    fn word() -> &'static str {
        "to"
    }
}

/// The numbers from 1 to 100.
struct Percent;

impl Range for Percent {
    ghost bounds = { from_to 1 100 refl };

    fn bounds() -> (u64, u64) {
        (1, 100)
    }
}

/// A part whose texts are parsed.
#[derive(Clone, Copy)]
enum Kind {
    /// A number of a signed type.
    Signed,
    /// A number of an unsigned type.
    Byte,
    /// A number from 1 to 100.
    Percent,
    /// A quoted text.
    Quoted,
    /// An identifier.
    Name,
    /// The word `to`, required.
    Keyword,
    /// The word `to`, or nothing.
    Flag,
    /// A type of the caller.
    Type,
    /// `<i64: i64>`.
    Pair,
    /// `name -> type`.
    Arrow,
    /// A list of names in `[` and `]`.
    Names,
    /// A list of lists of bytes.
    Nested,
    /// A list in `{` and `}`, or nothing, between `(` and `)`.
    Maybe,
}

/// Two numbers in angle brackets.
type Pair = Within<Angle, Then<Number<i64>, Colon, Number<i64>>>;

/// A name, and the type that it is mapped to.
type Mapping = Then<Name, SpacedArrow, Own<DemoType>>;

/// Rows of bytes.
type Rows = ListOf<Square, ListOf<Round, Number<u8>>>;

/// A list that may be left out.
type Optional = Within<Round, Option<ListOf<Curly, Name>>>;

/// The text of what is parsed for a part: what is printed for it and the next character, or the fault.
fn said<P: Part<DemoAttr>, R: Abort>(rt: &R, alloc: Global, text: &str) -> String {
    let mut stream = TextStream::new(alloc, text).expect(rt, "out of memory");
    let answer: ParseResult<P, DemoAttr> = <P as Part<DemoAttr>>::read(&mut stream);
    again(rt, alloc, &answer, stream.peek())
}

/// The text of a result: what is printed for the part and the next character, or the fault.
fn again<P: Part<DemoAttr>>(
    rt: &impl Abort,
    alloc: Global,
    answer: &ParseResult<P, DemoAttr>,
    next: Option<char>,
) -> String {
    match answer {
        Ok(part) => {
            let mut printed = String::new(alloc);
            part.write_text(&mut printed).expect(rt, "out of memory");
            write!(printed, "|{next:?}").expect(rt, "out of memory");
            printed
        }
        Err(fault) => must(rt, left(alloc, fault, next)),
    }
}

/// The same for the part of this kind.
fn said_as<R: Abort>(rt: &R, alloc: Global, kind: Kind, text: &str) -> String {
    match kind {
        Kind::Signed => said::<Number<i64>, R>(rt, alloc, text),
        Kind::Byte => said::<Number<u8>, R>(rt, alloc, text),
        Kind::Percent => said::<Ranged<Percent>, R>(rt, alloc, text),
        Kind::Quoted => said::<Characters, R>(rt, alloc, text),
        Kind::Name => said::<Name, R>(rt, alloc, text),
        Kind::Keyword => said::<Keyword<To>, R>(rt, alloc, text),
        Kind::Flag => said::<Flag<To>, R>(rt, alloc, text),
        Kind::Type => said::<Own<DemoType>, R>(rt, alloc, text),
        Kind::Pair => said::<Pair, R>(rt, alloc, text),
        Kind::Arrow => said::<Mapping, R>(rt, alloc, text),
        Kind::Names => said::<ListOf<Square, Then<Name, Comma, Name>>, R>(rt, alloc, text),
        Kind::Nested => said::<Rows, R>(rt, alloc, text),
        Kind::Maybe => said::<Optional, R>(rt, alloc, text),
    }
}

/// Texts of each part, and what is said of each.
const TEXTS: &[(Kind, &[(&str, &str)])] = &[
    (
        Kind::Signed,
        &[
            ("-12;", "-12|Some(';')"),
            (
                "9223372036854775808",
                "line: 1, column: 1: Number out of range: 9223372036854775808!",
            ),
            (
                "x",
                "line: 1, column: 1: Unexpected `x`, expected digit|Some('x')",
            ),
        ],
    ),
    (
        Kind::Byte,
        &[
            ("255", "255|None"),
            ("256", "line: 1, column: 1: Number out of range: 256!"),
            ("007", "7|None"),
        ],
    ),
    (
        Kind::Percent,
        &[
            ("100%", "100|Some('%')"),
            ("0", "line: 1, column: 1: Number out of range: 0!"),
            ("101", "line: 1, column: 1: Number out of range: 101!"),
            (
                "%",
                "line: 1, column: 1: Unexpected `%`, expected digit|Some('%')",
            ),
        ],
    ),
    (
        Kind::Quoted,
        &[
            ("\"a\\n\\\"b\"", "\"a\\n\\\"b\"|None"),
            (
                "\"a",
                "line: 1, column: 3: Unexpected end of input, expected `\"`!",
            ),
            (
                "a",
                "line: 1, column: 1: Unexpected `a`, expected `\"`|Some('a')",
            ),
        ],
    ),
    (
        Kind::Name,
        &[
            ("a_1.b", "a_1|Some('.')"),
            (
                "1",
                "line: 1, column: 1: Unexpected `1`, expected identifier|Some('1')",
            ),
        ],
    ),
    (
        Kind::Keyword,
        &[
            ("to x", "to|Some(' ')"),
            (
                "too",
                "line: 1, column: 1: Unexpected `t`, expected `to`|Some('t')",
            ),
        ],
    ),
    (Kind::Flag, &[("to", "to|None"), ("too", "|Some('t')")]),
    (
        Kind::Type,
        &[
            ("builtin.integer  si64", "builtin.integer si64|None"),
            (
                "builtin.nothing",
                "line: 1, column: 1: Unregistered type builtin.nothing!",
            ),
        ],
    ),
    (
        Kind::Pair,
        &[
            ("< 1 :-2 >", "<1: -2>|None"),
            (
                "<1, 2>",
                "line: 1, column: 3: Unexpected `,`, expected `:`!",
            ),
            (
                "<1:",
                "line: 1, column: 4: Unexpected end of input, expected digit!",
            ),
            (
                "1",
                "line: 1, column: 1: Unexpected `1`, expected `<`|Some('1')",
            ),
        ],
    ),
    (
        Kind::Arrow,
        &[
            ("a->builtin.integer i1", "a -> builtin.integer i1|None"),
            ("a b", "line: 1, column: 3: Unexpected `b`, expected `->`!"),
        ],
    ),
    (Kind::Names, &[("[a, b]", "[a, b]|None"), ("[]", "[]|None")]),
    (
        Kind::Nested,
        &[
            ("[( 1,2 ),()]", "[(1, 2), ()]|None"),
            (
                "[(1,)]",
                "line: 1, column: 5: Unexpected `)`, expected digit!",
            ),
            (
                "[(1)",
                "line: 1, column: 5: Unexpected end of input, expected `]`!",
            ),
        ],
    ),
    (
        Kind::Maybe,
        &[
            ("( )", "()|None"),
            ("({a})", "({ a })|None"),
            ("({a)", "line: 1, column: 4: Unexpected `)`, expected `}`!"),
        ],
    ),
];

#[test]
fn ready_parts_are_parsed_and_printed(rt: HostRuntime) {
    for part in TEXTS {
        for row in part.1 {
            same(&rt, said_as(&rt, rt.alloc(), part.0, row.0).as_str(), row.1);
        }
    }
}
