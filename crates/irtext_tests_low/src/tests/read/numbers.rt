//! Numbers of every type, in decimal and hexadecimal digits and as their text, and booleans.
ghost use Rattle.std.specs.Prelude.{◌≤◌};

use crate::tests::must::{line_told, same};
use crate::tests::read::numbers::Base::{Decimal, Hexadecimal};
use crate::tests::read::numbers::Kind::{
    HexI64, HexU8, HexU16, HexU32, HexU64, HexUsize, I8, I16, I32, I64, Isize, Text, Truth, U8,
    U16, U32, U64, Usize,
};
use irtext_base::parsable::{CharStream, ParseResult, TextStream};
use irtext_tokens::irfmt::parsers::{
    FromStrRadix, bool_parse, hex_int_parse, int_parse, number_as_string_parse,
};
use std::alloc::Global;
use std::fmt;
use std::process::Abort;

/// What is parsed: an integer of a type, one in hexadecimal digits, the text of a number, or a boolean.
#[derive(Clone, Copy)]
enum Kind {
    U8,
    U16,
    U32,
    U64,
    Usize,
    I8,
    I16,
    I32,
    I64,
    Isize,
    HexU8,
    HexU16,
    HexU32,
    HexU64,
    HexUsize,
    HexI64,
    Text,
    Truth,
}

/// What a text is parsed as, the text, and the result.
const READ: &[(Kind, &str, &str)] = &[
    (I8, "-128", "-128"),
    (I8, "127", "127"),
    (I16, "-32768", "-32768"),
    (Isize, "-9223372036854775808", "-9223372036854775808"),
    (U16, "+065535", "65535"),
    (U64, "18446744073709551615", "18446744073709551615"),
    (HexU64, "0xff", "255"),
    (HexU64, "0xDEAD", "57005"),
    (HexI64, "0x1234", "4660"),
    (HexUsize, "0xABCDEF", "11259375"),
    (HexU32, "0xCAFE", "51966"),
    (HexU8, "0x7f", "127"),
    (Usize, "0", "0"),
    (Usize, "+0042x", "42"),
    (Usize, "18446744073709551615", "18446744073709551615"),
    (I32, "-2147483648", "-2147483648"),
    (I32, "+2147483647", "2147483647"),
    (I32, "-0", "0"),
    (Text, "0", "0"),
    (Text, "42", "42"),
    (Text, "+42", "+42"),
    (Text, "-42", "-42"),
    (
        Text,
        "-1606938044258990275541962092341162602522202993782792835301376",
        "-1606938044258990275541962092341162602522202993782792835301376",
    ),
    (Truth, "true", "true"),
    (Truth, "falsehood", "false"),
];

/// What a text is parsed as, and the text, which denotes no number of that type.
const OUT_OF_RANGE: &[(Kind, &str)] = &[
    (I8, "-129"),
    (U32, "-1"),
    (I64, "9223372036854775808"),
    (U8, "256"),
    (Usize, "18446744073709551616"),
    (HexU8, "0x100"),
    (HexU16, "0x10000"),
    (Usize, "-0"),
    (I32, "2147483648"),
];

/// What a text is parsed as, the text, the column of the character that is not expected there, and the error.
const UNEXPECTED: &[(Kind, &str, u8, &str)] = &[
    (I32, "- 1", 2, "` `, expected digit!"),
    (I32, "", 1, "end of input, expected digit"),
    (HexU64, "0x", 3, "end of input, expected hexadecimal digit!"),
    (HexU64, "ff", 1, "`f`, expected `0x`"),
    (HexU64, "0y1", 2, "`y`, expected `0x`!"),
    (HexU64, "0xg", 3, "`g`, expected hexadecimal digit!"),
    (Usize, "", 1, "end of input, expected digit"),
    (Usize, "+x", 2, "`x`, expected digit!"),
    (Text, "", 1, "end of input, expected digit"),
    (Text, "-", 2, "end of input, expected digit!"),
    (Text, "+", 2, "end of input, expected digit!"),
    (Text, "x1", 1, "`x`, expected digit"),
    (Truth, "no", 1, "`n`, expected true or false"),
    (Truth, "trie", 3, "`i`, expected `true`!"),
    (Truth, "fals", 5, "end of input, expected `false`!"),
];

/// The results after so many characters were skipped: an integer of eight bits, and then a boolean.
const AFTER_SKIPPED: &[(u8, &str, &str)] = &[
    (
        0,
        "- 1",
        "line: 1, column: 2: Unexpected ` `, expected digit! line: 1, column: 2: The stream has failed!",
    ),
    (
        3,
        "\n\né300",
        "line: 3, column: 2: Number out of range: 300! line: 3, column: 5: The stream has failed!",
    ),
];

/// In which digits an integer is written.
#[derive(Clone, Copy)]
enum Base {
    Decimal,
    Hexadecimal,
}

impl Base {
    /// The result for an integer of a type in these digits.
    fn parsed<N: FromStrRadix>(self, stream: &mut TextStream) -> ParseResult<N, ()> {
        match self {
            Decimal => int_parse(stream),
            Hexadecimal => hex_int_parse(stream),
        }
    }

    /// An integer of a type in these digits.
    fn int<N: FromStrRadix + fmt::Display + Drop>(
        self,
        rt: &impl Abort,
        alloc: Global,
        stream: &mut TextStream,
    ) -> String {
        line_told(rt, alloc, self.parsed::<N>(stream))
    }
}

/// The text of a number.
fn digits(rt: &impl Abort, alloc: Global, stream: &mut TextStream) -> String {
    line_told(rt, alloc, number_as_string_parse::<TextStream, ()>(stream))
}

/// A boolean.
fn truth(rt: &impl Abort, alloc: Global, stream: &mut TextStream) -> String {
    line_told(rt, alloc, bool_parse::<TextStream, ()>(stream))
}

/// The result for what comes next, parsed as this kind.
fn read_next(rt: &impl Abort, alloc: Global, kind: Kind, stream: &mut TextStream) -> String {
    match kind {
        U8 => Decimal.int::<u8>(rt, alloc, stream),
        U16 => Decimal.int::<u16>(rt, alloc, stream),
        U32 => Decimal.int::<u32>(rt, alloc, stream),
        U64 => Decimal.int::<u64>(rt, alloc, stream),
        Usize => Decimal.int::<usize>(rt, alloc, stream),
        I8 => Decimal.int::<i8>(rt, alloc, stream),
        I16 => Decimal.int::<i16>(rt, alloc, stream),
        I32 => Decimal.int::<i32>(rt, alloc, stream),
        I64 => Decimal.int::<i64>(rt, alloc, stream),
        Isize => Decimal.int::<isize>(rt, alloc, stream),
        HexU8 => Hexadecimal.int::<u8>(rt, alloc, stream),
        HexU16 => Hexadecimal.int::<u16>(rt, alloc, stream),
        HexU32 => Hexadecimal.int::<u32>(rt, alloc, stream),
        HexU64 => Hexadecimal.int::<u64>(rt, alloc, stream),
        HexUsize => Hexadecimal.int::<usize>(rt, alloc, stream),
        HexI64 => Hexadecimal.int::<i64>(rt, alloc, stream),
        Text => digits(rt, alloc, stream),
        Truth => truth(rt, alloc, stream),
    }
}

/// The result for a text that is parsed as this kind.
fn read(rt: &impl Abort, alloc: Global, kind: Kind, text: &str) -> String {
    let mut stream = TextStream::new(alloc, text).expect(rt, "out of memory");
    let said = read_next(rt, alloc, kind, &mut stream);
    drop(stream);
    said
}

/// An integer of eight bits, and then a boolean.
fn two(rt: &impl Abort, alloc: Global, stream: &mut TextStream) -> String {
    let mut said = Decimal.int::<i8>(rt, alloc, stream);
    said.push(' ').expect(rt, "out of memory");
    let truth = truth(rt, alloc, stream);
    said.push_str(truth.as_str()).expect(rt, "out of memory");
    drop(truth);
    said
}

/// The same after so many characters.
fn following(rt: &impl Abort, alloc: Global, skipped: u8, text: &str) -> String {
    let mut stream = TextStream::new(alloc, text).expect(rt, "out of memory");
    for _ in 0..skipped {
        let _ = stream.take();
    }
    let said = two(rt, alloc, &mut stream);
    drop(stream);
    said
}

/// The error for a number that is out of range.
fn out_of_range(rt: &impl Abort, alloc: Global, text: &str) -> String {
    let error = format!(in alloc; "line: 1, column: 1: Number out of range: {text}!");
    error.expect(rt, "out of memory")
}

/// The error for a character in the first line that is not expected.
fn not_expected(rt: &impl Abort, alloc: Global, column: u8, error: &str) -> String {
    let error = format!(in alloc; "line: 1, column: {column}: Unexpected {error}");
    error.expect(rt, "out of memory")
}

#[test]
fn numbers_and_truth_values_of_a_text(rt: HostRuntime) {
    for row in READ {
        same(&rt, read(&rt, rt.alloc(), row.0, row.1), row.2);
    }
    for row in OUT_OF_RANGE {
        let wanted = out_of_range(&rt, rt.alloc(), row.1);
        same(&rt, read(&rt, rt.alloc(), row.0, row.1), wanted.as_str());
        drop(wanted);
    }
    for row in UNEXPECTED {
        let wanted = not_expected(&rt, rt.alloc(), row.2, row.3);
        same(&rt, read(&rt, rt.alloc(), row.0, row.1), wanted.as_str());
        drop(wanted);
    }
}

#[test]
fn a_refused_number_leaves_the_stream_failed(rt: HostRuntime) {
    for row in AFTER_SKIPPED {
        same(&rt, following(&rt, rt.alloc(), row.0, row.1), row.2);
    }
}

/// Types, radices and texts, and the number of each text, or `-` if it is none.
const RADICES: &[(Kind, u32, &str, &str)] = &[
    (U8, 16, "ff", "255"),
    (U16, 36, "zz", "1295"),
    (U32, 10, "-0", "-"),
    (U64, 2, "+101", "5"),
    (Usize, 10, "", "-"),
    (I8, 16, "-80", "-128"),
    (I16, 10, "-0", "0"),
    (I32, 10, "2147483648", "-"),
    (I64, 8, "+7", "7"),
    (Isize, 8, "8", "-"),
];

/// The number of a text in a radix, or `-` if it is none.
fn number<N: FromStrRadix + fmt::Display + Drop>(
    rt: &impl Abort,
    alloc: Global,
    text: &str,
    radix: u32,
) -> String
    requires low { 2 ≤ radix }
    requires high { radix ≤ 36 }
{
    match N::from_str_radix(text, radix) {
        Ok(number) => format!(in alloc; "{number}").expect(rt, "out of memory"),
        Err(_) => String::from_str(alloc, "-").expect(rt, "out of memory"),
    }
}

/// The number of a text in a radix, for a type.
fn in_radix(rt: &impl Abort, alloc: Global, kind: Kind, radix: u32, text: &str) -> String {
    assert!(rt; 2 <= radix && radix <= 36);
    match kind {
        U8 => number::<u8>(rt, alloc, text, radix),
        U16 => number::<u16>(rt, alloc, text, radix),
        U32 => number::<u32>(rt, alloc, text, radix),
        U64 => number::<u64>(rt, alloc, text, radix),
        Usize => number::<usize>(rt, alloc, text, radix),
        I8 => number::<i8>(rt, alloc, text, radix),
        I16 => number::<i16>(rt, alloc, text, radix),
        I32 => number::<i32>(rt, alloc, text, radix),
        I64 => number::<i64>(rt, alloc, text, radix),
        _ => number::<isize>(rt, alloc, text, radix),
    }
}

#[test]
fn numbers_in_a_radix(rt: HostRuntime) {
    for row in RADICES {
        same(&rt, in_radix(&rt, rt.alloc(), row.0, row.1, row.2), row.3);
    }
}

#[test]
fn magnitudes_that_fit_and_that_do_not(rt: HostRuntime) {
    assert!(rt; i64::from_magnitude(true, 1 << 63) == Some(i64::MIN));
    assert!(rt; u8::from_magnitude(true, 0).is_none());
}
