//! Integers of any size, decimal numbers and bytes, kept as they are spelled.
ghost use Rattle.std.specs.Prelude.{◌≡◌, true, false, MatchOption, take, drop, codes};
ghost use Rattle.std.specs.Char.{is_ascii_digit, is_ascii_hexdigit};
ghost use Rattle.std.specs.List.{list_all};
ghost use Rattle.std.specs.Str.{bytes_eq};
ghost use Rattle.irtext_base.specs.Text.{begins};
ghost use Rattle.irtext_parts.specs.Literals.{after_minus, is_digits, is_even, is_bytes, is_decimal, digits_rules, hexadecimal_rules, decimal_rules};
ghost use Rattle.irtext_parts.specs.LiteralLaws.{digits_rules_law, hexadecimal_rules_law, decimal_rules_law};

use crate::spelled::Spelled;
use crate::spelling::Spelling;
use fast_float::Numeral;
use irtext_base::result::{Expected, Token};

/// An integer of any size, as `-170141183460469231731687303715884105729`: an optional `-` and one decimal digit or more.
pub type Digits = Spelled<DigitsSpelling>;

/// A decimal number, as `-1.50e10` or `1e-7`: an optional `-`, one digit or more, and then a fraction (`.` and one digit or more), an
/// exponent (`e` or `E`, an optional sign and one digit or more), or both. What is not finite has no such text.
pub type Decimal = Spelled<DecimalSpelling>;

/// Bytes, as `0xDEADbeef`: `0x` and an even number of hexadecimal digits, or none.
pub type Hexadecimal = Spelled<HexadecimalSpelling>;

/// How integers of any size are spelled.
pub struct DigitsSpelling;

/// How decimal numbers are spelled.
pub struct DecimalSpelling;

/// How bytes are spelled.
pub struct HexadecimalSpelling;

/// Returns the text without the minus that it begins with, if it does.
fn after_minus(text: &[u8]) -> &[u8]
    ensures { result.now ≡ after_minus text.now }
{
    match text.split_first() {
        Some((first, rest)) if *first == b'-' => rest,
        _ => text,
    }
}

/// Whether the text begins with a decimal digit.
fn begins_digit(text: &[u8]) -> bool
    ensures { result ≡ begins is_ascii_digit text.now }
{
    match text.first() {
        Some(first) => first.is_ascii_digit(),
        None => false,
    }
}

/// Whether the text is decimal digits or nothing.
fn all_digits(text: &[u8]) -> bool
    ensures { result ≡ list_all is_ascii_digit text.now }
{
    text.iter().all(|b| b.is_ascii_digit())
}

/// Whether the text is one decimal digit or more.
fn is_digits(text: &[u8]) -> bool
    ensures { result ≡ is_digits text.now }
{
    if !begins_digit(text) {
        return false;
    }
    all_digits(text)
}

impl Spelling for DigitsSpelling {
    ghost rules = { digits_rules };

    ghost law = { digits_rules_law };

    fn begins(c: char) -> bool {
        c.is_ascii_digit() || c == '-'
    }

    fn has(c: char) -> bool {
        c.is_ascii_digit() || c == '-'
    }

    fn accepts(text: &str) -> bool {
        is_digits(after_minus(text.as_bytes()))
    }

    fn expected() -> Expected {
        Expected::Digit
    }

    fn refusal() -> &'static str {
        "Not an integer: "
    }
}

/// Whether the text is digits, and then a point with digits, or an exponent, or both.
fn is_decimal(text: &[u8]) -> bool
    ensures { result ≡ is_decimal text.now }
{
    let numeral = Numeral::scan(text);
    if numeral.len() != text.len() || numeral.whole().is_empty() {
        return false;
    }
    if numeral.has_point() {
        return !numeral.fraction().is_empty();
    }
    !numeral.exponent().is_empty()
}

impl Spelling for DecimalSpelling {
    ghost rules = { decimal_rules };

    ghost law = { decimal_rules_law };

    fn begins(c: char) -> bool {
        c.is_ascii_digit() || c == '-'
    }

    fn has(c: char) -> bool {
        c.is_ascii_digit() || c == '-' || c == '.' || c == '+' || c == 'e' || c == 'E'
    }

    fn accepts(text: &str) -> bool {
        is_decimal(after_minus(text.as_bytes()))
    }

    fn expected() -> Expected {
        Expected::Digit
    }

    fn refusal() -> &'static str {
        "Not a decimal number: "
    }
}

/// Whether the length is even.
fn is_even(text: &[u8]) -> bool
    ensures { result ≡ is_even text.now }
{
    text.len() % 2 == 0
}

/// Whether the text is hexadecimal digits or nothing.
fn all_hexadecimal(text: &[u8]) -> bool
    ensures { result ≡ list_all is_ascii_hexdigit text.now }
{
    text.iter().all(|b| b.is_ascii_hexdigit())
}

/// Returns what comes after `0x`, if the text begins with it.
fn after_mark(text: &[u8]) -> Option<&[u8]>
    ensures { MatchOption result (bytes_eq (take 2 text.now) (codes "0x") ≡ false)
        (λ digits. (bytes_eq (take 2 text.now) (codes "0x") ≡ true) × (digits.now ≡ drop 2 text.now)) }
{
    if text.len() < 2 || &text[..2] != b"0x".as_slice() {
        return None;
    }
    Some(&text[2..])
}

/// Whether the text is `0x` and an even number of hexadecimal digits.
fn is_bytes(text: &[u8]) -> bool
    ensures { result ≡ is_bytes text.now }
{
    let Some(digits) = after_mark(text) else {
        return false;
    };
    if !all_hexadecimal(digits) {
        return false;
    }
    is_even(text)
}

impl Spelling for HexadecimalSpelling {
    ghost rules = { hexadecimal_rules };

    ghost law = { hexadecimal_rules_law };

    fn begins(c: char) -> bool {
        c == '0'
    }

    fn has(c: char) -> bool {
        c.is_ascii_alphanumeric() || c == '_'
    }

    fn accepts(text: &str) -> bool {
        is_bytes(text.as_bytes())
    }

    fn expected() -> Expected {
        match Token::from("0x") {
            Ok(text) => Expected::Text(text),
            Err(_) => unreachable!(),
        }
    }

    fn refusal() -> &'static str {
        "Not 0x and an even number of hexadecimal digits: "
    }
}
