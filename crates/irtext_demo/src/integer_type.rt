//! The integer types and their parser: a sign, and a width in decimal digits.
ghost use Rattle.std.specs.Prelude.{◌≡◌, ◌++◌, OnOk, OnErr, Some, MatchBool, codes, decimal, string_bytes};
ghost use Rattle.irtext_base.specs.Appending.{OnlyAppends};
ghost use Rattle.irtext_base.specs.Faults.{characters};
ghost use Rattle.irtext_tokens.specs.Tokens.{word};
ghost use Rattle.irtext_base.specs.Answers.{Answers, Gives, unless_failed};
ghost use Rattle.irtext_demo.specs.IntegerTypes.{integer_type_text, signedness_text, signedness_at, width_if, width_at, integer_type_at, TakesIfThere};

use crate::width::Width;
use irtext_base::parsable::{CharStream, ParseResult, TextStream};
use irtext_base::result::{Cause, Expected};
use irtext_memory::{OutOfMemory, string};
use irtext_syntax::part::{Last, Part, Plain};
use irtext_syntax::range::{FromDigits, digits_parse, write_decimal};
use irtext_tokens::irfmt::faults::{begins, committed, next_is, refuse, unexpected};
use irtext_tokens::irfmt::parsers::digits::{Radix, take_digits};
use irtext_tokens::irfmt::parsers::{Class, text_parse};
use std::fmt;

/// Whether the integers of a type are signed, unsigned, or interpreted by each use.
#[derive(Clone, Copy, PartialEq, Eq, Hash, Debug)]
pub enum Signedness {
    /// Printed as `si`.
    Signed,
    /// Printed as `ui`.
    Unsigned,
    /// Printed as `i`.
    Signless,
}

/// An integer type such as `si32`. It is printed as its sign and its width, without a space between them.
#[derive(Clone, Copy, PartialEq, Eq, Hash, Debug)]
pub struct IntegerType {
    pub kind: Signedness,
    pub width: Width,
}

impl fmt::Display for Signedness {
    ghost output = { λ kind. Some (signedness_text kind) };

    fn fmt<W: fmt::Write>(&self, f: &mut fmt::Formatter<W>) -> fmt::Result {
        match self {
            Signedness::Signed => f.write_str("si"),
            Signedness::Unsigned => f.write_str("ui"),
            Signedness::Signless => f.write_str("i"),
        }
    }
}

impl fmt::Display for IntegerType {
    ghost output = { λ t. Some (integer_type_text t) };

    fn fmt<W: fmt::Write>(&self, f: &mut fmt::Formatter<W>) -> fmt::Result {
        let kind = self.kind;
        let bits = self.width.bits();
        write!(f, "{kind}{bits}")
    }
}

/// Parses `si`, `ui` or `i`.
fn signedness_parse<A>(stream: &mut TextStream) -> ParseResult<Signedness, A>
    ensures { Answers (λ s. s) (λ s v. v) (λ k. k)
        (unless_failed stream.old.failed (signedness_at stream.old.rest)) stream.old result stream.new }
{
    if stream.has_failed() {
        return Err(refuse(stream, Cause::StreamFailed));
    }
    if next_is(stream, 's') {
        text_parse(stream, "si")?;
        return Ok(Signedness::Signed);
    }
    if next_is(stream, 'u') {
        text_parse(stream, "ui")?;
        return Ok(Signedness::Unsigned);
    }
    if next_is(stream, 'i') {
        text_parse(stream, "i")?;
        return Ok(Signedness::Signless);
    }
    Err(unexpected(stream, Expected::Type))
}

impl FromDigits for Width {
    ghost made = { width_if };

    fn from_digits(number: Option<u64>) -> Option<Width> {
        Width::new(number? as usize)
    }
}

/// Parses an integer type, such as `si32`: `si`, `ui` or `i`, and a width in decimal digits, without white space between them. Fails with
/// `Unexpected`, uncommitted, if the next character begins no sign. Every other error is committed: `Unexpected` if `s` or `u` is not
/// followed by `i` or the sign by a digit, and `NumberRange` at the first digit if the width is not from 1 to 65,535.
pub fn integer_type_parse<A>(stream: &mut TextStream) -> ParseResult<IntegerType, A>
    ensures { Answers (λ s. s) (λ s v. v) (λ t. t)
        (unless_failed stream.old.failed (integer_type_at stream.old.rest)) stream.old result stream.new }
{
    let kind = signedness_parse(stream)?;
    let width = digits_parse::<Width, A>(stream);
    let width = committed(stream, width)?;
    Ok(IntegerType { kind, width })
}

/// Consumes a fixed text if the whole of it comes next, and returns whether it does. Otherwise, and on a stream that has failed, the stream
/// is unchanged.
#[inline(always)]
fn text_there(stream: &mut TextStream, text: &str) -> bool
    ensures { MatchBool result
        (Gives (λ s. s) (λ s v. v) (unless_failed stream.old.failed
        (word (characters text.now) stream.old.rest)) stream.old tt stream.new)
        (stream.new ≡ stream.old) }
{
    if stream.has_failed() {
        return false;
    }
    if !stream.accept(text) {
        return false;
    }
    true
}

/// Consumes a sign if one comes next, and returns it. Otherwise the stream is unchanged.
#[inline(always)]
fn sign_there(stream: &mut TextStream) -> Option<Signedness>
    ensures { TakesIfThere signedness_at stream.old result stream.new }
{
    if next_is(stream, 's') {
        if text_there(stream, "si") {
            return Some(Signedness::Signed);
        }
        return None;
    }
    if next_is(stream, 'u') {
        if text_there(stream, "ui") {
            return Some(Signedness::Unsigned);
        }
        return None;
    }
    if next_is(stream, 'i') {
        if text_there(stream, "i") {
            return Some(Signedness::Signless);
        }
    }
    None
}

/// Consumes a width if one comes next, and returns it. Otherwise the stream is unchanged.
#[inline(always)]
fn width_there(stream: &mut TextStream) -> Option<Width>
    ensures { TakesIfThere width_at stream.old result stream.new }
{
    if stream.has_failed() {
        return None;
    }
    if !begins(stream, Class::Digit) {
        return None;
    }
    let place = stream.position();
    let number = take_digits(stream, Radix::Decimal);
    if let Some(width) = Width::from_digits(number) {
        return Some(width);
    }
    stream.reset(place);
    None
}

/// Consumes an integer type if one comes next, and returns it. Otherwise the stream is unchanged.
#[inline(always)]
fn integer_type_there(stream: &mut TextStream) -> Option<IntegerType>
    ensures { TakesIfThere integer_type_at stream.old result stream.new }
{
    let place = stream.position();
    let Some(kind) = sign_there(stream) else {
        return None;
    };
    if let Some(width) = width_there(stream) {
        return Some(IntegerType { kind, width });
    }
    stream.reset(place);
    None
}

/// Appends a sign.
#[inline(always)]
fn write_sign(kind: Signedness, f: &mut String) -> Result<(), OutOfMemory>
    ensures text { OnOk result (string_bytes f.new ≡ string_bytes f.old ++ signedness_text kind) }
    ensures appended { OnErr result (OnlyAppends f.old f.new) }
{
    match kind {
        Signedness::Signed => string::push_str(f, "si")?,
        Signedness::Unsigned => string::push_str(f, "ui")?,
        Signedness::Signless => string::push_str(f, "i")?,
    }
    Ok(())
}

/// Appends `builtin.integer`, a space and a sign.
#[inline(always)]
fn write_front(kind: Signedness, f: &mut String) -> Result<(), OutOfMemory>
    ensures text { OnOk result (string_bytes f.new ≡ string_bytes f.old
        ++ (codes "builtin.integer " ++ signedness_text kind)) }
    ensures appended { OnErr result (OnlyAppends f.old f.new) }
{
    match kind {
        Signedness::Signed => string::push_str(f, "builtin.integer si")?,
        Signedness::Unsigned => string::push_str(f, "builtin.integer ui")?,
        Signedness::Signless => string::push_str(f, "builtin.integer i")?,
    }
    Ok(())
}

/// Appends a number of bits. Those that most types have are fixed texts.
#[inline(always)]
fn write_width(bits: u16, f: &mut String) -> Result<(), OutOfMemory>
    ensures text { OnOk result (string_bytes f.new ≡ string_bytes f.old ++ decimal bits) }
    ensures appended { OnErr result (OnlyAppends f.old f.new) }
{
    match bits {
        1 => string::push_str(f, "1")?,
        8 => string::push_str(f, "8")?,
        16 => string::push_str(f, "16")?,
        32 => string::push_str(f, "32")?,
        64 => string::push_str(f, "64")?,
        _ => return write_decimal(bits as u64, f),
    }
    Ok(())
}

/// Appends an integer type as a type of its dialect: `builtin.integer si32`.
pub(crate) fn write_integer_type(ty: &IntegerType, f: &mut String) -> Result<(), OutOfMemory>
    ensures text { OnOk result (string_bytes f.new ≡ string_bytes f.old
        ++ (codes "builtin.integer " ++ integer_type_text ty.now)) }
    ensures appended { OnErr result (OnlyAppends f.old f.new) }
{
    write_front(ty.kind, f)?;
    write_width(ty.width.bits(), f)
}

/// An integer type as a part of other texts. A digit right after it would belong to its width.
impl<A> Part<A> for IntegerType {
    ghost use Rattle.irtext_demo.specs.IntegerTypes.{integer_type_ends};
    ghost use Rattle.irtext_demo.specs.IntegerTypeLaws.{integer_type_law, integer_type_decides};

    ghost text = { record {
      reading = integer_type_at;
      written = integer_type_text;
      ends = integer_type_ends;
    } };

    ghost sound = { record { law = integer_type_law; decides = integer_type_decides } };

    fn read(stream: &mut TextStream) -> ParseResult<IntegerType, A> {
        match integer_type_parse(stream) {
            Ok(ty) => Ok(ty),
            Err(fault) => Err(fault),
        }
    }

    #[inline(always)]
    fn read_known(stream: &mut TextStream) -> Option<IntegerType> {
        integer_type_there(stream)
    }

    fn write_text(&self, f: &mut String) -> Result<(), OutOfMemory> {
        write_sign(self.kind, f)?;
        write_width(self.width.bits(), f)
    }
}

impl<A> Last<A> for IntegerType {
    ghost use Rattle.irtext_demo.specs.IntegerTypeLaws.{integer_type_last};

    ghost last = { integer_type_last };
}

impl Plain for IntegerType {}
