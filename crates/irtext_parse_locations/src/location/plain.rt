//! Numbers, lines and columns in their usual form: one space after each `:` and `,`, and no signs. And fixed texts with space after them.
ghost use Rattle.std.specs.Prelude.{◌≡◌};
ghost use Rattle.std.specs.Bool.{MatchBool};
ghost use Rattle.std.specs.Str.{chars};
ghost use Rattle.irtext_parse_locations.specs.Plain.{TakesDigits, DigitsAfter, NumberAfter, SpaceAfter, Looks, Sees, Gets, Finds, after_source_at};

use irtext_base::parsable::{CharStream, SourcePosition, TextStream};
use irtext_tokens::irfmt::faults::begins;
use irtext_tokens::irfmt::parsers::class::Class;
use irtext_tokens::irfmt::parsers::digits::{Radix, take_digits};
use irtext_tokens::irfmt::parsers::{FromStrRadix, skip_white_space};

/// Consumes this text and the white space after it. If the text does not come next, or the stream has failed, returns `false`, and the
/// stream is unchanged.
#[inline(always)]
pub fn spaced_there(stream: &mut TextStream, text: &str) -> bool
    ensures { MatchBool result (SpaceAfter (chars text.now) stream.old stream.new)
        (stream.new ≡ stream.old) }
{
    if stream.has_failed() {
        return false;
    }
    if !stream.accept(text) {
        return false;
    }
    skip_white_space(stream);
    true
}

/// Parses the digits that come next, and returns their number if it fits 64 bits. If there is none, the new position of the stream is
/// unspecified.
#[inline(always)]
fn digits_there(stream: &mut TextStream) -> Option<u64>
    ensures { Looks (λ n. TakesDigits stream.old n stream.new) stream.old result stream.new }
{
    if !begins(stream, Class::Digit) {
        return None;
    }
    take_digits(stream, Radix::Decimal)
}

/// Parses this text and the digits right after it, and returns their number if it fits 64 bits. Otherwise the new position of the stream is
/// unspecified.
#[inline(always)]
pub fn digits_after(stream: &mut TextStream, before: &str) -> Option<u64>
    ensures { Looks (DigitsAfter (chars before.now) stream.old stream.new) stream.old result stream.new }
{
    if !stream.accept(before) {
        return None;
    }
    digits_there(stream)
}

/// The same for a number that fits 32 bits with a sign.
#[inline(always)]
fn number_after_text(stream: &mut TextStream, before: &str) -> Option<i32>
    ensures { Looks (NumberAfter (chars before.now) stream.old stream.new) stream.old result stream.new }
{
    let magnitude = digits_after(stream, before)?;
    i32::from_magnitude(false, magnitude)
}

/// Parses `:`, a line and a column.
#[inline(always)]
fn both_there(stream: &mut TextStream) -> Option<SourcePosition>
    ensures { Looks (Gets after_source_at stream.old stream.new) stream.old result stream.new }
{
    let line = number_after_text(stream, ": line: ")?;
    let column = number_after_text(stream, ", column: ")?;
    Some(SourcePosition { line, column })
}

/// Parses `:`, a line and a column in this form. If they do not come next, or the stream has failed, returns `None` and nothing changes.
#[inline(always)]
pub(crate) fn position_there(stream: &mut TextStream) -> Option<SourcePosition>
    ensures { Sees (Finds after_source_at stream.old stream.new) stream.old result stream.new }
{
    if stream.has_failed() {
        return None;
    }
    let place = stream.position();
    match both_there(stream) {
        Some(position) => Some(position),
        None => {
            stream.reset(place);
            None
        }
    }
}
