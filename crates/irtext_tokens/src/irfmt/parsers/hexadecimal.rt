//! The parser of hexadecimal numbers.
ghost use Rattle.irtext_tokens.specs.Integers.{hexadecimal_mark_at, hex_int_at};
ghost use Rattle.irtext_tokens.specs.Reads.{ReadsAs, SparesMemory};

use crate::irfmt::faults::{begins, commit_unexpected};
use crate::irfmt::parsers::class::Class;
use crate::irfmt::parsers::digits::{Radix, out_of_range, take_digits};
use crate::irfmt::parsers::fixed_text::text_parse;
use crate::irfmt::parsers::from_str_radix::FromStrRadix;
use crate::irfmt::parsers::integer::number_of;
use irtext_base::parsable::{CharStream, ParseResult};
use irtext_base::result::Expected;

/// Parses `0x`, which must be followed by a hexadecimal digit.
fn mark_parse<S: CharStream, A>(stream: &mut S) -> ParseResult<(), A>
    ensures answers { ReadsAs S.view S.at (λ u. u) hexadecimal_mark_at stream.old result stream.new }
    ensures spares { SparesMemory S.view hexadecimal_mark_at stream.old result }
{
    text_parse(stream, "0x")?;
    if begins(stream, Class::HexadecimalDigit) {
        return Ok(());
    }
    Err(commit_unexpected(stream, Expected::HexadecimalDigit))
}

/// Parses a number such as `0x1F`: `0x` and one hexadecimal digit or more, in either case, as many as come next. Fails with `Unexpected`
/// if the first character is not `0`, uncommitted, or the second is not `x`, committed: both expect `0x`. Fails with `Unexpected`,
/// committed, if no hexadecimal digit follows. Fails with `NumberRange` at the beginning of the number if it does not fit its type. An
/// uncommitted error leaves the stream unchanged, a committed one leaves it failed.
pub fn hex_int_parse<S: CharStream, N: FromStrRadix, A>(stream: &mut S) -> ParseResult<N, A>
    ensures answers { ReadsAs S.view S.at N.number (hex_int_at N.below) stream.old result stream.new }
    ensures spares { SparesMemory S.view (hex_int_at N.below) stream.old result }
{
    let place = stream.position();
    mark_parse(stream)?;
    let magnitude = take_digits(stream, Radix::Hexadecimal);
    match number_of(false, magnitude) {
        Some(number) => Ok(number),
        None => Err(out_of_range(stream, place)),
    }
}
