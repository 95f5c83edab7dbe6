//! Numbers in decimal digits without a sign: those of a range, and values of any type that are made of such numbers.
ghost use Rattle.std.specs.Prelude.{◌≡◌, ℕ, true, Option, OnOk, OnErr, ◌++◌, string_bytes, decimal};
ghost use Rattle.irtext_base.specs.Appending.{OnlyAppends};
ghost use Rattle.irtext_tokens.specs.MustRead.{MayRead};
ghost use Rattle.irtext_syntax.specs.Ranges.{Bounds, is_between, digits_at};

use crate::part::{Item, Last, Part, Plain};
use irtext_base::parsable::{CharStream, ParseResult, TextStream};
use irtext_base::result::{Cause, Expected};
use irtext_memory::{OutOfMemory, string};
use irtext_tokens::irfmt::faults::{begins, refuse, unexpected};
use irtext_tokens::irfmt::parsers::Class;
use irtext_tokens::irfmt::parsers::digits::{Radix, out_of_range, take_digits};
use itoa::Buffer;
use std::alloc::AllocError;
use std::fmt;
use std::marker::PhantomData;

/// A range of numbers, both ends included. That they are numbers of 64 bits is computed: `ghost bounds = { from_to 1 100 refl }`.
pub trait Range {
    // the least and the greatest number
    ghost bounds: { Bounds };

    /// Returns the least and the greatest number.
    fn bounds() -> (u64, u64)
        ensures low { result.0 ≡ bounds.low }
        ensures high { result.1 ≡ bounds.high };
}

/// A type whose values are made of numbers in decimal digits without a sign.
pub trait FromDigits: Sized {
    // the value that is made of a number, if there is one; `None` is a number that does not fit 64 bits
    ghost made: { Option ℕ → Option Self };

    /// Returns the value that is made of a number, if there is one. `None` is a number that does not fit 64 bits.
    fn from_digits(number: Option<u64>) -> Option<Self>
        ensures { result ≡ made number };
}

/// Parses as many decimal digits as come next, and makes a value of their number. If no digit comes next, the error is `Unexpected`,
/// uncommitted. A number of which no value is made is `NumberRange` at its beginning, committed.
pub fn digits_parse<N: FromDigits, A>(stream: &mut TextStream) -> ParseResult<N, A>
    ensures { MayRead (λ s. s) (λ s v. v) (λ n. n) (digits_at N.made) stream.old result stream.new }
{
    if stream.has_failed() {
        return Err(refuse(stream, Cause::StreamFailed));
    }
    if !begins(stream, Class::Digit) {
        return Err(unexpected(stream, Expected::Digit));
    }
    let place = stream.position();
    let number = take_digits(stream, Radix::Decimal);
    match N::from_digits(number) {
        Some(value) => Ok(value),
        None => Err(out_of_range(stream, place)),
    }
}

/// A number of a range, as a part of a text such as `12`: as many decimal digits as come next, without a sign. It is printed in decimal. If
/// no digit comes next, parsing fails with `Unexpected`, uncommitted. A number that is not in the range is `NumberRange` at its beginning,
/// committed.
#[derive_where(PartialEq, Eq, Hash, Debug)]
pub struct Ranged<R: Range> {
    value: u64,
    #[derive_where(skip)]
    range: PhantomData<R>,
    ghost in_range: { is_between R.bounds.low R.bounds.high value ≡ true },
}

impl<R: Range> Copy for Ranged<R> {}

impl<R: Range> Clone for Ranged<R> {
    ghost is_clone = { λ n copy. copy ≡ n };

    fn clone(&self) -> Result<Ranged<R>, AllocError> {
        Ok(*self)
    }
}

impl<R: Range> Plain for Ranged<R> {}

impl<R: Range> Ranged<R> {
    ghost use Rattle.irtext_syntax.specs.RangeOf.{ranged_of};

    /// Returns the part of the number, or `None` if it is not in the range.
    pub fn new(value: u64) -> Option<Ranged<R>>
        ensures { result ≡ ranged_of R.Range.own value }
    {
        let (low, high) = R::bounds();
        if value < low || high < value {
            return None;
        }
        Some(Ranged {
            value,
            range: PhantomData,
        })
    }

    /// Returns the number.
    pub fn get(self) -> u64
        ensures { result ≡ self.value }
    {
        self.value
    }
}

impl<R: Range> FromDigits for Ranged<R> {
    ghost use Rattle.irtext_syntax.specs.RangeOf.{ranged_if};

    ghost made = { ranged_if R.Range.own };

    fn from_digits(number: Option<u64>) -> Option<Ranged<R>> {
        Ranged::new(number?)
    }
}

/// Appends a number in decimal. Its digits are put together in place, and appended at once. Fails only when out of memory.
pub fn write_decimal(value: u64, f: &mut String) -> Result<(), OutOfMemory>
    ensures text { OnOk result (string_bytes f.new ≡ string_bytes f.old ++ decimal value) }
    ensures appended { OnErr result (OnlyAppends f.old f.new) }
{
    let mut digits = Buffer::new();
    string::push_str(f, digits.format(value))?;
    Ok(())
}

impl<A, R: Range> Part<A> for Ranged<R> {
    ghost use Rattle.irtext_syntax.specs.Numbers.{ends_digits};
    ghost use Rattle.irtext_syntax.specs.RangeOf.{ranged_at};
    ghost use Rattle.irtext_syntax.specs.RangeLaws.{ranged_law, ranged_decides};

    ghost text = { record {
      reading = ranged_at R.Range.own;
      written = λ n. decimal n.value;
      ends = ends_digits;
    } };

    ghost sound = { record { law = ranged_law R.Range.own; decides = ranged_decides R.Range.own } };

    fn read(stream: &mut TextStream) -> ParseResult<Ranged<R>, A> {
        digits_parse(stream)
    }

    fn write_text(&self, f: &mut String) -> Result<(), OutOfMemory> {
        write_decimal(self.value, f)
    }
}

impl<A, R: Range> Item<A> for Ranged<R> {
    ghost use Rattle.irtext_syntax.specs.RangeLaws.{ranged_misses};

    ghost misses = { ranged_misses R.Range.own };
}

impl<A, R: Range> Last<A> for Ranged<R> {
    ghost use Rattle.irtext_syntax.specs.NumberLaws.{digits_last};

    ghost last = { digits_last };
}
