//! Numbers in hexadecimal digits.
ghost use Rattle.std.specs.Prelude.{◌≡◌, ◌<◌, ◌≤◌, ◌/◌, ℕ, pos, true, refl, OnOk, OnErr, ◌++◌, string_bytes};
ghost use Rattle.std.specs.Cmp.{on_equiv, on_per};
ghost use Rattle.irtext_base.specs.Appending.{OnlyAppends};
ghost use Rattle.std.specs.Fmt.{digits};
ghost use Rattle.irtext_parts.specs.HexTexts.{IsPower16, hex_text};

use irtext_base::parsable::{ParseResult, TextStream};
use irtext_memory::{OutOfMemory, string};
use irtext_syntax::Number;
use irtext_syntax::number::Integer;
use irtext_syntax::part::{Item, Last, Part, Plain};
use irtext_tokens::irfmt::parsers::{FromStrRadix, hex_int_parse};
use std::alloc::AllocError;
use std::fmt;
use std::hash::{Hash, Hasher};

/// An unsigned integer type whose numbers can be printed as bits.
pub trait Bits: Integer {
    /// Returns the number in 64 bits.
    fn bits(self) -> u64
        ensures { pos result ≡ Self.number self };

    ghost unsigned: { Self.below true ≡ 0 };
}

impl Bits for u32 {
    fn bits(self) -> u64 {
        self as u64
    }

    ghost unsigned = { refl };
}

impl Bits for u64 {
    fn bits(self) -> u64 {
        self
    }

    ghost unsigned = { refl };
}

/// A number in hexadecimal digits, as a part of a text such as `0x3FF0000000000000`: `0x`, and as many digits as come next, in either case.
/// It is printed in capital letters without leading zeros. If the first character is not `0`, parsing fails with `Unexpected`, uncommitted.
/// Every other error is committed: another character after it, no digit after `0x`, and `NumberRange` at the beginning of a number that
/// does not fit its type. So a float is kept by its bits (`f64::to_bits`), not-a-numbers and infinities too.
pub struct Hex<N: FromStrRadix> {
    pub number: Number<N>,
}

impl<N: FromStrRadix + Copy> Copy for Hex<N> {}

impl<N: FromStrRadix + Copy> Clone for Hex<N> {
    ghost is_clone = { λ h copy. copy ≡ h };

    fn clone(&self) -> Result<Hex<N>, AllocError> {
        Ok(*self)
    }
}

impl<N: Integer> Plain for Hex<N> {}

impl<N: Integer> fmt::Debug for Hex<N> {
    fn fmt<W: fmt::Write>(&self, f: &mut fmt::Formatter<W>) -> fmt::Result {
        fmt::Debug::fmt(&self.number, f)
    }
}

impl<N: Integer> PartialEq for Hex<N> {
    ghost eq = { λ x y. N.eq x.number.value y.number.value };

    ghost laws = { on_per (λ h. h.number.value) N.PartialEq.laws };

    fn eq(&self, other: &Self) -> bool {
        self.number == other.number
    }
}

impl<N: Integer> Eq for Hex<N> {
    ghost laws = { on_equiv (λ h. h.number.value) N.Eq.laws };
}

impl<N: Integer> Hash for Hex<N> {
    ghost hash_input = { λ h. N.hash_input h.number.value };

    ghost respects_eq = { λ x y e. N.respects_eq x.number.value y.number.value e };

    fn hash<H: Hasher>(&self, state: &mut H) {
        self.number.hash(state);
    }
}

impl<N: Bits> Hex<N> {
    /// Makes a part of a number.
    pub fn new(value: N) -> Hex<N>
        ensures { result.number.value ≡ value }
    {
        Hex {
            number: Number::new(value),
        }
    }

    /// Returns the number.
    pub fn get(self) -> N
        ensures { result ≡ self.number.value }
    {
        self.number.get()
    }
}

/// The digits of hexadecimal numbers.
const DIGITS: &str = "0123456789ABCDEF";

/// Returns a number below 16 as one hexadecimal digit.
fn digit(number: u64) -> &'static str
    requires { number < 16 }
    ensures { result.now ≡ digits 16 true number }
{
    let from = number as usize;
    &DIGITS[from..from + 1]
}

/// Returns the power of 16 at which the first digit of a number stands.
fn first_place(bits: u64) -> u64
    ensures some { 0 < result }
    ensures power { IsPower16 result }
    ensures first { bits / result < 16 }
    ensures led { 1 < result → 1 ≤ bits / result }
{
    let mut place = 1;
    while bits / place >= 16 {
        place *= 16;
    }
    place
}

/// Appends the digits of a number, in capital letters, without leading zeros.
fn write_digits(bits: u64, f: &mut String) -> Result<(), OutOfMemory>
    ensures text { OnOk result (string_bytes f.new ≡ string_bytes f.old ++ digits 16 true bits) }
    ensures appended { OnErr result (OnlyAppends f.old f.new) }
{
    let mut place = first_place(bits);
    string::push_str(f, digit(bits / place))?;
    while place > 1 {
        place /= 16;
        string::push_str(f, digit(bits / place % 16))?;
    }
    Ok(())
}

/// Appends `0x` and the digits of a number, in capital letters.
fn write_hex(bits: u64, f: &mut String) -> Result<(), OutOfMemory>
    ensures text { OnOk result (string_bytes f.new ≡ string_bytes f.old ++ hex_text bits) }
    ensures appended { OnErr result (OnlyAppends f.old f.new) }
{
    string::push_str(f, "0x")?;
    write_digits(bits, f)
}

impl<A, N: Bits> Part<A> for Hex<N> {
    ghost use Rattle.irtext_parts.specs.HexTexts.{ends_hex};
    ghost use Rattle.irtext_parts.specs.HexOf.{hex_at, hex_written};
    ghost use Rattle.irtext_parts.specs.HexLaws.{hex_law, hex_decides};

    ghost text = { record {
      reading = hex_at N.FromStrRadix.own N.of;
      written = hex_written N.FromStrRadix.own;
      ends = ends_hex;
    } };

    ghost sound = { record {
      law = hex_law N.FromStrRadix.own N.of N.narrow N.back N.unsigned;
      decides = hex_decides N.FromStrRadix.own N.of N.narrow N.back N.unsigned N.eq N.decides;
    } };

    fn read(stream: &mut TextStream) -> ParseResult<Hex<N>, A> {
        match hex_int_parse(stream) {
            Ok(value) => Ok(Hex::new(value)),
            Err(fault) => Err(fault),
        }
    }

    fn write_text(&self, f: &mut String) -> Result<(), OutOfMemory> {
        write_hex(self.get().bits(), f)
    }
}

impl<A, N: Bits> Item<A> for Hex<N> {
    ghost use Rattle.irtext_parts.specs.HexLaws.{hex_misses};

    ghost misses = { hex_misses N.FromStrRadix.own N.of N.narrow N.back N.unsigned };
}

impl<A, N: Bits> Last<A> for Hex<N> {
    ghost use Rattle.irtext_parts.specs.HexLaws.{hex_last};

    ghost last = { hex_last };
}
