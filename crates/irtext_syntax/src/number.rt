//! Decimal numbers of every integer type.
ghost use Rattle.std.specs.Prelude.{◌≡◌, ◌↔◌, ℤ, pos, IsTrue, OnOk, OnErr, ◌++◌, string_bytes, true, refl};
ghost use Rattle.std.specs.Cmp.{on_equiv, on_per, unsigned_Decides, signed_Decides};
ghost use Rattle.std.specs.Fmt.{signed_decimal};
ghost use Rattle.irtext_base.specs.Appending.{OnlyAppends};
ghost use Rattle.irtext_tokens.specs.Integers.{itself};
ghost use Rattle.irtext_syntax.specs.Numbers.{fits, natural};

use crate::part::{Item, Last, Part, Plain};
use irtext_base::parsable::{ParseResult, TextStream};
use irtext_memory::{OutOfMemory, string};
use irtext_tokens::irfmt::parsers::{FromStrRadix, int_parse};
use itoa::Buffer;
use std::alloc::AllocError;
use std::fmt;
use std::hash::{Hash, Hasher};

/// An integer type whose numbers can be parsed and printed in decimal.
pub trait Integer: FromStrRadix + itoa::Integer + Eq + Hash + fmt::Debug {
    // the number with this value
    ghost of: { ℤ → Self };

    /// Does nothing. Its contract says that every number fits its type.
    fn fits(self)
        ensures { fits Self.below (Self.number self) ≡ true };

    ghost back: { (n : Self) → of (Self.number n) ≡ n };

    ghost printed: { (n : Self) → Self.text n ≡ signed_decimal (Self.number n) };

    ghost decides: { (x y : Self) → IsTrue (Self.eq x y) ↔ (x ≡ y) };
}

impl Integer for u8 {
    ghost of = { natural };

    fn fits(self) {}

    ghost back = { λ n. refl };

    ghost printed = { λ n. refl };

    ghost decides = { unsigned_Decides };
}

impl Integer for u16 {
    ghost of = { natural };

    fn fits(self) {}

    ghost back = { λ n. refl };

    ghost printed = { λ n. refl };

    ghost decides = { unsigned_Decides };
}

impl Integer for u32 {
    ghost of = { natural };

    fn fits(self) {}

    ghost back = { λ n. refl };

    ghost printed = { λ n. refl };

    ghost decides = { unsigned_Decides };
}

impl Integer for u64 {
    ghost of = { natural };

    fn fits(self) {}

    ghost back = { λ n. refl };

    ghost printed = { λ n. refl };

    ghost decides = { unsigned_Decides };
}

impl Integer for usize {
    ghost of = { natural };

    fn fits(self) {}

    ghost back = { λ n. refl };

    ghost printed = { λ n. refl };

    ghost decides = { unsigned_Decides };
}

impl Integer for i8 {
    ghost of = { itself };

    fn fits(self) {}

    ghost back = { λ n. refl };

    ghost printed = { λ n. refl };

    ghost decides = { signed_Decides };
}

impl Integer for i16 {
    ghost of = { itself };

    fn fits(self) {}

    ghost back = { λ n. refl };

    ghost printed = { λ n. refl };

    ghost decides = { signed_Decides };
}

impl Integer for i32 {
    ghost of = { itself };

    fn fits(self) {}

    ghost back = { λ n. refl };

    ghost printed = { λ n. refl };

    ghost decides = { signed_Decides };
}

impl Integer for i64 {
    ghost of = { itself };

    fn fits(self) {}

    ghost back = { λ n. refl };

    ghost printed = { λ n. refl };

    ghost decides = { signed_Decides };
}

impl Integer for isize {
    ghost of = { itself };

    fn fits(self) {}

    ghost back = { λ n. refl };

    ghost printed = { λ n. refl };

    ghost decides = { signed_Decides };
}

/// A number of an integer type, as a part of a text such as `-12`: an optional `+` or `-`, and as many decimal digits as come next. It is
/// printed in decimal. If there is no digit, parsing fails with `Unexpected`, committed after a sign and otherwise uncommitted. A number
/// that does not fit its type is `NumberRange` at its beginning, committed.
pub struct Number<N: FromStrRadix> {
    value: N,
    ghost in_range: { fits N.below (N.number value) ≡ true },
}

impl<N: FromStrRadix + Copy> Copy for Number<N> {}

impl<N: FromStrRadix + Copy> Clone for Number<N> {
    ghost is_clone = { λ n copy. copy ≡ n };

    fn clone(&self) -> Result<Number<N>, AllocError> {
        Ok(*self)
    }
}

impl<N: Integer> Plain for Number<N> {}

impl<N: Integer> fmt::Debug for Number<N> {
    fn fmt<W: fmt::Write>(&self, f: &mut fmt::Formatter<W>) -> fmt::Result {
        fmt::Debug::fmt(&self.value, f)
    }
}

impl<N: Integer> PartialEq for Number<N> {
    ghost eq = { λ x y. N.eq x.value y.value };

    ghost laws = { on_per (λ n. n.value) N.PartialEq.laws };

    fn eq(&self, other: &Self) -> bool {
        self.value == other.value
    }
}

impl<N: Integer> Eq for Number<N> {
    ghost laws = { on_equiv (λ n. n.value) N.Eq.laws };
}

impl<N: Integer> Hash for Number<N> {
    ghost hash_input = { λ n. N.hash_input n.value };

    ghost respects_eq = { λ x y e. N.respects_eq x.value y.value e };

    fn hash<H: Hasher>(&self, state: &mut H) {
        self.value.hash(state);
    }
}

impl<N: Integer> Number<N> {
    /// Makes a part of a number.
    pub fn new(value: N) -> Number<N>
        ensures { result.value ≡ value }
    {
        value.fits();
        Number { value }
    }

    /// Returns the number.
    pub fn get(self) -> N
        ensures { result ≡ self.value }
    {
        self.value
    }
}

/// Appends a number in decimal. Its digits are put together in place, and appended at once.
fn write_number<N: Integer>(value: N, f: &mut String) -> Result<(), OutOfMemory>
    ensures text { OnOk result (string_bytes f.new ≡ string_bytes f.old ++ signed_decimal (N.number value)) }
    ensures appended { OnErr result (OnlyAppends f.old f.new) }
{
    let mut digits = Buffer::new();
    string::push_str(f, digits.format(value))?;
    Ok(())
}

impl<A, N: Integer> Part<A> for Number<N> {
    ghost use Rattle.irtext_syntax.specs.Numbers.{ends_digits};
    ghost use Rattle.irtext_syntax.specs.NumberOf.{number_at};
    ghost use Rattle.irtext_syntax.specs.NumberLaws.{number_text, number_law, number_decides};

    ghost text = { record {
      reading = number_at N.FromStrRadix.own N.of;
      written = λ n. signed_decimal (N.number n.value);
      ends = ends_digits;
    } };

    ghost sound = { record {
      law = number_law N.FromStrRadix.own N.of N.narrow N.back;
      decides = number_decides N.FromStrRadix.own N.of N.narrow N.back N.eq N.decides;
    } };

    fn read(stream: &mut TextStream) -> ParseResult<Number<N>, A> {
        match int_parse(stream) {
            Ok(value) => Ok(Number::new(value)),
            Err(fault) => Err(fault),
        }
    }

    fn write_text(&self, f: &mut String) -> Result<(), OutOfMemory> {
        write_number(self.value, f)
    }
}

impl<A, N: Integer> Item<A> for Number<N> {
    ghost use Rattle.irtext_syntax.specs.NumberLaws.{number_misses};

    ghost misses = { number_misses N.FromStrRadix.own N.of N.narrow N.back };
}

impl<A, N: Integer> Last<A> for Number<N> {
    ghost use Rattle.irtext_syntax.specs.NumberLaws.{digits_last};

    ghost last = { digits_last };
}
