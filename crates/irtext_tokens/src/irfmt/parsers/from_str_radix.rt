//! Number types that can be parsed.
ghost use Rattle.std.specs.Prelude.{◌≡◌, ◌<◌, ◌≤◌, ◌^◌, ◌+◌, ◌≤ℤ◌, ◌<ℤ◌, neg_ℤ, ℕ, ℤ, pos, Bool, cond, IfSome, List, Result, true, false};
ghost use Rattle.std.specs.Int.{w8, w16, w32, w64};
ghost use Rattle.std.specs.Option.{option_map};
ghost use Rattle.std.proofs.Common.{lit≤};
ghost use Rattle.std.specs.declared.num.ParseIntError.{ParseIntError};
ghost use Rattle.irtext_tokens.specs.Integers.{itself, signed_below, signed_parses, unsigned_below, unsigned_parses, within};

use std::num::ParseIntError;

/// A number type that can be parsed.
pub trait FromStrRadix: Sized {
    // the number as an integer
    ghost number: { Self → ℤ };
    // how many magnitudes fit the type, with a minus and without one
    ghost below: { Bool → ℕ };
    // the result of parsing the text in this radix
    ghost parses: { ℕ → List ℕ → Result Self ParseIntError → Type 0 };

    /// Parses a whole text as a number in this radix, as the type's own `from_str_radix` does: an optional `+`, or `-` for a signed type,
    /// and one digit or more. The errors are the type's own too: for an empty text, for a character that is not a digit, and for a number
    /// that does not fit.
    fn from_str_radix(src: &str, radix: u32) -> Result<Self, ParseIntError>
        requires low { 2 ≤ radix }
        requires high { radix ≤ 36 }
        ensures { parses radix src.now result };

    /// Returns the number with this magnitude, negated if `negative`, if it fits the type. With `negative`, no magnitude fits an unsigned
    /// type, not even 0.
    fn from_magnitude(negative: bool, magnitude: u64) -> Option<Self>
        ensures { option_map number result ≡ within below negative magnitude };

    // what fits the type fits 64 bits
    ghost narrow: { (negative : Bool) → below negative ≤ 2 ^ 64 };
}

/// Returns the magnitude if it is at most the greatest one, and not negated.
fn unsigned(negative: bool, magnitude: u64, greatest: u64) -> Option<u64>
    ensures value { option_map pos result ≡
        within (λ negative. cond negative 0 (greatest + 1)) negative magnitude }
    ensures high { IfSome result (λ n. n ≤ greatest) }
{
    if negative || magnitude > greatest {
        return None;
    }
    Some(magnitude)
}

/// Returns the integer with this magnitude if the magnitude is less than the limit; a negative one may also be equal to it.
fn signed(negative: bool, magnitude: u64, limit: u64) -> Option<i64>
    requires some { 0 < limit }
    requires fits { limit ≤ 2 ^ 63 }
    ensures value { result ≡ within (λ negative. cond negative (limit + 1) limit) negative magnitude }
    ensures low { IfSome result (λ z. neg_ℤ (pos limit) ≤ℤ z) }
    ensures high { IfSome result (λ z. z <ℤ pos limit) }
{
    if negative {
        if magnitude > limit {
            return None;
        }
        if magnitude == 0 {
            return Some(0);
        }
        return Some(-1 - (magnitude - 1) as i64);
    }
    if magnitude >= limit {
        return None;
    }
    Some(magnitude as i64)
}

impl FromStrRadix for u8 {
    ghost number = { pos };

    ghost below = { unsigned_below 8 };

    ghost parses = { unsigned_parses w8 };

    fn from_str_radix(src: &str, radix: u32) -> Result<u8, ParseIntError> {
        u8::from_str_radix(src, radix)
    }

    fn from_magnitude(negative: bool, magnitude: u64) -> Option<u8> {
        Some(unsigned(negative, magnitude, 255)? as u8)
    }

    ghost narrow = { elim [ true ↦ lit≤ tt | false ↦ lit≤ tt ] };
}

impl FromStrRadix for u16 {
    ghost number = { pos };

    ghost below = { unsigned_below 16 };

    ghost parses = { unsigned_parses w16 };

    fn from_str_radix(src: &str, radix: u32) -> Result<u16, ParseIntError> {
        u16::from_str_radix(src, radix)
    }

    fn from_magnitude(negative: bool, magnitude: u64) -> Option<u16> {
        Some(unsigned(negative, magnitude, 65535)? as u16)
    }

    ghost narrow = { elim [ true ↦ lit≤ tt | false ↦ lit≤ tt ] };
}

impl FromStrRadix for u32 {
    ghost number = { pos };

    ghost below = { unsigned_below 32 };

    ghost parses = { unsigned_parses w32 };

    fn from_str_radix(src: &str, radix: u32) -> Result<u32, ParseIntError> {
        u32::from_str_radix(src, radix)
    }

    fn from_magnitude(negative: bool, magnitude: u64) -> Option<u32> {
        Some(unsigned(negative, magnitude, 4294967295)? as u32)
    }

    ghost narrow = { elim [ true ↦ lit≤ tt | false ↦ lit≤ tt ] };
}

impl FromStrRadix for u64 {
    ghost number = { pos };

    ghost below = { unsigned_below 64 };

    ghost parses = { unsigned_parses w64 };

    fn from_str_radix(src: &str, radix: u32) -> Result<u64, ParseIntError> {
        u64::from_str_radix(src, radix)
    }

    fn from_magnitude(negative: bool, magnitude: u64) -> Option<u64> {
        Some(unsigned(negative, magnitude, 18446744073709551615)? as u64)
    }

    ghost narrow = { elim [ true ↦ lit≤ tt | false ↦ lit≤ tt ] };
}

impl FromStrRadix for usize {
    ghost number = { pos };

    ghost below = { unsigned_below 64 };

    ghost parses = { unsigned_parses w64 };

    fn from_str_radix(src: &str, radix: u32) -> Result<usize, ParseIntError> {
        usize::from_str_radix(src, radix)
    }

    fn from_magnitude(negative: bool, magnitude: u64) -> Option<usize> {
        Some(unsigned(negative, magnitude, 18446744073709551615)? as usize)
    }

    ghost narrow = { elim [ true ↦ lit≤ tt | false ↦ lit≤ tt ] };
}

impl FromStrRadix for i8 {
    ghost number = { itself };

    ghost below = { signed_below 8 };

    ghost parses = { signed_parses w8 };

    fn from_str_radix(src: &str, radix: u32) -> Result<i8, ParseIntError> {
        i8::from_str_radix(src, radix)
    }

    fn from_magnitude(negative: bool, magnitude: u64) -> Option<i8> {
        Some(signed(negative, magnitude, 128)? as i8)
    }

    ghost narrow = { elim [ true ↦ lit≤ tt | false ↦ lit≤ tt ] };
}

impl FromStrRadix for i16 {
    ghost number = { itself };

    ghost below = { signed_below 16 };

    ghost parses = { signed_parses w16 };

    fn from_str_radix(src: &str, radix: u32) -> Result<i16, ParseIntError> {
        i16::from_str_radix(src, radix)
    }

    fn from_magnitude(negative: bool, magnitude: u64) -> Option<i16> {
        Some(signed(negative, magnitude, 32768)? as i16)
    }

    ghost narrow = { elim [ true ↦ lit≤ tt | false ↦ lit≤ tt ] };
}

impl FromStrRadix for i32 {
    ghost number = { itself };

    ghost below = { signed_below 32 };

    ghost parses = { signed_parses w32 };

    fn from_str_radix(src: &str, radix: u32) -> Result<i32, ParseIntError> {
        i32::from_str_radix(src, radix)
    }

    fn from_magnitude(negative: bool, magnitude: u64) -> Option<i32> {
        Some(signed(negative, magnitude, 2147483648)? as i32)
    }

    ghost narrow = { elim [ true ↦ lit≤ tt | false ↦ lit≤ tt ] };
}

impl FromStrRadix for i64 {
    ghost number = { itself };

    ghost below = { signed_below 64 };

    ghost parses = { signed_parses w64 };

    fn from_str_radix(src: &str, radix: u32) -> Result<i64, ParseIntError> {
        i64::from_str_radix(src, radix)
    }

    fn from_magnitude(negative: bool, magnitude: u64) -> Option<i64> {
        Some(signed(negative, magnitude, 9223372036854775808)? as i64)
    }

    ghost narrow = { elim [ true ↦ lit≤ tt | false ↦ lit≤ tt ] };
}

impl FromStrRadix for isize {
    ghost number = { itself };

    ghost below = { signed_below 64 };

    ghost parses = { signed_parses w64 };

    fn from_str_radix(src: &str, radix: u32) -> Result<isize, ParseIntError> {
        isize::from_str_radix(src, radix)
    }

    fn from_magnitude(negative: bool, magnitude: u64) -> Option<isize> {
        Some(signed(negative, magnitude, 9223372036854775808)? as isize)
    }

    ghost narrow = { elim [ true ↦ lit≤ tt | false ↦ lit≤ tt ] };
}
