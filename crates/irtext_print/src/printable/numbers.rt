//! Numbers in decimal digits. These calls fail only if out of memory; what was appended up to the error remains.
ghost use Rattle.std.specs.Prelude.{◌≡◌, ◌+◌, ◌/◌, ◌%◌, ◌<◌, ◌≤◌, ◌∷◌, ◌++◌, [], OnOk, OnErr, IfSome, decimal, length, string_bytes};
ghost use Rattle.std.specs.Fmt.{signed_decimal};
ghost use Rattle.std.specs.Str.{IsAscii};
ghost use Rattle.irtext_base.specs.Appending.{OnlyAppends};
ghost use Rattle.irtext_print.specs.Printers.Appended.{AppendsText};

use arrayvec::ArrayString;
use irtext_memory::{OutOfMemory, string};
use itoa::{Buffer, Integer};

/// The numbers below 100, two digits each.
const PAIRS: &str = "\
    0001020304050607080910111213141516171819202122232425262728293031323334353637383940414243444546474849\
    5051525354555657585960616263646566676869707172737475767778798081828384858687888990919293949596979899";

/// Returns a number below 100 as two digits.
#[inline(always)]
fn pair(number: usize) -> &'static str
    requires { number < 100 }
    ensures value { result.now ≡ (48 + number / 10) ∷ (48 + number % 10) ∷ [] }
    ensures len { length result.now ≡ 2 }
{
    let from = 2 * number;
    &PAIRS[from..from + 2]
}

/// Returns a number below 10 as one digit.
#[inline(always)]
fn digit(number: usize) -> &'static str
    requires { number < 10 }
    ensures value { result.now ≡ decimal number }
    ensures len { length result.now ≡ 1 }
{
    let from = 2 * number + 1;
    &PAIRS[from..from + 1]
}

/// Appends a number below 100.
#[inline(always)]
fn fmt_short(number: usize, f: &mut String) -> Result<(), OutOfMemory>
    requires { number < 100 }
    ensures text { OnOk result (string_bytes f.new ≡ string_bytes f.old ++ decimal number) }
    ensures appended { OnErr result (OnlyAppends f.old f.new) }
{
    if number >= 10 {
        string::push_str(f, pair(number))?;
        return Ok(());
    }
    string::push_str(f, digit(number))?;
    Ok(())
}

/// A text of at most 64 bytes that is put together in place, and appended at once.
pub(crate) type InPlace = ArrayString<64>;

/// Puts a number below 100 at the end of a text.
#[inline(always)]
fn put_short(number: usize, text: &mut InPlace)
    requires few { number < 100 }
    requires room { length text.old.bytes ≤ 62 }
    ensures bytes { text.new.bytes ≡ text.old.bytes ++ decimal number }
    ensures len { length text.new.bytes ≤ length text.old.bytes + 2 }
{
    if number >= 10 {
        text.push_str(pair(number));
        return;
    }
    text.push_str(digit(number));
}

/// Puts a number below 1,000,000 at the end of a text.
#[inline(always)]
pub(crate) fn put_number(number: usize, text: &mut InPlace)
    requires few { number < 1000000 }
    requires room { length text.old.bytes ≤ 58 }
    ensures bytes { text.new.bytes ≡ text.old.bytes ++ decimal number }
    ensures len { length text.new.bytes ≤ length text.old.bytes + 6 }
{
    if number < 100 {
        put_short(number, text);
        return;
    }
    if number < 10_000 {
        put_short(number / 100, text);
        text.push_str(pair(number % 100));
        return;
    }
    let high = number / 100;
    put_short(high / 100, text);
    text.push_str(pair(high % 100));
    text.push_str(pair(number % 100));
}

/// Returns a number as it is put in place, if it has at most six digits and no sign.
#[inline(always)]
pub(crate) fn in_place(number: &i32) -> Option<usize>
    ensures value { IfSome result (λ digits. decimal digits ≡ signed_decimal number.now) }
    ensures few { IfSome result (λ digits. digits < 1000000) }
{
    let number = *number;
    if number < 0 {
        return None;
    }
    let digits = number as usize;
    if digits >= 1_000_000 {
        return None;
    }
    Some(digits)
}

/// Appends three texts of at most eight bytes together.
#[inline(always)]
fn fmt_joined(front: &str, high: &str, low: &str, f: &mut String) -> Result<(), OutOfMemory>
    requires { length front.now + (length high.now + length low.now) ≤ 8 }
    ensures text { OnOk result (string_bytes f.new ≡ string_bytes f.old ++ (front.now ++ (high.now ++ low.now))) }
    ensures appended { OnErr result (OnlyAppends f.old f.new) }
{
    let mut joined: ArrayString<8> = ArrayString::new();
    joined.push_str(front);
    joined.push_str(high);
    joined.push_str(low);
    string::push_str(f, joined.as_str())?;
    Ok(())
}

/// Appends a text of at most four bytes and a number below 10,000 together.
#[inline(always)]
fn fmt_led(front: &str, number: usize, f: &mut String) -> Result<(), OutOfMemory>
    requires few { number < 10000 }
    requires short { length front.now ≤ 4 }
    ensures text { OnOk result (string_bytes f.new ≡ string_bytes f.old ++ (front.now ++ decimal number)) }
    ensures appended { OnErr result (OnlyAppends f.old f.new) }
{
    if number < 10 {
        return fmt_joined(front, "", digit(number), f);
    }
    if number < 100 {
        return fmt_joined(front, "", pair(number), f);
    }
    if number < 1000 {
        return fmt_joined(front, digit(number / 100), pair(number % 100), f);
    }
    fmt_joined(front, pair(number / 100), pair(number % 100), f)
}

/// Appends a number below 10,000. Its digits are appended at once.
#[inline(always)]
fn fmt_small(number: usize, f: &mut String) -> Result<(), OutOfMemory>
    requires { number < 10000 }
    ensures text { OnOk result (string_bytes f.new ≡ string_bytes f.old ++ decimal number) }
    ensures appended { OnErr result (OnlyAppends f.old f.new) }
{
    if number < 100 {
        return fmt_short(number, f);
    }
    fmt_led("", number, f)
}

/// Appends a number of any size, with its sign if it is negative.
#[inline(never)]
fn fmt_any<I: Integer>(number: I, f: &mut String) -> Result<(), OutOfMemory>
    ensures text { OnOk result (AppendsText f.old (I.text number) f.new) }
    ensures appended { OnErr result (OnlyAppends f.old f.new) }
{
    let mut digits = Buffer::new();
    string::push_str(f, digits.format(number))?;
    Ok(())
}

/// Appends a number from 10,000 on.
#[inline(never)]
fn fmt_large(number: u64, f: &mut String) -> Result<(), OutOfMemory>
    requires { 10000 ≤ number }
    ensures text { OnOk result (AppendsText f.old (decimal number) f.new) }
    ensures appended { OnErr result (OnlyAppends f.old f.new) }
{
    if number >= 1_000_000 {
        return fmt_any(number, f);
    }
    let (high, low) = (number as usize / 100, number as usize % 100);
    fmt_short(high / 100, f)?;
    fmt_joined("", pair(high % 100), pair(low), f)
}

/// Whether so many more bytes fit without an allocation. Nothing rests on the answer: a call that appends tests again.
#[inline(always)]
fn has_room(f: &String, bytes: usize) -> bool {
    f.capacity().wrapping_sub(f.len()) >= bytes
}

/// Appends a number below 10,000 where no room may be left.
#[cold]
#[inline(never)]
fn fmt_slowly(number: usize, f: &mut String) -> Result<(), OutOfMemory>
    requires { number < 10000 }
    ensures text { OnOk result (string_bytes f.new ≡ string_bytes f.old ++ decimal number) }
    ensures appended { OnErr result (OnlyAppends f.old f.new) }
{
    fmt_small(number, f)
}

/// Appends a number. Numbers below 10,000 are appended by slices of a fixed text.
#[inline(never)]
pub fn fmt_number(number: u64, f: &mut String) -> Result<(), OutOfMemory>
    ensures text { OnOk result (AppendsText f.old (decimal number) f.new) }
    ensures appended { OnErr result (OnlyAppends f.old f.new) }
{
    if number >= 10_000 {
        return fmt_large(number, f);
    }
    if has_room(f, 4) {
        return fmt_small(number as usize, f);
    }
    fmt_slowly(number as usize, f)
}

/// Appends a text of at most four ASCII bytes and a number, together if the number is below 10,000.
#[inline(always)]
pub fn fmt_led_number(front: &str, number: u64, f: &mut String) -> Result<(), OutOfMemory>
    requires short { length front.now ≤ 4 }
    requires ascii { IsAscii front.now }
    ensures text { OnOk result (AppendsText f.old (front.now ++ decimal number) f.new) }
    ensures appended { OnErr result (OnlyAppends f.old f.new) }
{
    if number < 10_000 && has_room(f, 8) {
        return fmt_led(front, number as usize, f);
    }
    string::push_str(f, front)?;
    fmt_number(number, f)
}

/// Appends a number that may be negative, with its sign.
#[inline(always)]
pub fn fmt_signed(number: i32, f: &mut String) -> Result<(), OutOfMemory>
    ensures text { OnOk result (AppendsText f.old (signed_decimal number) f.new) }
    ensures appended { OnErr result (OnlyAppends f.old f.new) }
{
    if number >= 0 {
        return fmt_number(number as u64, f);
    }
    fmt_any(number, f)
}
