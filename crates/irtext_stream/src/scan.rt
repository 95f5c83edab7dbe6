//! Scans a text from a byte offset: where a run of characters of a class ends, and whether a given text comes next.
ghost use Rattle.std.specs.Prelude.{◌≡◌, ◌≤◌, MatchBool, length, drop};
ghost use Rattle.std.specs.Str.{chars, IsUtf8};
ghost use Rattle.irtext_stream.specs.Text.{BeginsOtherwise, is_plain};
ghost use Rattle.irtext_stream.specs.Classes.{has};
ghost use Rattle.irtext_stream.specs.Stream.{first_of};
ghost use Rattle.irtext_stream.specs.Index.{Ends, ComesAt, IsBoundary, width_of};

use crate::class::Class;
use memchr::memchr2;

/// Decodes the character at an offset. Returns `None` at the end of the text.
#[cold]
pub(crate) fn decode(text: &str, at: usize) -> Option<char>
    requires within { at ≤ length text.now }
    requires utf8 { IsUtf8 (drop at text.now) }
    ensures { result ≡ first_of (chars (drop at text.now)) }
{
    text[at..].chars().next()
}

/// Returns the number of bytes of the character at an offset if it is of the class, and otherwise 0.
fn width_at(text: &str, at: usize, class: Class) -> usize
    requires within { at ≤ length text.now }
    requires utf8 { IsUtf8 (drop at text.now) }
    ensures { result ≡ width_of (has class) (chars (drop at text.now)) }
{
    match decode(text, at) {
        Some(c) => if class.has(c) { c.len_utf8() } else { 0 },
        None => 0,
    }
}

/// Returns the offset at which the run of characters of the class that begins at `from` ends.
#[inline(always)]
pub(crate) fn end_of(text: &str, from: usize, class: Class) -> usize
    requires { IsBoundary text.now from }
    ensures { Ends text.now from (has class) result }
{
    if let Class::Plain = class {
        return end_of_plain(text, from);
    }
    end_of_run(text, from, class)
}

/// The same, byte by byte up to the first character that is not ASCII.
#[inline(always)]
fn end_of_run(text: &str, from: usize, class: Class) -> usize
    requires { IsBoundary text.now from }
    ensures { Ends text.now from (has class) result }
{
    let mut at = from;
    while let Some(b) = text.as_bytes().get(at) {
        if !class.has_byte(*b) {
            if *b < 128 {
                return at;
            }
            return end_of_wide(text, at, class);
        }
        at += 1;
    }
    at
}

/// The same, character by character.
#[cold]
fn end_of_wide(text: &str, from: usize, class: Class) -> usize
    requires { IsBoundary text.now from }
    ensures { Ends text.now from (has class) result }
{
    let mut at = from;
    loop {
        let width = width_at(text, at, class);
        if width == 0 {
            return at;
        }
        at += width;
    }
}

/// The same for `Class::Plain`. All characters but `"` and `\` are plain, so only these two bytes are searched.
fn end_of_plain(text: &str, from: usize) -> usize
    requires { IsBoundary text.now from }
    ensures { Ends text.now from is_plain result }
{
    match memchr2(b'"', b'\\', &text.as_bytes()[from..]) {
        Some(n) => from + n,
        None => text.len(),
    }
}

/// Whether `word` is in the text at an offset.
#[inline(always)]
pub(crate) fn comes_at(text: &str, at: usize, word: &str) -> bool
    requires { IsBoundary text.now at }
    ensures { MatchBool result (ComesAt text.now at word.now) (BeginsOtherwise (chars word.now)
        (chars (drop at text.now))) }
{
    let bytes = text.as_bytes();
    let word = word.as_bytes();
    if word.len() == 1 {
        return match bytes.get(at) {
            Some(b) => *b == word[0],
            None => false,
        };
    }
    bytes[at..].starts_with(word)
}
