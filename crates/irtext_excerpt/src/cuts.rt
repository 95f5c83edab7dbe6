//! Long lines: what an excerpt shows of them.
ghost use Rattle.std.specs.Prelude.{◌≡◌, ◌≤◌, nat_lt, take, drop, length};
ghost use Rattle.std.specs.Str.{chars};
ghost use Rattle.irtext_excerpt.specs.Excerpt.{columns, shown, beginning, ending, first_shown, last_shown};

use crate::characters::shown_columns;
use crate::lines::{count, split_after};

/// How many characters of a line an excerpt shows at most before the caret, and as many from it on; and how many columns these take at most.
const REACH: usize = 60;

/// Returns the end of a text that an excerpt shows before the caret.
pub(crate) fn last_shown(text: &str) -> &str
    ensures { chars result.now ≡ last_shown (chars text.now) }
{
    let (_, end) = split_after(text, count(text).saturating_sub(REACH));
    split_after(end, excess(end)).1
}

/// Returns the beginning of a text that an excerpt shows from the caret on.
pub(crate) fn first_shown(text: &str) -> &str
    ensures { chars result.now ≡ first_shown (chars text.now) }
{
    let (front, _) = split_after(text, REACH);
    split_after(front, fitting(front)).0
}

/// Whether a part has fewer characters than the whole.
pub(crate) fn is_cut(part: &str, whole: &str) -> bool
    ensures { result ≡ nat_lt (length (chars part.now)) (length (chars whole.now)) }
{
    count(part) < count(whole)
}

/// Returns how many characters have to go from the beginning of a short text until what is left fits.
fn excess(text: &str) -> usize
    requires { length (chars text.now) ≤ 60 }
    ensures { drop result (chars text.now) ≡ ending (chars text.now) }
{
    let mut width = width(text);
    let mut passed = 0;
    for c in text.chars() {
        if width <= REACH {
            return passed;
        }
        width -= shown_columns(c);
        passed += 1;
    }
    passed
}

/// Returns how many characters at the beginning of a short text fit.
fn fitting(text: &str) -> usize
    requires { length (chars text.now) ≤ 60 }
    ensures { take result (chars text.now) ≡ beginning 60 (chars text.now) }
{
    let mut room = REACH;
    let mut passed = 0;
    for c in text.chars() {
        let columns = shown_columns(c);
        if room < columns {
            return passed;
        }
        room -= columns;
        passed += 1;
    }
    passed
}

/// Returns how many columns a short text takes as it is shown.
fn width(text: &str) -> usize
    requires { length (chars text.now) ≤ 60 }
    ensures { result ≡ columns (shown (chars text.now)) }
{
    let mut width = 0;
    for c in text.chars() {
        width += shown_columns(c);
    }
    width
}
