//! The name that a wrong one was perhaps meant to be.
ghost use Rattle.std.specs.Prelude.{◌≡◌, IfOk, map, length, option_copied};
ghost use Rattle.std.specs.Str.{chars};
ghost use Rattle.irtext_diagnostics.specs.Suggestions.{closest};

use std::alloc::{AllocError, Global};
use strsim::levenshtein;

/// How many characters a word has at most that is near to another one.
const LONGEST: usize = 64;

/// Returns the candidate that a wrong word was perhaps meant to be, or nothing. It is the one with the least distance from the word, and of
/// several the first. The distance is the least number of characters to insert, to remove or to replace, and at most a third of the number of
/// the word's characters, or 1 for a word of fewer than three. Nothing is near a word of more than 64 characters, so a text can make no call
/// take long. The only error is out of memory.
///
/// ```
/// closest(alloc, "bulitin", &["test", "builtin"])?    // Some("builtin")
/// ```
pub fn closest<'a>(
    alloc: Global,
    word: &str,
    candidates: &[&'a str],
) -> Result<Option<&'a str>, AllocError>
    ensures { IfOk result (λ found. option_copied found ≡ closest word.now (map (λ c. c.now) candidates.now)) }
{
    let characters = count(word);
    if characters > LONGEST {
        return Ok(None);
    }
    let mut bound = characters.max(3) / 3 + 1;
    let mut found = None;
    for candidate in candidates {
        let distance = levenshtein(alloc, word, candidate)?;
        if distance < bound {
            bound = distance;
            found = Some(*candidate);
        }
    }
    Ok(found)
}

/// Returns the number of characters of a text.
fn count(text: &str) -> usize
    ensures { result ≡ length (chars text.now) }
{
    text.chars().count()
}
