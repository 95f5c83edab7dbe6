//! Heads that are fixed texts, such as `>`, and how lists of trees begin and go on.
ghost use Rattle.std.specs.Prelude.{◌≡◌, ◌++◌, ◌∷◌, [], OnOk, OnErr, string_bytes};
ghost use Rattle.std.specs.Str.{encode_utf8_all};
ghost use Rattle.irtext_base.specs.Appending.{OnlyAppends};
ghost use Rattle.irtext_base.specs.Faults.{characters};
ghost use Rattle.irtext_tokens.specs.Infix.{◌▷◌};
ghost use Rattle.irtext_tokens.specs.MustRead.{MayRead, MustRead};
ghost use Rattle.irtext_tokens.specs.Tokens.{space_at};
ghost use Rattle.irtext_tree.specs.Marks.{mark_at, more_at, opened_at};

use irtext_base::parsable::{CharStream, ParseResult, TextStream};
use irtext_base::result::Cause;
use irtext_memory::OutOfMemory;
use irtext_syntax::part::Part;
use irtext_syntax::table::{write_row, write_word};
use irtext_tokens::irfmt::demanded::text_demanded;
use irtext_tokens::irfmt::faults::{next_is, refuse};
use irtext_tokens::irfmt::parsers::{skip_white_space, text_parse};

/// Parses a fixed text, as `>`, and returns the head. If it does not come next, the error is `Unexpected`, uncommitted.
pub fn mark_parse<H: Drop, A>(stream: &mut TextStream, text: &str, head: H) -> ParseResult<H, A>
    ensures { MayRead (λ s. s) (λ s v. v) (λ x. x) (mark_at (characters text.now) head) stream.old result stream.new }
{
    match text_parse(stream, text) {
        Ok(()) => Ok(head),
        Err(fault) => Err(fault),
    }
}

/// Parses a required fixed text after optional white space, as `<` after `my.list`, and returns the head. If it does not come next, the
/// error is `Unexpected`, committed.
pub fn opening_parse<H: Drop, A>(stream: &mut TextStream, text: &str, head: H) -> ParseResult<H, A>
    ensures { MustRead (λ s. s) (λ s v. v) (λ x. x) (space_at ▷ mark_at (characters text.now) head) stream.old result stream.new }
{
    if stream.has_failed() {
        return Err(refuse(stream, Cause::StreamFailed));
    }
    skip_white_space(stream);
    text_demanded(stream, text)?;
    Ok(head)
}

/// Parses what comes after an item of a list, as `,` or `>`: the separator, for which `more` is returned, or the closing text, for which
/// `end` is. If neither comes next, the error is `Unexpected` with the closing text, uncommitted.
pub fn more_parse<H: Drop, A>(
    stream: &mut TextStream,
    separator: char,
    more: H,
    closer: &str,
    end: H,
) -> ParseResult<H, A>
    ensures { MayRead (λ s. s) (λ s v. v) (λ x. x) (more_at separator more (characters closer.now) end)
        stream.old result stream.new }
{
    if stream.has_failed() {
        return Err(refuse(stream, Cause::StreamFailed));
    }
    if next_is(stream, separator) {
        let _ = stream.take();
        return Ok(more);
    }
    mark_parse(stream, closer, end)
}

/// Parses the opening text of a list of trees after optional white space, as `<`, and returns `filled`. If the closing character comes next, as
/// in `<>`, it is parsed too, and `empty` is returned. If the opening text does not come, the error is `Unexpected`, committed.
pub fn opened_parse<H: Drop, A>(
    stream: &mut TextStream,
    opener: &str,
    filled: H,
    closer: char,
    empty: H,
) -> ParseResult<H, A>
    ensures { MustRead (λ s. s) (λ s v. v) (λ x. x) (opened_at (characters opener.now) filled closer empty)
        stream.old result stream.new }
{
    if stream.has_failed() {
        return Err(refuse(stream, Cause::StreamFailed));
    }
    skip_white_space(stream);
    text_demanded(stream, opener)?;
    skip_white_space(stream);
    if next_is(stream, closer) {
        let _ = stream.take();
        return Ok(empty);
    }
    Ok(filled)
}

/// Appends a word, a space, a part and a space, as `my.array <4, `. Fails only when out of memory. The text that was there before stands
/// then too, and what was appended up to the error remains.
pub fn write_spaced_row<P: Part<A>, A>(
    word: &str,
    part: &P,
    f: &mut String,
) -> Result<(), OutOfMemory>
    ensures text { OnOk result (string_bytes f.new ≡ string_bytes f.old ++ encode_utf8_all
        (characters word.now ++ (32 ∷ (P.text.written part.now ++ (32 ∷ []))))) }
    ensures appended { OnErr result (OnlyAppends f.old f.new) }
{
    write_row::<P, A>(word, part, f)?;
    write_word(" ", f)?;
    Ok(())
}
