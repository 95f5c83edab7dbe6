//! Fixed texts of parts: between two parts, and around one.
ghost use Rattle.std.specs.Prelude.{◌≡◌, ◌++◌, ℕ, List, OnOk, true, string_bytes};
ghost use Rattle.irtext_base.specs.Answers.{Answers, unless_failed};
ghost use Rattle.irtext_base.specs.Faults.{characters};
ghost use Rattle.irtext_tokens.specs.Demanded.{spaced_at};
ghost use Rattle.irtext_tokens.specs.MustRead.{MayRead, MustRead};
ghost use Rattle.irtext_syntax.specs.FixedTexts.{BetweenLaw, BracketsLaw, open_at, close_at};

use crate::part::Part;
use irtext_base::parsable::{CharStream, ParseResult, TextStream};
use irtext_base::result::Cause;
use irtext_tokens::irfmt::demanded::{spaced_text_demanded, text_demanded};
use irtext_tokens::irfmt::faults::refuse;
use irtext_tokens::irfmt::parsers::{skip_white_space, text_parse};

/// A fixed text between two parts, such as `->`. White space before and after it is skipped when it is parsed, and it is printed with the
/// spaces that it usually has. Every law is computed: `ghost law = { record { back = λ rest. refl; .. } }`.
pub trait Between {
    // the text, as it is parsed
    ghost text: { List ℕ };
    // the text with the spaces around it, as it is printed
    ghost printed: { List ℕ };

    /// Returns the text, as it is parsed.
    fn text() -> &'static str
        ensures { characters result.now ≡ text };

    /// Returns the text with the spaces around it, as it is printed.
    fn printed() -> &'static str
        ensures { result.now ≡ printed };

    ghost law: { BetweenLaw text printed };
}

/// Says that a fixed text can come right after a part, without continuing it. It is so for each part if the text is printed as `,`, `;` or
/// `:`; for others it is computed.
pub trait After<A, P: Part<A>>: Between {
    ghost after: { (rest : List ℕ) → P.text.ends (Self.printed ++ rest) ≡ true };
}

/// Brackets around a part. White space inside of them is skipped when they are parsed, and they are printed with the spaces that they
/// usually have. The closing one is a closing character, `)`, `]`, `}` or `>`. Every law is computed.
pub trait Brackets {
    // the opening bracket
    ghost opener: { List ℕ };
    // the closing bracket
    ghost closer: { List ℕ };
    // the opening bracket, and the space after it
    ghost opener_printed: { List ℕ };
    // the closing bracket, and the space before it
    ghost closer_printed: { List ℕ };

    /// Returns the opening bracket.
    fn opening() -> &'static str
        ensures { characters result.now ≡ opener };

    /// Returns the closing bracket.
    fn closing() -> &'static str
        ensures { characters result.now ≡ closer };

    /// Returns the opening bracket as it is printed.
    fn printed_opening() -> &'static str
        ensures { result.now ≡ opener_printed };

    /// Returns the closing bracket as it is printed.
    fn printed_closing() -> &'static str
        ensures { result.now ≡ closer_printed };

    ghost law: { BracketsLaw opener closer opener_printed closer_printed };
}

/// Parses a fixed text between two parts, with optional white space before and after it. Every error is committed.
pub fn between_demanded<W: Between, A>(stream: &mut TextStream) -> ParseResult<(), A>
    ensures { MustRead (λ s. s) (λ s v. v) (λ u. u) (spaced_at W.text) stream.old result stream.new }
{
    spaced_text_demanded(stream, W::text())
}

/// Parses an opening bracket, and skips white space after it. If it does not come next, the error is `Unexpected`, uncommitted.
pub fn open_parse<B: Brackets, A>(stream: &mut TextStream) -> ParseResult<(), A>
    ensures { MayRead (λ s. s) (λ s v. v) (λ u. u) (open_at B.opener) stream.old result stream.new }
{
    match text_parse(stream, B::opening()) {
        Ok(()) => {
            skip_white_space(stream);
            Ok(())
        }
        Err(fault) => Err(fault),
    }
}

/// Parses a closing bracket after optional white space. Every error is committed.
pub fn close_demanded<B: Brackets, A>(stream: &mut TextStream) -> ParseResult<(), A>
    ensures { MustRead (λ s. s) (λ s v. v) (λ u. u) (close_at B.closer) stream.old result stream.new }
{
    if stream.has_failed() {
        return Err(refuse(stream, Cause::StreamFailed));
    }
    skip_white_space(stream);
    text_demanded(stream, B::closing())
}
