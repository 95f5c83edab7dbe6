//! Symbols, such as `@main` and `@".str.1"`.
ghost use Rattle.std.specs.Prelude.{◌≡◌, ◌++◌, OnOk, OnErr, string_bytes};
ghost use Rattle.std.specs.Str.{encode_utf8_all};
ghost use Rattle.irtext_base.specs.Appending.{OnlyAppends};
ghost use Rattle.irtext_tokens.specs.MustRead.{MayRead, MustRead};
ghost use Rattle.irtext_syntax.specs.QuotedParts.{characters_at};
ghost use Rattle.irtext_parts.specs.SymbolTexts.{bare_at, symbol_name_at, symbol_text_at, symbol_name};

use irtext_base::base::identifier::is_identifier;
use irtext_base::parsable::{CharStream, ParseResult, TextStream};
use irtext_base::result::{Cause, Expected};
use irtext_memory::{OutOfMemory, string};
use irtext_syntax::Characters;
use irtext_syntax::part::{Item, Last, Part, TryClone};
use irtext_tokens::irfmt::faults::{begins, committed, next_is, out_of_memory, refuse, unexpected};
use irtext_tokens::irfmt::parsers::{Class, skip_class, text_parse};
use irtext_tokens::printable::fmt_quoted;
use std::alloc::AllocError;

/// A symbol, as a part of a text such as `@main` or `@".str.1"`: `@` and an identifier, or `@` and a quoted text, which may be any. It is
/// printed with an identifier if its name is one, and otherwise with a quoted text. If `@` does not come next, parsing fails with
/// `Unexpected`, uncommitted. Every other error is committed: `Unexpected` if neither a quotation mark nor an identifier comes after it, and
/// those of quoted texts.
#[derive(PartialEq, Eq, Hash, Debug, Drop)]
pub struct Symbol {
    pub name: Characters,
}

impl TryClone for Symbol {
    fn try_clone(&self) -> Result<Symbol, AllocError> {
        let name = self.name.try_clone()?;
        Ok(Symbol { name })
    }
}

/// Parses an identifier, as its characters.
#[tactic(auto, unfolding(irtext_tokens::specs::Tokens::word_at))]
fn bare_parse<A>(stream: &mut TextStream) -> ParseResult<Characters, A>
    ensures { MayRead (λ s. s) (λ s v. v) (λ x. x) bare_at stream.old result stream.new }
{
    if stream.has_failed() {
        return Err(refuse(stream, Cause::StreamFailed));
    }
    if !begins(stream, Class::Beginning) {
        return Err(unexpected(stream, Expected::Identifier));
    }
    let place = stream.position();
    skip_class(stream, Class::Word);
    match String::from_str(stream.allocator(), stream.text_since(place)) {
        Ok(text) => Ok(Characters::new(text)),
        Err(_) => Err(out_of_memory(stream)),
    }
}

/// Parses a quoted text, as its characters.
fn quoted_parse<A>(stream: &mut TextStream) -> ParseResult<Characters, A>
    ensures { MayRead (λ s. s) (λ s v. v) (λ x. x) characters_at stream.old result stream.new }
{
    <Characters as Part<A>>::read(stream)
}

/// Parses a quoted text if a quotation mark comes next, and otherwise an identifier.
fn name_parse<A>(stream: &mut TextStream) -> ParseResult<Characters, A>
    ensures { MayRead (λ s. s) (λ s v. v) (λ x. x) symbol_name_at stream.old result stream.new }
{
    if next_is(stream, '"') {
        return quoted_parse(stream);
    }
    bare_parse(stream)
}

/// Parses a name as `name_parse` does, but every error is committed.
fn name_demanded<A>(stream: &mut TextStream) -> ParseResult<Characters, A>
    ensures { MustRead (λ s. s) (λ s v. v) (λ x. x) symbol_name_at stream.old result stream.new }
{
    let answer = name_parse(stream);
    committed(stream, answer)
}

/// Parses `@` and a name.
fn at_name_parse<A>(stream: &mut TextStream) -> ParseResult<Characters, A>
    ensures { MayRead (λ s. s) (λ s v. v) (λ x. x) symbol_text_at stream.old result stream.new }
{
    match text_parse(stream, "@") {
        Ok(()) => name_demanded(stream),
        Err(fault) => Err(fault),
    }
}

/// Appends a name as it is, if it is an identifier, and otherwise quoted.
fn write_name(name: &Characters, f: &mut String) -> Result<(), OutOfMemory>
    ensures text { OnOk result (string_bytes f.new ≡ string_bytes f.old ++ encode_utf8_all
        (symbol_name name.now.characters)) }
    ensures appended { OnErr result (OnlyAppends f.old f.new) }
{
    let text = name.as_str();
    if is_identifier(text) {
        string::push_str(f, text)?;
        return Ok(());
    }
    fmt_quoted(text, f)
}

impl<A> Part<A> for Symbol {
    ghost use Rattle.irtext_syntax.specs.NameTexts.{ends_word};
    ghost use Rattle.irtext_parts.specs.Symbols.{symbol_at, symbol_text};
    ghost use Rattle.irtext_parts.specs.SymbolLaws.{symbol_law, symbol_decides};

    ghost text = { record { reading = symbol_at; written = symbol_text; ends = ends_word } };

    ghost sound = { record { law = symbol_law; decides = symbol_decides } };

    fn read(stream: &mut TextStream) -> ParseResult<Symbol, A> {
        match at_name_parse(stream) {
            Ok(name) => Ok(Symbol { name }),
            Err(fault) => Err(fault),
        }
    }

    fn write_text(&self, f: &mut String) -> Result<(), OutOfMemory> {
        string::push_str(f, "@")?;
        write_name(&self.name, f)
    }
}

impl<A> Item<A> for Symbol {
    ghost use Rattle.irtext_parts.specs.SymbolLaws.{symbol_misses};

    ghost misses = { symbol_misses };
}

impl<A> Last<A> for Symbol {
    ghost use Rattle.irtext_syntax.specs.NameLaws.{word_last};

    ghost last = { word_last };
}
