//! Formats written as words, one for each directive: `operand.0`, `operands`, `successor.0`, `successors`, `attribute.KEY`,
//! `dictionary`, `result.0`, `region.0`, `regions`, `symbol`, and `literal.TEXT`. The word `canonical` alone is the canonical form.

use crate::said::checked;
use pliron_text::base::Identifier;
use pliron_text::format::{Directive, OpFormat};
use std::alloc::{AllocError, Global};

/// Returns the directive that a word without a dot denotes.
fn whole(word: &str) -> Option<Directive> {
    match word {
        "operands" => Some(Directive::Operands),
        "successors" => Some(Directive::Successors),
        "dictionary" => Some(Directive::AttrDict),
        "regions" => Some(Directive::Regions),
        "symbol" => Some(Directive::SymbolHeader),
        _ => None,
    }
}

/// Returns the directive of this kind with an index.
fn placed(kind: &str, place: usize) -> Option<Directive> {
    match kind {
        "operand" => Some(Directive::Operand(place)),
        "successor" => Some(Directive::Successor(place)),
        "result" => Some(Directive::ResultType(place)),
        "region" => Some(Directive::Region(place)),
        _ => None,
    }
}

/// Returns the directive of this kind with a text.
fn with_text(alloc: Global, kind: &str, text: &str) -> Result<Directive, AllocError> {
    if kind == "literal" {
        return Ok(Directive::Literal(String::from_str(alloc, text)?));
    }
    if kind == "attribute" {
        return Ok(Directive::Attr(checked(Identifier::try_new(alloc, text))?));
    }
    match text.parse::<usize>() {
        Ok(place) => placed(kind, place).ok_or(AllocError),
        Err(_) => Err(AllocError),
    }
}

/// Returns the directive that a word denotes.
fn directive(alloc: Global, word: &str) -> Result<Directive, AllocError> {
    match word.split_once('.') {
        Some((kind, text)) => with_text(alloc, kind, text),
        None => whole(word).ok_or(AllocError),
    }
}

/// Appends the directives that the words denote.
fn push_directives(
    alloc: Global,
    words: &str,
    directives: &mut Vec<Directive>,
) -> Result<(), AllocError> {
    for word in words.split_whitespace() {
        directives.push(directive(alloc, word)?)?;
    }
    Ok(())
}

/// Returns the format that the words denote.
pub fn format_of(alloc: Global, words: &str) -> Result<OpFormat, AllocError> {
    if words == "canonical" {
        return Ok(OpFormat::Canonical);
    }
    let mut directives = Vec::new(alloc);
    match push_directives(alloc, words, &mut directives) {
        Ok(()) => Ok(OpFormat::Custom(directives)),
        Err(error) => {
            drop(directives);
            Err(error)
        }
    }
}
