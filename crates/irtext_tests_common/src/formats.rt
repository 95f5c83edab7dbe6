//! Formats written as letters, one for each directive.
use crate::answers::{failed, named};
use irtext_base::format::{Directive, OpFormat};
use std::alloc::Global;
use std::test::Fail;

/// The directive without a text for a letter: an index by its number or letter, a list by a capital.
fn plain(letter: char) -> Option<Directive> {
    match letter {
        '0' => Some(Directive::Operand(0)),
        '1' => Some(Directive::Operand(1)),
        'O' => Some(Directive::Operands),
        's' => Some(Directive::Successor(0)),
        't' => Some(Directive::Successor(1)),
        'S' => Some(Directive::Successors),
        'v' => Some(Directive::ResultType(0)),
        'w' => Some(Directive::ResultType(1)),
        'a' => Some(Directive::Region(0)),
        'b' => Some(Directive::Region(1)),
        'R' => Some(Directive::Regions),
        'd' => Some(Directive::AttrDict),
        'h' => Some(Directive::SymbolHeader),
        _ => None,
    }
}

/// The key of the attribute for a letter.
fn key(letter: char) -> Option<&'static str> {
    match letter {
        'k' => Some("k"),
        'c' => Some("test_value"),
        'n' => Some("builtin_sym_name"),
        'g' => Some("builtin_given_names"),
        _ => None,
    }
}

/// The literal for any other character.
fn literal(letter: char) -> &'static str {
    match letter {
        '_' => "",
        ' ' => "a b",
        '>' => "->",
        ',' => ",",
        ':' => ":",
        '{' => "{",
        'x' => "x",
        _ => "to",
    }
}

/// The directive for a character.
fn directive(alloc: Global, letter: char) -> Result<Directive, Fail> {
    if let Some(directive) = plain(letter) {
        return Ok(directive);
    }
    match key(letter) {
        Some(key) => Ok(Directive::Attr(named(alloc, key)?)),
        None => Ok(Directive::Literal(String::from_str(alloc, literal(letter))?)),
    }
}

/// The canonical format for `-`, else the format with one directive for each character.
pub fn format_or_canonical(alloc: Global, letters: &str) -> Result<OpFormat, Fail> {
    if letters == "-" {
        return Ok(OpFormat::Canonical);
    }
    format_of(alloc, letters)
}

/// Appends one directive for each character.
fn push_directives(
    alloc: Global,
    directives: &mut Vec<Directive>,
    letters: &str,
) -> Result<(), Fail> {
    for letter in letters.chars() {
        directives.push(directive(alloc, letter)?)?;
    }
    Ok(())
}

/// The format with one directive for each character.
pub fn format_of(alloc: Global, letters: &str) -> Result<OpFormat, Fail> {
    let mut directives = Vec::new(alloc);
    match push_directives(alloc, &mut directives, letters) {
        Ok(()) => Ok(OpFormat::Custom(directives)),
        Err(fail) => failed(directives, fail),
    }
}
