//! Which characters can come after a list, and which can continue it. `_` denotes itself and all letters.
ghost use Rattle.std.specs.Prelude.{◌≡◌, ◌==◌, not, ◌&&◌, codes};
ghost use Rattle.std.specs.Str.{chars};
ghost use Rattle.irtext_base.specs.FormatViews.{directive_of, directives_of};
ghost use Rattle.irtext_base.specs.Format.{has, kind, first_kinds, beginnings, continuings, followers, disjoint};
ghost use Rattle.irtext_base.specs.Text.{begins_word};

use crate::format::parts::{first_of, is_list};
use irtext_base::format::Directive;

fn kind(c: char) -> char
    ensures { result ≡ kind c }
{
    if c.is_ascii_alphabetic() || c == '_' {
        '_'
    } else {
        c
    }
}

fn begins_text(text: &str, character: char) -> bool
    ensures { result ≡ has ◌==◌ character (first_kinds (chars text.now)) }
{
    match first_of(text) {
        Some(first) => character == kind(first),
        None => false,
    }
}

/// Whether what a directive prints can begin with a character.
fn begins(directive: &Directive, character: char) -> bool
    ensures { result ≡ has ◌==◌ character (beginnings (directive_of directive.now)) }
{
    match directive {
        Directive::Literal(text) => begins_text(text, character),
        Directive::Operand(_) | Directive::Operands | Directive::ResultType(_) => character == '_',
        Directive::Successor(_) | Directive::Successors => character == '^',
        Directive::Attr(_) => character == '_' || character == '!',
        Directive::AttrDict => character == '[',
        Directive::Region(_) | Directive::Regions => character == '{',
        Directive::SymbolHeader => character == '@',
    }
}

fn ends_operation(character: char) -> bool
    ensures { result ≡ has ◌==◌ character (codes "!;}^") }
{
    character == '!' || character == ';' || character == '}' || character == '^'
}

/// Whether a character can come first in what these directives print, with what comes after the operation.
fn can_follow(directives: &[Directive], character: char) -> bool
    ensures { result ≡ has ◌==◌ character (followers (directives_of directives.now)) }
{
    let mut left = directives;
    while let Some((directive, rest)) = left.split_first() {
        if begins(directive, character) {
            return true;
        }
        if !is_list(directive) {
            return false;
        }
        left = rest;
    }
    ends_operation(character)
}

/// Whether no character that can come after a directive could continue a list that it prints.
pub(crate) fn list_ends(directive: &Directive, rest: &[Directive]) -> bool
    ensures { result ≡ disjoint (continuings (directive_of directive.now))
        (followers (directives_of rest.now)) }
{
    match directive {
        Directive::Operands => !can_follow(rest, '_') && !can_follow(rest, ','),
        Directive::Successors => !can_follow(rest, '^') && !can_follow(rest, ','),
        Directive::Regions => !can_follow(rest, '{'),
        Directive::Literal(_)
        | Directive::Operand(_)
        | Directive::Successor(_)
        | Directive::Attr(_)
        | Directive::AttrDict
        | Directive::ResultType(_)
        | Directive::Region(_)
        | Directive::SymbolHeader => true,
    }
}
