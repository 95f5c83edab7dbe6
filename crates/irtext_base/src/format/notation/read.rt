//! The parsers of directives and of whole formats.
ghost use Rattle.std.specs.Prelude.{[], length};
ghost use Rattle.irtext_base.specs.Format.{custom};
ghost use Rattle.irtext_base.specs.FormatViews.{directive_of, directives_of, format_of};
ghost use Rattle.irtext_base.specs.Notation.{variable_at, literal_at, fixed_at, directive_at, directives_after, notation_at};
ghost use Rattle.irtext_stream.specs.NotationFaults.{whole, Reads};

use crate::base::Identifier;
use crate::format::{Directive, OpFormat};
use irtext_memory::vec;
use irtext_stream::class::Class;
use irtext_stream::notation::fault::{NotationFault, NotationPart};
use irtext_stream::notation::pieces::{
    closed, ended, index, lack, lack_at, letters, next_is_key, past,
};
use irtext_stream::stream::TextStream;

/// Parses the key of an attribute or the index of an operand, after a `$`.
fn variable(stream: &mut TextStream) -> Result<Directive, NotationFault>
    ensures { Reads directive_of (whole stream.old) (variable_at stream.old.rest) result stream.new }
{
    if !next_is_key(stream) {
        return Ok(Directive::Operand(index(stream, NotationPart::KeyOrIndex)?));
    }
    let place = stream.position();
    stream.skip(Class::Word);
    let key = Identifier::from_word(stream.allocator(), stream.text_since(place))?;
    Ok(Directive::Attr(key))
}

/// Parses a literal, after its first backquote.
fn literal(stream: &mut TextStream) -> Result<Directive, NotationFault>
    ensures { Reads directive_of (whole stream.old) (literal_at stream.old.rest) result stream.new }
{
    let place = stream.position();
    let text = letters(stream)?;
    if text.as_str().is_empty() {
        return Err(lack_at(stream, place, NotationPart::Character));
    }
    Ok(Directive::Literal(text))
}

/// Parses a directive that is always written in one way.
fn fixed(stream: &mut TextStream) -> Result<Directive, NotationFault>
    ensures { Reads directive_of (whole stream.old) (fixed_at stream.old.rest) result stream.new }
{
    if past(stream, "@name") {
        return Ok(Directive::SymbolHeader);
    }
    if past(stream, "operands") {
        return Ok(Directive::Operands);
    }
    if past(stream, "successors") {
        return Ok(Directive::Successors);
    }
    if past(stream, "regions") {
        return Ok(Directive::Regions);
    }
    if past(stream, "attr_dict") {
        return Ok(Directive::AttrDict);
    }
    Err(lack(stream, NotationPart::Directive))
}

/// Parses a directive.
fn directive(stream: &mut TextStream) -> Result<Directive, NotationFault>
    ensures { Reads directive_of (whole stream.old) (directive_at stream.old.rest) result stream.new }
{
    if past(stream, "`") {
        return literal(stream);
    }
    if past(stream, "$") {
        return variable(stream);
    }
    if past(stream, "^") {
        return Ok(Directive::Successor(index(stream, NotationPart::Index)?));
    }
    if past(stream, "{") {
        return Ok(Directive::Region(closed(stream, "}", NotationPart::Brace)?));
    }
    if past(stream, "type($") {
        return Ok(Directive::ResultType(closed(stream, ")", NotationPart::Parenthesis)?));
    }
    fixed(stream)
}

/// Parses directives up to the end of the text.
fn directives(stream: &mut TextStream) -> Result<Vec<Directive>, NotationFault>
    ensures { Reads (λ ds. custom (directives_of ds.items)) (whole stream.old)
        (directives_after (length stream.old.rest) [] stream.old.rest) result stream.new }
{
    let mut found = Vec::new(stream.allocator());
    while !ended(stream) {
        vec::push(&mut found, directive(stream)?)?;
        stream.skip(Class::WhiteSpace);
    }
    Ok(found)
}

/// Parses a format up to the end of the text.
pub(super) fn format(stream: &mut TextStream) -> Result<OpFormat, NotationFault>
    ensures { Reads format_of (whole stream.old) (notation_at stream.old.rest) result stream.new }
{
    stream.skip(Class::WhiteSpace);
    if !past(stream, "canonical") {
        return Ok(OpFormat::Custom(directives(stream)?));
    }
    stream.skip(Class::WhiteSpace);
    if !ended(stream) {
        return Err(lack(stream, NotationPart::End));
    }
    Ok(OpFormat::Canonical)
}
