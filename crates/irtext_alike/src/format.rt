//! Whether two formats are the same: whether they print and parse every operation alike.
ghost use Rattle.std.specs.Prelude.{◌≡◌, ◌↔◌, IsTrue};
ghost use Rattle.irtext_base.specs.FormatViews.{directive_of, directives_of, format_of};
ghost use Rattle.irtext_alike.specs.Shapes as shapes;

use irtext_base::format::{Directive, OpFormat};

/// A directive without the text that a literal or an attribute has.
#[derive(Clone, Copy, PartialEq, Eq)]
enum Shape {
    Literal,
    Operand(usize),
    Operands,
    Successor(usize),
    Successors,
    Attr,
    AttrDict,
    ResultType(usize),
    Region(usize),
    Regions,
    SymbolHeader,
}

/// The shape of a directive.
fn shape_of(directive: &Directive) -> Shape
    ensures { result ≡ shapes.shape_of directive.now }
{
    match directive {
        Directive::Literal(_) => Shape::Literal,
        Directive::Operand(i) => Shape::Operand(*i),
        Directive::Operands => Shape::Operands,
        Directive::Successor(i) => Shape::Successor(*i),
        Directive::Successors => Shape::Successors,
        Directive::Attr(_) => Shape::Attr,
        Directive::AttrDict => Shape::AttrDict,
        Directive::ResultType(i) => Shape::ResultType(*i),
        Directive::Region(i) => Shape::Region(*i),
        Directive::Regions => Shape::Regions,
        Directive::SymbolHeader => Shape::SymbolHeader,
    }
}

/// The text of a literal, or the key of an attribute; empty for any other directive.
fn text_of(directive: &Directive) -> &str
    ensures { result.now ≡ shapes.text_of directive.now }
{
    match directive {
        Directive::Literal(text) => text.as_str(),
        Directive::Attr(key) => key.as_str(),
        Directive::Operand(_)
        | Directive::Operands
        | Directive::Successor(_)
        | Directive::Successors
        | Directive::AttrDict
        | Directive::ResultType(_)
        | Directive::Region(_)
        | Directive::Regions
        | Directive::SymbolHeader => "",
    }
}

/// Whether two shapes are the same.
fn is_same_shape(a: Shape, b: Shape) -> bool
    ensures { IsTrue result ↔ a ≡ b }
{
    a == b
}

/// Whether two texts are the same.
fn is_same_text(a: &str, b: &str) -> bool
    ensures { IsTrue result ↔ a.now ≡ b.now }
{
    a == b
}

/// Whether two directives are the same.
fn is_same_directive(a: &Directive, b: &Directive) -> bool
    ensures { IsTrue result ↔ directive_of a.now ≡ directive_of b.now }
{
    if !is_same_shape(shape_of(a), shape_of(b)) {
        return false;
    }
    is_same_text(text_of(a), text_of(b))
}

/// Whether two lists have the same directives in the same order.
fn are_same_directives(a: &[Directive], b: &[Directive]) -> bool
    ensures { IsTrue result ↔ directives_of a.now ≡ directives_of b.now }
{
    if a.len() != b.len() {
        return false;
    }
    for i in 0..a.len() {
        if !is_same_directive(&a[i], &b[i]) {
            return false;
        }
    }
    true
}

/// Whether two formats are the same: both are canonical, or both have the same directives in the same order. It allocates nothing.
pub fn is_same_format(a: &OpFormat, b: &OpFormat) -> bool
    ensures { IsTrue result ↔ format_of a.now ≡ format_of b.now }
{
    match a {
        OpFormat::Canonical => matches!(b, OpFormat::Canonical),
        OpFormat::Custom(here) => match b {
            OpFormat::Canonical => false,
            OpFormat::Custom(there) => are_same_directives(here.as_slice(), there.as_slice()),
        },
    }
}
