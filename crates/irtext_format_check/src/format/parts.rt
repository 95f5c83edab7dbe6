//! Single directives: which part of the operation each names, by an index or a key, and how often each comes.
ghost use Rattle.std.specs.Prelude.{◌≡◌, ◌==◌, ◌&&◌, nat_lt, length, option_copied};
ghost use Rattle.std.specs.List.{list_all};
ghost use Rattle.std.specs.Char.{is_ascii_graphic};
ghost use Rattle.std.specs.Str.{chars};
ghost use Rattle.irtext_base.specs.FormatViews.{directive_of, directives_of};
ghost use Rattle.irtext_format_check.specs.Directives.{place_of, places_of, key_of};
ghost use Rattle.irtext_format_check.specs.Directives.{is_sole, is_named, is_region, is_value, is_below};
ghost use Rattle.irtext_base.specs.Stream.{first_of};
ghost use Rattle.irtext_base.specs.Format.{word_prints, same_text, has, count, keys, is_any_region, is_regions, is_list};

use irtext_base::base::Identifier;
use irtext_base::format::Directive;

/// The parts of an operation that directives name by an index.
#[derive(Clone, Copy)]
pub(crate) enum Part {
    Operand,
    Successor,
    ResultType,
    Region,
}

/// The directives that may come only once.
#[derive(Clone, Copy)]
pub enum Sole {
    Operands,
    Successors,
    Regions,
    Dictionary,
    Header,
}

/// Returns the first character of a text.
pub(crate) fn first_of(text: &str) -> Option<char>
    ensures { result ≡ first_of (chars text.now) }
{
    text.chars().next()
}

fn all_graphic(text: &str) -> bool
    ensures { result ≡ list_all is_ascii_graphic (chars text.now) }
{
    text.chars().all(|c| c.is_ascii_graphic())
}

fn prints(text: &str) -> bool
    ensures { result ≡ (nat_lt 0 (length (chars text.now)) && list_all is_ascii_graphic (chars text.now)) }
{
    match first_of(text) {
        Some(_) => all_graphic(text),
        None => false,
    }
}

/// Whether a literal is one or more printable ASCII characters. True for any other directive.
pub(crate) fn word_prints(directive: &Directive) -> bool
    ensures { result ≡ word_prints (directive_of directive.now) }
{
    match directive {
        Directive::Literal(text) => prints(text),
        Directive::Operand(_)
        | Directive::Operands
        | Directive::Successor(_)
        | Directive::Successors
        | Directive::Attr(_)
        | Directive::AttrDict
        | Directive::ResultType(_)
        | Directive::Region(_)
        | Directive::Regions
        | Directive::SymbolHeader => true,
    }
}

/// Returns the index that a directive names among the parts of one kind.
pub(crate) fn place_of(part: Part, directive: &Directive) -> Option<usize>
    ensures { result ≡ place_of part (directive_of directive.now) }
{
    match directive {
        Directive::Operand(place) => matches!(part, Part::Operand).then_some(*place),
        Directive::Successor(place) => matches!(part, Part::Successor).then_some(*place),
        Directive::ResultType(place) => matches!(part, Part::ResultType).then_some(*place),
        Directive::Region(place) => matches!(part, Part::Region).then_some(*place),
        Directive::Literal(_)
        | Directive::Operands
        | Directive::Successors
        | Directive::Attr(_)
        | Directive::AttrDict
        | Directive::Regions
        | Directive::SymbolHeader => None,
    }
}

/// Returns the key that a directive names.
pub(crate) fn key_of(directive: &Directive) -> Option<&Identifier>
    ensures { option_copied result ≡ key_of (directive_of directive.now) }
{
    match directive {
        Directive::Attr(key) => Some(key),
        Directive::Literal(_)
        | Directive::Operand(_)
        | Directive::Operands
        | Directive::Successor(_)
        | Directive::Successors
        | Directive::AttrDict
        | Directive::ResultType(_)
        | Directive::Region(_)
        | Directive::Regions
        | Directive::SymbolHeader => None,
    }
}

/// Whether a directive is this one.
pub(crate) fn is_sole(sole: Sole, directive: &Directive) -> bool
    ensures { result ≡ is_sole sole (directive_of directive.now) }
{
    match sole {
        Sole::Operands => matches!(directive, Directive::Operands),
        Sole::Successors => matches!(directive, Directive::Successors),
        Sole::Regions => matches!(directive, Directive::Regions),
        Sole::Dictionary => matches!(directive, Directive::AttrDict),
        Sole::Header => matches!(directive, Directive::SymbolHeader),
    }
}

/// Whether a directive prints one region.
pub(crate) fn is_region(directive: &Directive) -> bool
    ensures { result ≡ is_region (directive_of directive.now) }
{
    matches!(directive, Directive::Region(_))
}

/// Whether a directive prints one region or a list of regions.
pub(crate) fn is_any_region(directive: &Directive) -> bool
    ensures { result ≡ is_any_region (directive_of directive.now) }
{
    matches!(directive, Directive::Region(_) | Directive::Regions)
}

/// Whether a directive prints names or a type.
pub(crate) fn is_named(directive: &Directive) -> bool
    ensures { result ≡ is_named (directive_of directive.now) }
{
    match directive {
        Directive::Operand(_) | Directive::Operands => true,
        Directive::Successor(_) | Directive::Successors => true,
        Directive::ResultType(_) => true,
        Directive::Literal(_)
        | Directive::Attr(_)
        | Directive::AttrDict
        | Directive::Region(_)
        | Directive::Regions
        | Directive::SymbolHeader => false,
    }
}

/// Whether a directive prints a list, which may be empty.
pub(crate) fn is_list(directive: &Directive) -> bool
    ensures { result ≡ is_list (directive_of directive.now) }
{
    matches!(
        directive,
        Directive::Operands | Directive::Successors | Directive::Regions
    )
}

fn names_place(part: Part, place: usize, directive: &Directive) -> bool
    ensures { result ≡ is_value ◌==◌ place (place_of part (directive_of directive.now)) }
{
    match place_of(part, directive) {
        Some(named) => place == named,
        None => false,
    }
}

fn is_below(part: Part, number: usize, directive: &Directive) -> bool
    ensures { result ≡ is_below number (place_of part (directive_of directive.now)) }
{
    match place_of(part, directive) {
        Some(named) => named < number,
        None => true,
    }
}

#[tactic(auto, using(crate::proofs::Formats::same_text_bytes))]
fn names_key(key: &str, directive: &Directive) -> bool
    ensures { result ≡ is_value same_text key.now (key_of (directive_of directive.now)) }
{
    match key_of(directive) {
        Some(named) => key == named.as_str(),
        None => false,
    }
}

/// Whether a directive names this index.
pub(crate) fn has_place(part: Part, place: usize, directives: &[Directive]) -> bool
    ensures { result ≡ has ◌==◌ place (places_of part (directives_of directives.now)) }
{
    directives.iter().any(|d| names_place(part, place, d))
}

/// Whether all indices that are named are below a number.
pub(crate) fn all_below(part: Part, number: usize, directives: &[Directive]) -> bool
    ensures { result ≡ list_all (λ k. nat_lt k number) (places_of part (directives_of directives.now)) }
{
    directives.iter().all(|d| is_below(part, number, d))
}

/// Returns how many directives name an index.
pub(crate) fn count_places(part: Part, directives: &[Directive]) -> usize
    ensures { result ≡ length (places_of part (directives_of directives.now)) }
{
    directives
        .iter()
        .filter(|d| place_of(part, *d).is_some())
        .count()
}

/// Whether a directive names this key.
pub(crate) fn has_key(key: &str, directives: &[Directive]) -> bool
    ensures { result ≡ has same_text key.now (keys (directives_of directives.now)) }
{
    directives.iter().any(|d| names_key(key, d))
}

/// Returns how often a directive comes that may come only once.
pub fn count_sole(sole: Sole, directives: &[Directive]) -> usize
    ensures { result ≡ count (is_sole sole) (directives_of directives.now) }
{
    directives.iter().filter(|d| is_sole(sole, *d)).count()
}
