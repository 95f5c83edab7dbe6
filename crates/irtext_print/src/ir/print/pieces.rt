//! What the directives of a format print of an operation's attributes. Each of these calls fails only if out of memory.
ghost use Rattle.std.specs.Prelude.{◌≡◌, ◌++◌, ◌&&◌, [], Some, OnOk, OnErr, codes, cond, not, option_copied};
ghost use Rattle.std.specs.Map.{lookup};
ghost use Rattle.std.specs.Str.{bytes_eq, chars};
ghost use Rattle.irtext_base.specs.Appending.{OnlyAppends};
ghost use Rattle.irtext_print.specs.Printers.Appended.{AppendsText};
ghost use Rattle.irtext_base.specs.FormatViews.{directive_of, directives_of};
ghost use Rattle.irtext_base.specs.Text.{begins};
ghost use Rattle.irtext_grammar.specs.Graphs.Graph as graph;
ghost use Rattle.irtext_print.specs.Printers.PieceText as pieces;
ghost use Rattle.irtext_grammar.specs.Spelling.Spell as spell;
ghost use Rattle.irtext_grammar.specs.Contexts.Held.{attribute_of, entries_of};

use crate::printable::attributes::fmt_attr;
use irtext_base::base::{AttrObj, Identifier};
use irtext_base::format::Directive;
use irtext_base::text::AttrText;
use irtext_context::base;
use irtext_context::base::AttributeDict;
use irtext_memory::{OutOfMemory, string};
use std::alloc::AllocError;

/// Whether there is no space before a word that begins with this character.
fn joins_left(c: char) -> bool
    ensures { result ≡ spell.joins_left c }
{
    matches!(c, ',' | ':' | ';' | ')' | ']' | '>')
}

/// Whether there is no space before a word.
fn word_joins_left(word: &str) -> bool
    ensures { result ≡ begins spell.joins_left (chars word.now) }
{
    match word.chars().next() {
        Some(c) => joins_left(c),
        None => false,
    }
}

/// Appends a fixed word, after a space unless it joins what is before it.
pub fn fmt_word(word: &str, f: &mut String) -> Result<(), OutOfMemory>
    ensures text { OnOk result (AppendsText f.old (pieces.word_text (chars word.now)) f.new) }
    ensures appended { OnErr result (OnlyAppends f.old f.new) }
{
    if !word_joins_left(word) {
        string::push_str(f, " ")?;
    }
    string::push_str(f, word)?;
    Ok(())
}

/// Whether an attribute is printed in the section, and not in place.
#[inline(always)]
pub fn is_outlined<A: AttrText<A>>(attr: &AttrObj<A>) -> bool
    ensures { result ≡ graph.outlined (pieces.outlining A.outlined) (attribute_of attr.now) }
{
    base::is_outlined(attr)
}

/// Appends the text of an attribute, or `!outlined` if it is outlined.
fn fmt_inline<A: AttrText<A>>(attr: &AttrObj<A>, f: &mut String) -> Result<(), OutOfMemory>
    ensures text { OnOk result (AppendsText f.old (pieces.inline_text A.IrText.written A.outlined
        (attribute_of attr.now)) f.new) }
    ensures appended { OnErr result (OnlyAppends f.old f.new) }
{
    if is_outlined(attr) {
        string::push_str(f, "!outlined")?;
        return Ok(());
    }
    fmt_attr(attr, f)
}

/// Appends the attribute under a key, after a space, if there is one.
pub fn fmt_keyed<A: AttrText<A>>(
    attributes: &AttributeDict<A>,
    key: &Identifier,
    f: &mut String,
) -> Result<(), OutOfMemory>
    ensures text { OnOk result (AppendsText f.old (pieces.keyed_text A.IrText.written A.outlined key.now
        (entries_of attributes.now)) f.new) }
    ensures appended { OnErr result (OnlyAppends f.old f.new) }
{
    let Some(attr) = attribute_under(attributes, key.as_str()) else {
        return Ok(());
    };
    string::push_str(f, " ")?;
    fmt_inline(attr, f)
}

/// Returns the identifier that an attribute contains, if it is one.
fn ident_of<A: AttrText<A>>(attr: &AttrObj<A>) -> Option<&Identifier>
    ensures { option_copied result ≡ pieces.symbol_in (Some (attribute_of attr.now)) }
{
    match attr {
        AttrObj::Ident(name) => Some(name),
        _ => None,
    }
}

/// Returns the attribute under a key. An operation's first attribute is the one that is asked for most, so it is compared first.
#[inline(always)]
pub(crate) fn attribute_under<'a, A: AttrText<A>>(
    attributes: &'a AttributeDict<A>,
    key: &str,
) -> Option<&'a AttrObj<A>>
    ensures { option_copied result ≡ lookup (bytes_eq key.now) attributes.now }
{
    if let Some((first, attr)) = attributes.get_index(0) {
        if key == first.as_str() {
            return Some(attr);
        }
    }
    attributes.get_str(key)
}

/// Returns the symbol's name, if the attribute under its key is an identifier.
pub fn symbol_of<A: AttrText<A>>(attributes: &AttributeDict<A>) -> Option<&Identifier>
    ensures { option_copied result ≡ pieces.symbol_name (entries_of attributes.now) }
{
    match attribute_under(attributes, "builtin_sym_name") {
        Some(attr) => ident_of(attr),
        None => None,
    }
}

/// Appends the symbol's name after a space and `@`, if there is one.
pub fn fmt_symbol<A: AttrText<A>>(
    attributes: &AttributeDict<A>,
    f: &mut String,
) -> Result<(), OutOfMemory>
    ensures text { OnOk result (AppendsText f.old (pieces.header_text (entries_of attributes.now)) f.new) }
    ensures appended { OnErr result (OnlyAppends f.old f.new) }
{
    let Some(symbol) = symbol_of(attributes) else {
        return Ok(());
    };
    string::push_str(f, " @")?;
    string::push_str(f, symbol.as_str())?;
    Ok(())
}

/// Whether a directive prints the attribute under a key.
fn names_key(directive: &Directive, key: &str) -> bool
    ensures { result ≡ pieces.names_key key.now (directive_of directive.now) }
{
    match directive {
        Directive::Attr(named) => key == named.as_str(),
        Directive::SymbolHeader => key == "builtin_sym_name",
        _ => false,
    }
}

/// Whether one of the directives prints the attribute under a key.
pub fn is_key_written(directives: &[Directive], key: &str) -> bool
    ensures { result ≡ pieces.is_key_written key.now (directives_of directives.now) }
{
    directives.iter().any(|d| names_key(d, key))
}

/// Appends an entry, after `, ` if it is not the first.
fn fmt_entry<A: AttrText<A>>(
    first: bool,
    key: &Identifier,
    attr: &AttrObj<A>,
    f: &mut String,
) -> Result<(), OutOfMemory>
    ensures text { OnOk result (AppendsText f.old (pieces.next_text A.IrText.written first (
      key.now,
      attribute_of
          attr.now,
    )) f.new) }
    ensures appended { OnErr result (OnlyAppends f.old f.new) }
{
    if !first {
        string::push_str(f, ", ")?;
    }
    string::push_str(f, key.as_str())?;
    string::push_str(f, ": ")?;
    fmt_attr(attr, f)
}

/// Prints the entries of a dictionary that no other directive of a format prints, if they are not outlined.
pub struct DictPrinter<'a, A: AttrText<A>> {
    /// The dictionary.
    pub attributes: &'a AttributeDict<A>,
    /// The directives of the format.
    pub directives: &'a [Directive],
}

impl<A: AttrText<A>> Copy for DictPrinter<'_, A> {}

impl<A: AttrText<A>> Clone for DictPrinter<'_, A> {
    ghost is_clone = { λ this copy. copy ≡ this };

    fn clone(&self) -> Result<Self, AllocError> {
        Ok(*self)
    }
}

impl<'a, A: AttrText<A>> DictPrinter<'a, A> {
    /// Whether the dictionary prints an entry: no other directive does, and it is not outlined.
    fn is_listed(self, key: &Identifier, attr: &AttrObj<A>) -> bool
        ensures { result ≡ pieces.is_listed A.outlined (directives_of self.entry.directives.now) (
          key.now,
          attribute_of
              attr.now,
        ) }
    {
        !is_outlined(attr) && !is_key_written(self.directives, key.as_str())
    }

    /// Appends the entries that the dictionary prints, with `, ` between them.
    #[inline(always)]
    pub fn fmt_entries(self, f: &mut String) -> Result<(), OutOfMemory>
        ensures text { OnOk result (AppendsText f.old (pieces.listed_text A.IrText.written A.outlined
            (directives_of self.entry.directives.now) (entries_of self.entry.attributes.now)) f.new) }
        ensures appended { OnErr result (OnlyAppends f.old f.new) }
    {
        let mut first = true;
        for (key, attr) in self.attributes.iter() {
            if self.is_listed(key, attr) {
                fmt_entry(first, key, attr, f)?;
                first = false;
            }
        }
        Ok(())
    }

    /// Appends the dictionary of the attributes that no other directive prints, after a space: ` [k: builtin.identifier x]`.
    pub fn fmt_dictionary(self, f: &mut String) -> Result<(), OutOfMemory>
        ensures text { OnOk result (AppendsText f.old (pieces.dictionary_text A.IrText.written A.outlined
            (directives_of self.entry.directives.now) (entries_of self.entry.attributes.now)) f.new) }
        ensures appended { OnErr result (OnlyAppends f.old f.new) }
    {
        string::push_str(f, " [")?;
        self.fmt_entries(f)?;
        string::push_str(f, "]")?;
        Ok(())
    }
}
