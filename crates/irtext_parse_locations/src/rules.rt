//! Which attributes are allowed under the keys of an entry.
ghost use Rattle.std.specs.Prelude.{◌≡◌};
ghost use Rattle.irtext_base.specs.Format.{same_text, given_names_key, block_label_key};
ghost use Rattle.irtext_grammar.specs.Contexts.Held.{attribute_of};
ghost use Rattle.irtext_grammar.specs.Names.Acts.{is_given, is_label, may_hold};
ghost use Rattle.irtext_parse_locations.specs.Rules.{rule_for, is_allowed_under, is_block};

use crate::said::GivenAttr;
use irtext_base::base::{AttrObj, Identifier};
use irtext_context::base::Item;

/// Whether an item is a block.
pub fn is_block(item: Item) -> bool
    ensures { result ≡ is_block item }
{
    match item {
        Item::Operation(_) => false,
        Item::Block(_) => true,
    }
}

/// Whether an attribute gives names.
pub fn is_given<A>(attr: &AttrObj<A>) -> bool
    ensures { result ≡ is_given (attribute_of attr.now) }
{
    match attr {
        AttrObj::GivenNames(_) => true,
        AttrObj::Ident(_) | AttrObj::Own(_) => false,
    }
}

fn is_label<A>(attr: &AttrObj<A>) -> bool
    ensures { result ≡ is_label (attribute_of attr.now) }
{
    match attr {
        AttrObj::Ident(_) => true,
        AttrObj::GivenNames(_) | AttrObj::Own(_) => false,
    }
}

/// Whether a key is that of given names.
pub fn is_names_key(key: &Identifier) -> bool
    ensures { result ≡ same_text key.now given_names_key }
{
    key.as_str() == "builtin_given_names"
}

/// Whether a key is that of a block's label.
pub fn is_label_key(key: &Identifier) -> bool
    ensures { result ≡ same_text key.now block_label_key }
{
    key.as_str() == "builtin_block_label"
}

fn may_hold<A>(key: &Identifier, attr: &AttrObj<A>) -> bool
    ensures { result ≡ may_hold key.now (attribute_of attr.now) }
{
    !is_names_key(key) || is_given(attr)
}

/// Whether an attribute is allowed under a key, in the entry of a block or of an operation.
pub(crate) fn is_allowed<A>(of_block: bool, key: &Identifier, attr: &AttrObj<A>) -> bool
    ensures { result ≡ rule_for of_block key.now (attribute_of attr.now) }
{
    if !may_hold(key, attr) {
        return false;
    }
    if !of_block || !is_label_key(key) {
        return true;
    }
    is_label(attr)
}

/// The same for what an entry gives under the key. A reference is allowed, since its attribute is not known yet.
pub fn is_allowed_under<A>(of_block: bool, key: &Identifier, given: &GivenAttr<A>) -> bool
    ensures { result ≡ is_allowed_under (rule_for of_block) key.now given.now }
{
    match given {
        GivenAttr::Direct(attr) => is_allowed(of_block, key, attr),
        GivenAttr::Reference(_) => true,
    }
}
