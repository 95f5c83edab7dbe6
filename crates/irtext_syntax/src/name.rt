//! Identifiers, such as `v_1`.
ghost use Rattle.std.specs.Prelude.{◌≡◌, IfOk, true, nat_eq};
ghost use Rattle.std.specs.Cmp.{on_equiv, on_per, partial_equiv_from_equiv};
ghost use Rattle.std.specs.Cmp.Lexicographic.{pointwise, nat_list_eq_equiv};
ghost use Rattle.std.specs.Cmp.Rules.{hashing};
ghost use Rattle.std.specs.Hash as fed;
ghost use Rattle.std.proofs.Common.{rules};
ghost use Rattle.irtext_base.specs.Text.{is_identifier};
ghost use Rattle.irtext_syntax.specs.NameTexts.{name_at, name_text, ends_word};
ghost use Rattle.irtext_syntax.specs.NameLaws.{name_law, name_decides, name_misses, word_last};

use crate::part::{Item, Last, Part, TryClone};
use irtext_base::base::Identifier;
use irtext_base::parsable::{ParseResult, TextStream};
use irtext_memory::{OutOfMemory, string};
use irtext_tokens::irfmt::parsers::identifier_parse;
use std::alloc::AllocError;
use std::fmt;
use std::hash::{Hash, Hasher};
use std::marker::Model;

/// An identifier, as a part of a text such as `v_1`: the longest one that comes next. If none does, parsing fails with `Unexpected`,
/// uncommitted.
#[derive(Drop)]
pub struct Name {
    identifier: Identifier,
}

impl Model for Name {
    ghost use Rattle.irtext_syntax.specs.NameTexts.{WordText, word_text, word_text_code};

    ghost Value = { WordText };

    ghost coded = { word_text_code };

    ghost view = { λ n. word_text n.identifier };
}

/// Does nothing. Its contract says that an identifier's text is one.
fn is_word(identifier: &Identifier)
    ensures { is_identifier identifier.now ≡ true }
{
    let _ = identifier.as_str();
}

impl Name {
    /// Makes a part of an identifier.
    pub fn new(identifier: Identifier) -> Name
        ensures { result.characters ≡ identifier }
    {
        is_word(&identifier);
        Name { identifier }
    }

    /// Returns the identifier.
    pub fn as_identifier(&self) -> &Identifier
        ensures { result.now ≡ self.now.characters }
    {
        is_word(&self.identifier);
        &self.identifier
    }
}

impl TryClone for Name {
    fn try_clone(&self) -> Result<Name, AllocError> {
        let identifier = self.identifier.clone()?;
        Ok(Name { identifier })
    }
}

impl fmt::Debug for Name {
    fn fmt<W: fmt::Write>(&self, f: &mut fmt::Formatter<W>) -> fmt::Result {
        fmt::Debug::fmt(self.as_identifier(), f)
    }
}

impl PartialEq for Name {
    ghost eq = { λ x y. pointwise nat_eq x.characters y.characters };

    ghost laws = { on_per (λ n. n.characters) (partial_equiv_from_equiv nat_list_eq_equiv) };

    fn eq(&self, other: &Self) -> bool {
        self.as_identifier() == other.as_identifier()
    }
}

impl Eq for Name {
    ghost laws = { on_equiv (λ n. n.characters) nat_list_eq_equiv };
}

impl Hash for Name {
    ghost hash_input = { λ n. fed.str n.characters };

    ghost respects_eq = { Prim.search (hashing, rules) };

    fn hash<H: Hasher>(&self, state: &mut H) {
        self.as_identifier().hash(state);
    }
}

impl<A> Part<A> for Name {
    ghost text = { record { reading = name_at; written = name_text; ends = ends_word } };

    ghost sound = { record { law = name_law; decides = name_decides } };

    fn read(stream: &mut TextStream) -> ParseResult<Name, A> {
        let identifier = identifier_parse(stream)?;
        Ok(Name::new(identifier))
    }

    fn write_text(&self, f: &mut String) -> Result<(), OutOfMemory> {
        string::push_str(f, self.as_identifier().as_str())?;
        Ok(())
    }
}

impl<A> Item<A> for Name {
    ghost misses = { name_misses };
}

impl<A> Last<A> for Name {
    ghost last = { word_last };
}
