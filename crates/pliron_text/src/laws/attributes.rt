//! Laws of the text of attributes.
ghost use Rattle.std.specs.Prelude.{◌≡◌, ℕ, false, List, ◌++◌, Option};
ghost use Rattle.irtext_base.specs.Format.{Format, Id};
ghost use Rattle.irtext_base.specs.Answers.{Read, Missing};
ghost use Rattle.irtext_base.specs.Faults.{Fault};
ghost use Rattle.irtext_base.specs.Locations.{AttrView};
ghost use Rattle.irtext_base.specs.Own.{Ends, language, texts_of};
ghost use Rattle.irtext_base.specs.Text.{after_space, begins, begins_word};
ghost use Rattle.irtext_tokens.specs.AttrTexts.{attr_at};
ghost use Rattle.irtext_grammar.specs.Spelling.AttrText.{attr_text, attr_tree, IsSpellableAttr};
ghost use Rattle.irtext_grammar.specs.Grammar.Reads.{attribute};

use irtext_base::text::{AttrText, IrText};

/// The printed text of an attribute whose names are identifiers parses back to that attribute, if it is followed by something that ends
/// a text (`Ends`). The rest is what followed, up to white space.
pub fn attribute_comes_back<A: AttrText<A>>()
    ensures { (v : AttrView A) (rest : List ℕ) → IsSpellableAttr v → Ends rest →
        (taken left : List ℕ) × (attr_at A.reading (attr_text A.written v ++ rest) ≡ Read v taken left) ×
        (after_space left ≡ after_space rest) }
{}

/// If a text does not begin with a letter or `_`, the parser finds no attribute there.
pub fn attributes_are_missing<A: AttrText<A>>()
    ensures { (text : List ℕ) → begins begins_word text ≡ false → (cause : Fault)
        × (attr_at A.reading text ≡ Missing cause) }
{}

/// The parser of attributes accepts a text with a value and a rest exactly if the grammar of trees does, with the same value and rest.
pub fn attributes_are_the_trees<T: IrText<A>, A: AttrText<A>>()
    ensures read { (formats : Id → Option Format) (v : AttrView A) (text taken rest : List ℕ) →
        attr_at A.reading text ≡ Read v taken rest →
        attribute (language (texts_of T.reading T.written) (texts_of A.reading A.written) formats)
        (attr_tree v) text rest }
    ensures found { (formats : Id → Option Format) (v : AttrView A) (text rest : List ℕ) →
        attribute (language (texts_of T.reading T.written) (texts_of A.reading A.written) formats)
        (attr_tree v) text rest → (taken : List ℕ) × (attr_at A.reading text ≡ Read v taken rest) }
{}
