//! The law of sections, over definitions alone: what their parser returns is what the grammar parses, and what it rejects does not
//! resolve.
ghost use Rattle.std.specs.Prelude.{◌≡◌, ℕ, List, []};
ghost use Rattle.irtext_base.specs.Text.{Text};
ghost use Rattle.irtext_base.specs.Answers.{Read};
ghost use Rattle.irtext_base.specs.Own.{texts_of, language};
ghost use Rattle.irtext_base.specs.Paths.{Written};
ghost use Rattle.irtext_context.specs.Dialects.{Table};
ghost use Rattle.irtext_grammar.specs.Grammar.Section.{Entry, section};
ghost use Rattle.irtext_tokens.specs.AttrTexts.{attr_at};
ghost use Rattle.irtext_grammar.specs.Contexts.Formats.{format_of};
ghost use Rattle.irtext_grammar.specs.Agrees.{refused, ReadOrStops};
ghost use Rattle.irtext_grammar.specs.Names.Acts.{Rule};
ghost use Rattle.irtext_grammar.specs.Promises.Supported.{location_verdict};
ghost use Rattle.irtext_grammar.specs.Entries.{section_at};

use irtext_base::text::{AttrText, IrText};

/// After a root with any marks, and by any rules of what is allowed in the entry of each: what the parser of sections returns, the
/// grammar parses as a section, and it has no failure. And what the grammar parses as a section is returned, up to the same rest, or it
/// is bad at the place of its first failure, with the failure's cause.
pub fn section_text_is_a_section<T: IrText<A>, A: AttrText<A>>()
    ensures read { (dialects : List (Text × Table)) (marks : List ℕ) (rules : ℕ → Rule A)
        (es : List (Entry ℕ A (Written A))) (text taken rest : Text) →
        section_at (attr_at A.reading) marks rules text ≡ Read es taken rest →
        section (language (texts_of T.reading T.written) (texts_of A.reading A.written) (format_of dialects))
        (location_verdict (attr_at A.reading)) es text rest
        × (refused marks rules es ≡ []) }
    ensures found { (dialects : List (Text × Table)) (marks : List ℕ) (rules : ℕ → Rule A)
        (es : List (Entry ℕ A (Written A))) (text rest : Text) →
        section (language (texts_of T.reading T.written) (texts_of A.reading A.written) (format_of dialects))
        (location_verdict (attr_at A.reading)) es text rest →
        ReadOrStops text (section_at (attr_at A.reading) marks rules text) es rest (refused marks rules es) }
{}
