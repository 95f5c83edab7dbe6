//! What follows of the definitions of what a second look finds.
ghost use Rattle.std.specs.Prelude.{ℕ, List, Some};
ghost use Rattle.irtext_base.specs.Stream.{StreamView};
ghost use Rattle.irtext_stream.specs.declared.position.SourcePosition.{SourcePosition};
ghost use Rattle.irtext_context.specs.Dialects.{Table};
ghost use Rattle.irtext_tokens.specs.AttrTexts.{attr_at};
ghost use Rattle.irtext_grammar.specs.Contexts.Held.{whole};
ghost use Rattle.irtext_survey.specs.Found.{Finds};
ghost use Rattle.irtext_survey.specs.Mentioned.{IsUsedAt, IsDefinedAt};
ghost use Rattle.irtext_survey.specs.Notes.{first_use, first_definition};

use irtext_base::text::{AttrText, IrText};

/// Where [`first_use`] finds a use, the name stands in the text: the longest identifier there is the name.
///
/// [`first_use`]: crate::survey::first_use
pub fn a_found_use_is_the_name<T: IrText<A>, A: AttrText<A>>()
    ensures { (dialects : List (List ℕ × Table)) (name : List ℕ) (v : StreamView) (region found : SourcePosition)
        → Finds T.IrText.reading (attr_at A.IrText.reading) dialects name (λ text notes. first_use text
        region notes) v (Some found)
        → IsUsedAt (whole v) name found }
{}

/// Where [`first_definition`] finds a definition, the name stands in the text, or it stands there after a `^`, as the label of a block.
///
/// [`first_definition`]: crate::survey::first_definition
pub fn a_found_definition_is_the_name<T: IrText<A>, A: AttrText<A>>()
    ensures { (dialects : List (List ℕ × Table)) (name : List ℕ) (v : StreamView) (second found : SourcePosition)
        → Finds T.IrText.reading (attr_at A.IrText.reading) dialects name (λ text notes. first_definition text
        second notes) v (Some found)
        → IsDefinedAt (whole v) name found }
{}
