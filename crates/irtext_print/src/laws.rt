//! Laws of the section: the indices of its entries, and its text.
ghost use Rattle.std.specs.Prelude.{◌≡◌, ◌+◌, ◌++◌, ◌∷◌, List, Option, Some, length, map, flat_map, codes};
ghost use Rattle.irtext_base.specs.Format.{Format, Id};
ghost use Rattle.irtext_base.specs.Own.{texts_of, unplaced};
ghost use Rattle.irtext_grammar.specs.Graphs.Graph.{Printing, Entry, shared};
ghost use Rattle.irtext_grammar.specs.Spelling.Section.{section};
ghost use Rattle.irtext_grammar.specs.Spelling.SectionEntries.{index_of, numbers};
ghost use Rattle.irtext_print.specs.Items.{entry_spelled, given_section, places_there, section_of, shared_by};

use irtext_base::text::{AttrText, IrText};

/// An item's index is its place among the items, even if one before it was erased. The indices of the print-once attributes follow
/// after the places of all items. If none was erased, as when one root is printed with a state of its own, the indices are thus the
/// numbers from 0 on, without a gap.
pub fn indices_follow<T, A>()
    ensures kept { (C : Printing T A) (gs : List (Option (Entry C))) →
        map index_of (given_section C gs) ≡ places_there C 0 gs
        ++ numbers (length gs) (length (shared_by C gs)) }
    ensures without_gap { (C : Printing T A) (es : List (Entry C)) →
        map index_of (given_section C (map (λ e. Some e) es)) ≡ numbers 0 (length es + length (shared C es)) }
{}

/// The text of a section is that of its entries, one after another. If no item was erased, it is the section of a root by the
/// definition of printing.
pub fn section_is_its_entries<T: IrText<A>, A: AttrText<A>>()
    ensures spelled { (C : Printing T A) (formats : Id → Option Format) (g : Option (Entry C))
        (gs : List (Option (Entry C))) →
        let L = unplaced (texts_of T.reading T.written) (texts_of A.reading A.written) formats in
        section_of C L (g ∷ gs) ≡ codes "\n\noutlined_attributes:\n"
        ++ flat_map (entry_spelled C L) (given_section C (g ∷ gs)) }
    ensures whole { (C : Printing T A) (formats : Id → Option Format) (es : List (Entry C)) →
        let L = unplaced (texts_of T.reading T.written) (texts_of A.reading A.written) formats in
        section_of C L (map (λ e. Some e) es) ≡ section L C es }
{}
