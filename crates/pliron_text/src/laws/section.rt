//! Laws of the section after a root: the printed text of a root with its section parses back completely. An item is an operation or a
//! block that carries a mark.
ghost use Rattle.std.specs.Prelude.{◌≡◌, ℕ, ◌+◌, Bool, true, List, [], length, map, None, Option, Some};
ghost use Rattle.irtext_base.specs.Format.{distinct, same_text, Id};
ghost use Rattle.irtext_base.specs.Own.{language, texts_of, unplaced, Verdict};
ghost use Rattle.irtext_grammar.specs.Names.Acts.{failures_of, tree_script};
ghost use Rattle.irtext_grammar.specs.Grammar.Bare.{bare};
ghost use Rattle.irtext_grammar.specs.Graphs.Build.{build};
ghost use Rattle.irtext_grammar.specs.Graphs.Closed.{Closed, Fit};
ghost use Rattle.irtext_grammar.specs.Graphs.Contents.{Contents};
ghost use Rattle.irtext_grammar.specs.Graphs.ReservedKeys.{GraphKeepsKeys};
ghost use Rattle.irtext_grammar.specs.Graphs.Graph.{entries_of, shared, written, Graph, Printing};
ghost use Rattle.irtext_grammar.specs.Grammar.Marked.{reads_root};
ghost use Rattle.irtext_grammar.specs.Grammar.Section.{Entry};
ghost use Rattle.irtext_grammar.specs.Graphs.RoundTrip.{GraphHeld};
ghost use Rattle.irtext_grammar.specs.Graphs.Same.{resolved_root, Locations, SameShapes, SmallGraph};
ghost use Rattle.irtext_grammar.specs.Names.Scopes.{facts};
ghost use Rattle.irtext_grammar.specs.Names.Script.{done};
ghost use Rattle.irtext_grammar.specs.Spelling.Section.{text};
ghost use Rattle.irtext_grammar.specs.Grammar.Tree.{Tree};
ghost use Rattle.irtext_grammar.specs.Graphs.Identifiers.{HasIdentifiers};
ghost use Rattle.irtext_grammar.specs.Spelling.SectionEntries.{bare_section, index_of, numbers, written_section, SmallSection};

use irtext_base::text::{AttrText, IrText};

/// The printed text of a closed root whose operations fit accepted formats, with its section, parses as a tree and entries that are
/// equal to the printed ones apart from places. They resolve. Each item's mark leads to the item's own location and outlined
/// attributes. What they build has the root's ids, types, operands, successors and printed labels at each place.
pub fn section_comes_back<T: IrText<A>, A: AttrText<A>, X>()
    ensures { (location_at : List ℕ → Verdict X) (K : Locations X) (first : ℕ → X) (C : Printing T A)
        (isolated : Id → Bool) (g : Graph T A) (width n : ℕ) →
        let types = texts_of T.reading T.written in
        let owns = texts_of A.reading A.written in
        let printing = unplaced types owns C.format_of in
        C.same_own ≡ A.eq → HasIdentifiers C g → Fit C isolated g → SmallGraph C isolated g →
        GraphKeepsKeys g → GraphHeld location_at K g → Closed C isolated g → SmallSection C g →
        (t : Tree ℕ T A) × (es : List (Entry ℕ A X)) × (u : List ℕ) ×
        reads_root (language types owns C.format_of) location_at t es (text printing C g n width None) u
        × (bare t ≡ written C None g) × (bare_section K.text es ≡ written_section C (entries_of C None g))
        × (failures_of isolated t es ≡ []) × Contents C K.text es g t
        × SameShapes (resolved_root C isolated g) (build isolated first es t) }
{}

/// The marks in the printed tree of a graph are 0, 1 and so on in the order of the text, however deep its regions are nested; there are
/// as many as the section has items. The indices of the section's entries are in order too: the items' entries come first, and the
/// print-once attributes follow without a gap, each in one entry.
pub fn indices_in_order<T, A>()
    ensures marks { (C : Printing T A) (isolated : Id → Bool) (l : Option ℕ) (g : Graph T A)
        → HasIdentifiers C g → Fit C isolated g →
        (facts same_text (tree_script isolated (written C l g) done)).marks
        ≡ numbers 0 (length (entries_of C l g)) }
    ensures entries { (C : Printing T A) (l : Option ℕ) (g : Graph T A) →
        map index_of (written_section C (entries_of C l g))
        ≡ numbers 0 (length (entries_of C l g) + length (shared C (entries_of C l g))) }
    ensures once { (C : Printing T A) (l : Option ℕ) (g : Graph T A) →
        ((a b : A) → C.same_own a b ≡ true → a ≡ b) → ((a : A) → C.same_own a a ≡ true) →
        distinct C.same_own (shared C (entries_of C l g)) ≡ true }
{}
