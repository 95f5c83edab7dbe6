//! Laws of the definitions that the contracts of the parser and the printer use. Each function does nothing: its contract is a theorem
//! about all texts, trees and graphs. It is proved from the definitions and from the laws of the caller's types and attributes.
ghost use Rattle.std.specs.Prelude.{◌≡◌, ◌<◌, ◌^◌, ℕ, Bool, List, [], ◌++◌, ◌↔◌, Option, None, Some, ⊤};
ghost use Rattle.irtext_base.specs.Format.{Accepted, Format, Id, same_text};
ghost use Rattle.irtext_base.specs.Own.{language, unplaced, texts_of};
ghost use Rattle.irtext_base.specs.Text.{after_space};
ghost use Rattle.irtext_grammar.specs.Names.Acts.{failures_of, root_script, tree_script};
ghost use Rattle.irtext_grammar.specs.Grammar.Bare.{bare};
ghost use Rattle.irtext_grammar.specs.Graphs.Build.{build};
ghost use Rattle.irtext_grammar.specs.Graphs.Closed.{Closed, Fit};
ghost use Rattle.irtext_grammar.specs.Graphs.ReservedKeys.{GraphKeepsKeys};
ghost use Rattle.irtext_grammar.specs.Graphs.Graph.{Graph, Printing, entries_of, written};
ghost use Rattle.irtext_grammar.specs.Names.History.{events};
ghost use Rattle.irtext_grammar.specs.Grammar.Marked.{AllShown};
ghost use Rattle.irtext_grammar.specs.Graphs.Links.{Linked, links};
ghost use Rattle.irtext_grammar.specs.Spelling.PrintedNames.{block_name, value_name};
ghost use Rattle.irtext_grammar.specs.Names.Placeholders.{AgreesWith, In, fresh_tracker, read};
ghost use Rattle.irtext_grammar.specs.Grammar.Section.{Entry};
ghost use Rattle.irtext_grammar.specs.Grammar.Reads.{reads};
ghost use Rattle.irtext_grammar.specs.Names.Resolves.{Resolves};
ghost use Rattle.irtext_grammar.specs.Graphs.Same.{SameShapes, SmallGraph, resolved_root};
ghost use Rattle.irtext_grammar.specs.Names.Scopes.{bound, failures, no_scope};
ghost use Rattle.irtext_grammar.specs.Names.Script.{Place, User, done};
ghost use Rattle.irtext_grammar.specs.Spelling.Section.{section, text};
ghost use Rattle.irtext_grammar.specs.Spelling.Spell.{spelled};
ghost use Rattle.irtext_grammar.specs.Names.TextScopes.{Script};
ghost use Rattle.irtext_grammar.specs.Grammar.Tree.{Tree};
ghost use Rattle.irtext_grammar.specs.Graphs.Identifiers.{HasIdentifiers};
ghost use Rattle.irtext_grammar.specs.Spelling.Writable.{AfterOperation, AfterRoot, Writable};

pub mod actions;
pub mod attributes;
pub mod building;
pub mod causes;
pub mod closed;
pub mod dialects;
pub mod entries;
pub mod headline;
pub mod locations;
pub mod nested;
pub mod older;

use irtext_base::text::{AttrText, IrText};

pub mod places;
pub mod section;
pub mod two_calls;

/// A text parses as at most one tree, with one rest.
pub fn one_tree<T: IrText<A>, A: AttrText<A>>()
    ensures { (formats : Id → Option Format) (x y : Tree ℕ T A) (t u v : List ℕ) →
        let l = language (texts_of T.reading T.written) (texts_of A.reading A.written) formats in
        reads l x t u → reads l y t v → (x ≡ y) × (u ≡ v) }
{}

/// The printed text of a tree parses back to that tree, if it is followed by what may follow an operation in printed IR (`AfterOperation`).
pub fn reads_back<T: IrText<A>, A: AttrText<A>>()
    ensures { (formats : Id → Option Format) (width n : ℕ) (t : Tree ⊤ T A) (f : List ℕ) →
        let l = unplaced (texts_of T.reading T.written) (texts_of A.reading A.written) formats in
        Writable l t → AfterOperation t.own.mark f →
        (read : Tree ℕ T A) × (u : List ℕ) ×
        reads (language (texts_of T.reading T.written) (texts_of A.reading A.written) formats) read
        (spelled l width n t ++ f) u
        × (bare read ≡ t) × (after_space u ≡ after_space f) }
{}

/// One pass with placeholders over a root and its section fails exactly if the two passes do, with the same first failure. If it does
/// not fail, each operand and each successor holds the definition that the two passes look up.
pub fn placeholders_are_two_passes<T, A, X>()
    ensures { (isolated : Id → Bool) (t : Tree ℕ T A) (es : List (Entry ℕ A X)) →
        AgreesWith (failures_of isolated t es) (bound same_text [] [] (root_script isolated t es))
        (read (Ok fresh_tracker) (events (root_script isolated t es))) }
{}

/// The same for each part that is parsed alone, such as the regions of an operation.
pub fn parts_alone()
    ensures { (x : Script) → AgreesWith (failures same_text no_scope x) (bound same_text [] [] x)
        (read (Ok fresh_tracker) (events x)) }
{}

/// In a tree that a text parses as, with its section, a use refers to a definition exactly if the operation that is built there has
/// that definition as that operand or successor. Formats have to be accepted.
pub fn uses_are_built<T: IrText<A>, A: AttrText<A>, X>()
    ensures { (formats : Id → Option Format) (isolated : Id → Bool) (first : ℕ → X)
        (es : List (Entry ℕ A X)) (t : Tree ℕ T A) (text rest : List ℕ) →
        ((id : Id) (format : Format) → formats id ≡ Some format → Accepted format) →
        reads (language (texts_of T.reading T.written) (texts_of A.reading A.written) formats) t text rest →
        (u : User) (p : Place) → In (u, p) (bound same_text [] [] (root_script isolated t es)) ↔
        In (u, p) (links (build isolated first es t)) }
{}

/// If a tree that a text parses as, with its section, has no failure, each operand and each successor that is built holds a definition.
/// Formats have to be accepted.
pub fn operands_are_there<T: IrText<A>, A: AttrText<A>, X>()
    ensures { (formats : Id → Option Format) (isolated : Id → Bool) (first : ℕ → X)
        (es : List (Entry ℕ A X)) (t : Tree ℕ T A) (text rest : List ℕ) →
        ((id : Id) (format : Format) → formats id ≡ Some format → Accepted format) →
        reads (language (texts_of T.reading T.written) (texts_of A.reading A.written) formats) t text rest →
        failures_of isolated t es ≡ [] → Linked (build isolated first es t) }
{}

/// Distinct values have distinct printed names, and so do distinct blocks, whatever their given names and labels. A value and a block
/// never have the same printed name.
pub fn printed_names_differ()
    ensures values { (g h : Option (List ℕ)) (m n : ℕ) → m < 2 ^ 64 → n < 2 ^ 64 → value_name g m ≡ value_name
        h n → m ≡ n }
    ensures blocks { (l k : Option (List ℕ)) (b c : ℕ × ℕ) → b.0 < 2 ^ 64 → b.1 < 2 ^ 64 → c.0 < 2 ^ 64 →
        c.1 < 2 ^ 64 → block_name l b ≡ block_name k c → (b.0 ≡ c.0) × (b.1 ≡ c.1) }
    ensures between { (g l : Option (List ℕ)) (n : ℕ) (b : ℕ × ℕ) → n < 2 ^ 64 → b.0 < 2 ^ 64 →
        b.1 < 2 ^ 64 → value_name g n ≡ block_name l b → ⊥ }
{}

/// Take a tree that, apart from places, is what is printed of a closed root. It resolves (`resolves`), and what it builds has the
/// root's ids, types, operands, successors and printed labels at each place (`shapes`).
pub fn names_come_back<T, A, X>()
    ensures resolves { (C : Printing T A) (isolated : Id → Bool) (g : Graph T A) (t : Tree ℕ T A) →
        Fit C isolated g → SmallGraph C isolated g → GraphKeepsKeys g → Closed C isolated g →
        bare t ≡ written C None g → failures same_text no_scope (tree_script isolated t done) ≡ [] }
    ensures shapes { (C : Printing T A) (isolated : Id → Bool) (first : ℕ → X) (es : List (Entry ℕ A X))
        (g : Graph T A) (t : Tree ℕ T A) →
        Fit C isolated g → SmallGraph C isolated g →
        bare t ≡ written C None g → SameShapes (resolved_root C isolated g) (build isolated first es t) }
{}

/// The printed text of a closed root whose operations fit accepted formats parses as a tree that resolves, if it is followed by what
/// may follow an operation in printed IR. What that tree builds has the root's ids, types, operands, successors and printed labels at
/// each place.
pub fn round_trip<T: IrText<A>, A: AttrText<A>, X>()
    ensures { (C : Printing T A) (isolated : Id → Bool) (first : ℕ → X) (es : List (Entry ℕ A X))
        (g : Graph T A) (width n : ℕ) (f : List ℕ) →
        let types = texts_of T.reading T.written in
        let owns = texts_of A.reading A.written in
        HasIdentifiers C g → Fit C isolated g → SmallGraph C isolated g → GraphKeepsKeys g →
        Closed C isolated g → AfterOperation (written C None g).own.mark f →
        (t : Tree ℕ T A) × (u : List ℕ) ×
        reads (language types owns C.format_of) t
        (spelled (unplaced types owns C.format_of) width n (written C None g) ++ f) u
        × (after_space u ≡ after_space f) × (bare t ≡ written C None g)
        × (failures same_text no_scope (tree_script isolated t done) ≡ [])
        × SameShapes (resolved_root C isolated g) (build isolated first es t) }
{}

/// The printed text of a tree also parses back to that tree if a section follows.
pub fn root_reads_back<T: IrText<A>, A: AttrText<A>>()
    ensures { (formats : Id → Option Format) (width n : ℕ) (t : Tree ⊤ T A) (f : List ℕ) →
        let l = unplaced (texts_of T.reading T.written) (texts_of A.reading A.written) formats in
        Writable l t → AfterRoot l t f →
        (read : Tree ℕ T A) × (u : List ℕ) ×
        reads (language (texts_of T.reading T.written) (texts_of A.reading A.written) formats) read
        (spelled l width n t ++ f) u
        × (bare read ≡ t) × (after_space u ≡ after_space f) }
{}

/// The root of a text with its section parses back to what was printed of it, and the rest is the section. If nothing is marked, there
/// is no section, and the rest is what follows the text.
pub fn root_before_section<T: IrText<A>, A: AttrText<A>>()
    ensures { (C : Printing T A) (isolated : Id → Bool) (g : Graph T A) (width n : ℕ) (f : List ℕ) →
        let types = texts_of T.reading T.written in
        let owns = texts_of A.reading A.written in
        let l = unplaced types owns C.format_of in
        HasIdentifiers C g → Fit C isolated g → SmallGraph C isolated g
        → AfterOperation (written C None g).own.mark f →
        (t : Tree ℕ T A) × (u : List ℕ) × reads (language types owns C.format_of) t
        (text l C g n width None ++ f) u
        × (bare t ≡ written C None g) × (after_space u
        ≡ after_space (section l C (entries_of C None g) ++ f)) }
{}

/// If a root is printed under a limit that leaves a region out, its text parses as no tree, whatever follows it in printed IR.
pub fn left_out_is_refused<T: IrText<A>, A: AttrText<A>>()
    ensures { (C : Printing T A) (isolated : Id → Bool) (g : Graph T A) (limit : Option ℕ) (width n : ℕ)
        (f : List ℕ) (t : Tree ℕ T A) (u : List ℕ) →
        let types = texts_of T.reading T.written in
        let owns = texts_of A.reading A.written in
        HasIdentifiers C g → Fit C isolated g → SmallGraph C isolated g →
        AfterOperation (written C limit g).own.mark f → (AllShown (written C limit g) → ⊥) →
        reads (language types owns C.format_of) t
        (text (unplaced types owns C.format_of) C g n width limit ++ f) u → ⊥ }
{}

/// A root that a text parses as, with its section, has no failure exactly if it resolves. That means: each operation has as many names
/// as result types; reserved keys hold given names; nothing is used or defined outside of every region; a root with regions is
/// isolated; no scope defines a name twice, and each scope defines what is used in it; no two items have the same mark; and each entry
/// belongs to a mark of its own, and refers only to attributes that the section contains.
pub fn what_resolves<T: IrText<A>, A: AttrText<A>, X>()
    ensures is_needed { (formats : Id → Option Format) (isolated : Id → Bool) (t : Tree ℕ T A)
        (es : List (Entry ℕ A X)) (source rest : List ℕ) →
        reads (language (texts_of T.reading T.written) (texts_of A.reading A.written) formats) t source rest →
        failures_of isolated t es ≡ [] → Resolves isolated t es }
    ensures is_enough { (formats : Id → Option Format) (isolated : Id → Bool) (t : Tree ℕ T A)
        (es : List (Entry ℕ A X)) (source rest : List ℕ) →
        reads (language (texts_of T.reading T.written) (texts_of A.reading A.written) formats) t source rest →
        Resolves isolated t es → failures_of isolated t es ≡ [] }
{}
