//! Laws of the whole round trip: what is built from the printed text of a root and its section is equal to the root up to fillings. "Up
//! to fillings" means: an unknown location may become a position, and printed names are filled in if there were no given names or no
//! label.
ghost use Rattle.std.specs.Prelude.{◌≡◌, ℕ, Bool, List, [], Option, None, Some, true};
ghost use Rattle.irtext_base.specs.Format.{Accepted, Format, Id};
ghost use Rattle.irtext_base.specs.Own.{Verdict, language, texts_of, unplaced};
ghost use Rattle.irtext_base.specs.Text.{after_space};
ghost use Rattle.irtext_grammar.specs.Names.Acts.{failures_of};
ghost use Rattle.irtext_grammar.specs.Grammar.Bare.{bare};
ghost use Rattle.irtext_grammar.specs.Graphs.Build.{build};
ghost use Rattle.irtext_grammar.specs.Graphs.Closed.{Closed, Fit};
ghost use Rattle.irtext_grammar.specs.Graphs.Contents.{Contents};
ghost use Rattle.irtext_grammar.specs.Graphs.ReservedKeys.{GraphKeepsKeys};
ghost use Rattle.irtext_grammar.specs.Graphs.Graph.{Graph, Printing, written};
ghost use Rattle.irtext_grammar.specs.Graphs.RoundTrip.{GraphKeysDiffer, ComesBack, GraphHeld};
ghost use Rattle.irtext_grammar.specs.Grammar.Marked.{reads_root};
ghost use Rattle.irtext_grammar.specs.Grammar.Section.{Entry};
ghost use Rattle.irtext_grammar.specs.Grammar.Reads.{reads};
ghost use Rattle.irtext_grammar.specs.Graphs.Regained.{ComesBackWhole, Named};
ghost use Rattle.irtext_grammar.specs.Graphs.Same.{Locations, SmallGraph, UpToFillings, resolved_root};
ghost use Rattle.irtext_grammar.specs.Spelling.Section.{text};
ghost use Rattle.irtext_grammar.specs.Graphs.Represents.{Distinct, Represents};
ghost use Rattle.irtext_grammar.specs.Grammar.Tree.{Tree};
ghost use Rattle.irtext_grammar.specs.Graphs.Identifiers.{HasIdentifiers};
ghost use Rattle.irtext_grammar.specs.Spelling.SectionEntries.{SmallSection};

use irtext_base::text::{AttrText, IrText};

/// Take a tree that, apart from places, is what is printed of a root. If it parses from some text and resolves, with a section in which
/// each item finds its own location and outlined attributes, it builds a graph that is equal to the root up to fillings.
pub fn equal_up_to_fillings<T: IrText<A>, A: AttrText<A>, X>()
    ensures { (C : Printing T A) (isolated : Id → Bool) (K : Locations X) (first : ℕ → X)
        (es : List (Entry ℕ A X)) (g : Graph T A) (t : Tree ℕ T A) (text rest : List ℕ) →
        ((p : ℕ) → K.is_position (first p) ≡ true) → Fit C isolated g → SmallGraph C isolated g
        → GraphKeepsKeys g → GraphKeysDiffer g →
        bare t ≡ written C None g → reads (language (texts_of T.reading T.written)
        (texts_of A.reading A.written) C.format_of) t text rest →
        failures_of isolated t es ≡ [] → Contents C K.text es g t
        → UpToFillings K (resolved_root C isolated g) (build isolated first es t) }
{}

/// The printed text of a closed root whose operations fit accepted formats, with its section, parses as a tree and entries that
/// resolve. They build a graph that is equal to the root up to fillings: positions are filled in for unknown locations, and printed
/// names for missing given names and labels.
pub fn text_comes_back<T: IrText<A>, A: AttrText<A>, X>()
    ensures { (location_at : List ℕ → Verdict X) (K : Locations X) (first : ℕ → X) (C : Printing T A)
        (isolated : Id → Bool) (g : Graph T A) (width n : ℕ) →
        ((p : ℕ) → K.is_position (first p) ≡ true) → C.same_own ≡ A.eq →
        HasIdentifiers C g → Fit C isolated g → SmallGraph C isolated g → GraphKeepsKeys g →
        GraphHeld location_at K g → Closed C isolated g → SmallSection C g →
        ComesBack (texts_of T.reading T.written) (texts_of A.reading A.written) location_at K first C
        isolated g width n }
{}

/// Every way to parse the printed text of such a root with its section takes all of the text except white space, resolves, and builds a
/// graph that is equal to the root up to fillings.
pub fn each_reading_comes_back<T: IrText<A>, A: AttrText<A>, X>()
    ensures { (location_at : List ℕ → Verdict X) (K : Locations X) (first : ℕ → X) (C : Printing T A)
        (isolated : Id → Bool) (g : Graph T A) (width n : ℕ) →
        let types = texts_of T.reading T.written in
        let owns = texts_of A.reading A.written in
        ((p : ℕ) → K.is_position (first p) ≡ true) → C.same_own ≡ A.eq →
        HasIdentifiers C g → Fit C isolated g → SmallGraph C isolated g → GraphKeepsKeys g →
        GraphHeld location_at K g → Closed C isolated g → SmallSection C g →
        (t : Tree ℕ T A) (es : List (Entry ℕ A X)) (rest : List ℕ) →
        reads_root (language types owns C.format_of) location_at t es
        (text (unplaced types owns C.format_of) C g n width None) rest →
        (after_space rest ≡ []) × (failures_of isolated t es ≡ [])
        × UpToFillings K (resolved_root C isolated g) (build isolated first es t) }
{}

/// If each block of such a root has a label, and everything that has results or arguments holds given names, nothing is filled in but
/// positions for unknown locations. That holds for every way to parse the text.
pub fn named_root_comes_back<T: IrText<A>, A: AttrText<A>, X>()
    ensures { (location_at : List ℕ → Verdict X) (K : Locations X) (first : ℕ → X) (C : Printing T A)
        (isolated : Id → Bool) (g : Graph T A) (width n : ℕ) →
        ((p : ℕ) → K.is_position (first p) ≡ true) → C.same_own ≡ A.eq →
        HasIdentifiers C g → Fit C isolated g → SmallGraph C isolated g → GraphKeepsKeys g →
        GraphHeld location_at K g → Closed C isolated g → SmallSection C g → Named C g →
        ComesBackWhole (texts_of T.reading T.written) (texts_of A.reading A.written) location_at K first C
        isolated g width n }
{}

/// Take a root in a context's arenas that agrees with what a parsed and resolved tree and its section build. It is closed; its blocks
/// have labels; everything that has results or arguments holds given names; and no block's dictionary contains a label. Formats have to
/// be accepted, and the values and blocks of the root have to be distinct.
pub fn built_root_is_closed<T: IrText<A>, A: AttrText<A>, X>()
    ensures { (first : ℕ → X) (C : Printing T A) (isolated : Id → Bool) (t : Tree ℕ T A)
        (es : List (Entry ℕ A X)) (g : Graph T A) (source rest : List ℕ) →
        ((id : Id) (format : Format) → C.format_of id ≡ Some format → Accepted format) →
        reads (language (texts_of T.reading T.written) (texts_of A.reading A.written) C.format_of) t source
        rest → failures_of isolated t es ≡ [] →
        Represents (resolved_root C isolated g) (build isolated first es t) → Distinct C isolated g →
        Closed C isolated g × GraphKeepsKeys g × Named C g }
{}

/// What was parsed survives printing unchanged: if its operations fit, such a root is printed as a text that parses as an equal root,
/// with a position for each unknown location.
pub fn read_root_comes_back<T: IrText<A>, A: AttrText<A>, X>()
    ensures { (location_at : List ℕ → Verdict X) (K : Locations X) (before first : ℕ → X)
        (C : Printing T A) (isolated : Id → Bool) (t : Tree ℕ T A) (es : List (Entry ℕ A X)) (g : Graph T A)
        (source rest : List ℕ) (width n : ℕ) →
        ((p : ℕ) → K.is_position (first p) ≡ true) → C.same_own ≡ A.eq →
        ((id : Id) (format : Format) → C.format_of id ≡ Some format → Accepted format) →
        reads (language (texts_of T.reading T.written) (texts_of A.reading A.written) C.format_of) t source
        rest → failures_of isolated t es ≡ [] →
        Represents (resolved_root C isolated g) (build isolated before es t) → Distinct C isolated g →
        HasIdentifiers C g → Fit C isolated g → SmallGraph C isolated g → GraphHeld location_at K g
        → SmallSection C g →
        ComesBackWhole (texts_of T.reading T.written) (texts_of A.reading A.written) location_at K first C
        isolated g width n }
{}

/// A text parses as at most one root with its section, with one rest.
pub fn one_root<T: IrText<A>, A: AttrText<A>, X>()
    ensures { (location_at : List ℕ → Verdict X) (formats : Id → Option Format) (x y : Tree ℕ T A)
        (es fs : List (Entry ℕ A X)) (t u v : List ℕ) →
        let l = language (texts_of T.reading T.written) (texts_of A.reading A.written) formats in
        reads_root l location_at x es t u → reads_root l location_at y fs t v → (x ≡ y)
        × (es ≡ fs) × (u ≡ v) }
{}
