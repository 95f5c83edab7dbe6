//! Laws of the round trip: whatever is parsed from the printed text of a closed root is equal to it up to fillings, and no error that
//! depends on the text can occur. Fillings are the given names, labels and positions that the text adds where the root has none.
ghost use Rattle.std.specs.Prelude.{◌≡◌, ◌<◌, ◌^◌, ℕ, Bool, List, [], Option, None, true, length};
ghost use Rattle.std.specs.Str.{IsUtf8, chars, encode_utf8_all};
ghost use Rattle.irtext_base.specs.Format.{Id};
ghost use Rattle.irtext_base.specs.Own.{texts_of, language, unplaced};
ghost use Rattle.irtext_base.specs.Paths.{Written};
ghost use Rattle.irtext_grammar.specs.Grammar.Marked.{AllShown, reads_root};
ghost use Rattle.irtext_grammar.specs.Grammar.Reads.{reads};
ghost use Rattle.irtext_grammar.specs.Grammar.Section.{Entry};
ghost use Rattle.irtext_grammar.specs.Grammar.Tree.{Tree};
ghost use Rattle.irtext_grammar.specs.Graphs.Build.{Built, build};
ghost use Rattle.irtext_grammar.specs.Graphs.Closed.{Fit};
ghost use Rattle.irtext_grammar.specs.Graphs.Graph.{Graph, Limit, Printing, written};
ghost use Rattle.irtext_grammar.specs.Graphs.Regained.{Named};
ghost use Rattle.irtext_grammar.specs.Graphs.Same.{resolved_root};
ghost use Rattle.irtext_grammar.specs.Graphs.Represents.{Distinct, Represents};
ghost use Rattle.irtext_grammar.specs.Names.Acts.{failures_of};
ghost use Rattle.irtext_grammar.specs.Spelling.Section.{text};
ghost use Rattle.irtext_grammar.specs.RootParts.{KeptRoot};
ghost use Rattle.irtext_grammar.specs.Promises.PrintedBack.{locations};
ghost use Rattle.irtext_grammar.specs.Promises.Supported.{location_verdict};
ghost use Rattle.irtext_tokens.specs.AttrTexts.{attr_at};
ghost use Rattle.irtext_grammar.specs.Back.{ClosedRoot, HeldBack, HeldWhole, IsTextOf, ReadsAs, SelfContained};

use irtext_base::text::{AttrText, IrText};

/// Whatever is parsed from the printed text of a closed root of a context, and built (`held`), is equal to the root up to fillings, with
/// the same uses inside, and only white space is left of the text. Also, the text does parse as a root that resolves. So no error that
/// depends on the text can occur: such an error means that whatever the text parses as does not resolve.
pub fn closed_root_comes_back<T: IrText<A>, A: AttrText<A>>()
    ensures builds { (C : Printing T A) (isolated : Id → Bool) (first : ℕ → Written A) (g : Graph T A)
        (width n : ℕ) (t rest : List ℕ)
        (held : Option (Built T A (Written A))) →
        let types = texts_of T.reading T.written in
        let owns = texts_of A.reading A.written in
        ((p : ℕ) → (locations A.written).is_position (first p) ≡ true) → C.same_own ≡ A.eq →
        IsTextOf types owns (attr_at A.reading) C isolated g width n None t → ClosedRoot C isolated g →
        ReadsAs types owns (attr_at A.reading) C isolated first t rest held →
        HeldBack types owns (attr_at A.reading) C isolated g rest held }
    ensures readable { (C : Printing T A) (isolated : Id → Bool) (first : ℕ → Written A) (g : Graph T A)
        (width n : ℕ) (t : List ℕ) →
        let types = texts_of T.reading T.written in
        let owns = texts_of A.reading A.written in
        ((p : ℕ) → (locations A.written).is_position (first p) ≡ true) → C.same_own ≡ A.eq →
        IsTextOf types owns (attr_at A.reading) C isolated g width n None t → ClosedRoot C isolated g →
        (tree : Tree ℕ T A) × (entries : List (Entry ℕ A (Written A))) × (rest : List ℕ) ×
        reads_root (language types owns C.format_of) (location_verdict (attr_at A.reading)) tree entries t
        rest × (failures_of isolated tree entries ≡ []) }
{}

/// If each block of the root has a label, and each operation with results and each block with arguments has given names, nothing is
/// filled in but a position for each unknown location.
pub fn named_root_is_held<T: IrText<A>, A: AttrText<A>>()
    ensures { (C : Printing T A) (isolated : Id → Bool) (first : ℕ → Written A) (g : Graph T A) (width n : ℕ)
        (t rest : List ℕ)
        (held : Option (Built T A (Written A))) →
        let types = texts_of T.reading T.written in
        let owns = texts_of A.reading A.written in
        ((p : ℕ) → (locations A.written).is_position (first p) ≡ true) → C.same_own ≡ A.eq →
        IsTextOf types owns (attr_at A.reading) C isolated g width n None t → ClosedRoot C isolated g
        → Named C g →
        ReadsAs types owns (attr_at A.reading) C isolated first t rest held →
        HeldWhole types owns (attr_at A.reading) C isolated g rest held }
{}

/// The text of a root that was printed with a limit does not parse if a region was elided.
pub fn limited_root_is_refused<T: IrText<A>, A: AttrText<A>>()
    ensures { (C : Printing T A) (isolated : Id → Bool) (g : Graph T A) (width n : ℕ) (limit : Limit)
        (t rest : List ℕ)
        (tree : Tree ℕ T A) (entries : List (Entry ℕ A (Written A))) →
        let types = texts_of T.reading T.written in
        let owns = texts_of A.reading A.written in
        IsTextOf types owns (attr_at A.reading) C isolated g width n limit t
        → (AllShown (written C limit g) → ⊥) →
        reads_root (language types owns C.format_of) (location_verdict (attr_at A.reading)) tree
        entries t rest → ⊥ }
{}

/// If fewer than 2 ^ 64 bytes in memory encode the printed text of a root that meets `KeptRoot` and fits its formats, their characters
/// are a text of the root (`IsTextOf`).
pub fn bytes_are_text<T: IrText<A>, A: AttrText<A>>()
    ensures { (C : Printing T A) (isolated : Id → Bool) (g : Graph T A) (width n : ℕ) (limit : Limit)
        (bytes : List ℕ) →
        let types = texts_of T.reading T.written in
        let owns = texts_of A.reading A.written in
        KeptRoot (attr_at A.reading) A.written C isolated g → Fit C isolated g → IsUtf8 bytes
        → length bytes < 2 ^ 64 →
        bytes ≡ encode_utf8_all (text (unplaced types owns C.format_of) C g n width limit) →
        IsTextOf types owns (attr_at A.reading) C isolated g width n limit (chars bytes) }
{}

/// A root that represents what was parsed and resolved is closed if its operations fit their formats and no two of its values or blocks
/// are the same; its blocks have labels, and everything that has results or arguments has given names. So what is parsed from its printed
/// text is equal to it, except that unknown locations have become positions.
pub fn read_root_is_closed<T: IrText<A>, A: AttrText<A>>()
    ensures closed { (C : Printing T A) (isolated : Id → Bool) (before : ℕ → Written A) (tree : Tree ℕ T A)
        (entries : List (Entry ℕ A (Written A)))
        (source rest : List ℕ) (g : Graph T A) →
        let types = texts_of T.reading T.written in
        let owns = texts_of A.reading A.written in
        reads (language types owns C.format_of) tree source rest → failures_of isolated tree entries ≡ [] →
        Represents (resolved_root C isolated g) (build isolated before entries tree) → Distinct C isolated g
        → Fit C isolated g →
        ClosedRoot C isolated g × Named C g }
    ensures again { (C : Printing T A) (isolated : Id → Bool) (before first : ℕ → Written A)
        (tree : Tree ℕ T A) (entries : List (Entry ℕ A (Written A)))
        (source following : List ℕ) (g : Graph T A) (width n : ℕ) (t rest : List ℕ)
        (held : Option (Built T A (Written A))) →
        let types = texts_of T.reading T.written in
        let owns = texts_of A.reading A.written in
        reads (language types owns C.format_of) tree source following
        → failures_of isolated tree entries ≡ [] →
        Represents (resolved_root C isolated g) (build isolated before entries tree) →
        ((p : ℕ) → (locations A.written).is_position (first p) ≡ true) → C.same_own ≡ A.eq →
        IsTextOf types owns (attr_at A.reading) C isolated g width n None t →
        ReadsAs types owns (attr_at A.reading) C isolated first t rest held →
        HeldWhole types owns (attr_at A.reading) C isolated g rest held }
{}

/// Without a limit no region is left out, and a limit that leaves no region out prints what no limit does.
pub fn limit_that_shows_all<T: IrText<A>, A: AttrText<A>>()
    ensures unlimited { (C : Printing T A) (g : Graph T A) → AllShown (written C None g) }
    ensures same { (C : Printing T A) (g : Graph T A) (n width : ℕ) (limit : Limit) →
        let L = unplaced (texts_of T.reading T.written) (texts_of A.reading A.written) C.format_of in
        AllShown (written C limit g) → text L C g n width limit ≡ text L C g n width None }
{}

/// A root that satisfies `SelfContained` is closed if no two of its values or blocks are the same, as in every context.
pub fn root_alone_is_closed<T, A>()
    ensures { (C : Printing T A) (isolated : Id → Bool) (g : Graph T A) → SelfContained C isolated g
        → Distinct C isolated g → ClosedRoot C isolated g }
{}
