//! Laws of building a tree while nested text is parsed, over definitions alone: what is built is the tree, and two sets of actions can be
//! performed side by side.
ghost use Rattle.std.specs.Prelude.{◌≡◌, ℕ, Bool, List, Option, true};
ghost use Rattle.irtext_base.specs.Text.{Text};
ghost use Rattle.irtext_base.specs.Format.{Id};
ghost use Rattle.irtext_base.specs.Own.{texts_of, language};
ghost use Rattle.irtext_grammar.specs.Reached.{Advanced, Actions, freely, do_tree, operation_at};
ghost use Rattle.irtext_grammar.specs.Resume.{Open, rest_of, whole};
ghost use Rattle.irtext_grammar.specs.Both.{both, AreBeside};
ghost use Rattle.irtext_grammar.specs.Building.{Building, building, nothing_open, finished, operation_added};
ghost use Rattle.irtext_context.specs.Dialects.{Table};
ghost use Rattle.irtext_tokens.specs.AttrTexts.{attr_at};
ghost use Rattle.irtext_grammar.specs.Contexts.Formats.{format_of, isolated, IsAccepted};
ghost use Rattle.irtext_grammar.specs.Grammar.Reads.{reads};
ghost use Rattle.irtext_grammar.specs.Grammar.Tree.{Tree};

use irtext_base::text::{AttrText, IrText};

/// The tree that is built while nested text is parsed is the tree that the text parses as. If each registered format meets all its
/// conditions, then what the parser of an operation, with everything nested in it, builds from nothing is a tree of the grammar. Each
/// tree of the grammar is built from nothing, up to the same rest, if the parser accepts any attribute under a reserved key; if something
/// is open, the tree is added there as the last one. The actions of the tree, performed from nothing, build the same.
pub fn what_is_built_is_the_tree<T: IrText<A>, A: AttrText<A>>()
    ensures read { (dialects : List (Text × Table)) (text rest : Text) (b : Building T A)
        → ((id : Id) → IsAccepted dialects id) →
        operation_at dialects T.reading (attr_at A.reading) (building (format_of dialects)) true text
        nothing_open ≡ Advanced tt b rest →
        (x : Tree ℕ T A) × reads (language (texts_of T.reading T.written) (texts_of A.reading A.written)
        (format_of dialects)) x text rest × (b ≡ finished x) }
    ensures found { (dialects : List (Text × Table)) (x : Tree ℕ T A) (text rest : Text) →
        reads (language (texts_of T.reading T.written) (texts_of A.reading A.written) (format_of dialects))
        x text rest →
        operation_at dialects T.reading (attr_at A.reading) (freely (building (format_of dialects))) true text
        nothing_open ≡ Advanced tt (finished x) rest }
    ensures added { (dialects : List (Text × Table)) (x : Tree ℕ T A) (text rest : Text) (b : Building T A) →
        reads (language (texts_of T.reading T.written) (texts_of A.reading A.written) (format_of dialects))
        x text rest →
        operation_at dialects T.reading (attr_at A.reading) (freely (building (format_of dialects))) true text b
        ≡ Advanced tt (operation_added x.own x.regions b.unfinished b.tree) rest }
    ensures done { (dialects : List (Text × Table)) (x : Tree ℕ T A) (text rest : Text) →
        reads (language (texts_of T.reading T.written) (texts_of A.reading A.written) (format_of dialects))
        x text rest →
        do_tree (isolated dialects) (building (format_of dialects)) x nothing_open ≡ finished x }
{}

/// Two sets of actions on what is parsed can be performed side by side. The actions of a tree are then those of both. A parse ends, or is
/// stuck at a fault of the text, exactly where that with each of the two does, with the same rest or the same cause and place, if both
/// accept any attribute under a reserved key or none of the two does. This also holds of the rest of a parse, given what is open.
pub fn actions_side_by_side<T: IrText<A>, A: AttrText<A>, U, V>()
    ensures tree { (isolated : Id → Bool) (d : Actions T A U) (e : Actions T A V) (x : Tree ℕ T A)
        (s : U) (t : V) →
        do_tree isolated (both d e) x (s, t) ≡ (do_tree isolated d x s, do_tree isolated e x t) }
    ensures operation { (dialects : List (Text × Table)) (d : Actions T A U) (e : Actions T A V) →
        d.any_key ≡ e.any_key → (inside : Bool) (text : Text) (s : U) (t : V) →
        AreBeside (operation_at dialects T.reading (attr_at A.reading) d inside text s)
        (operation_at dialects T.reading (attr_at A.reading) e inside text t)
        (operation_at dialects T.reading (attr_at A.reading) (both d e) inside text (s, t)) }
    ensures rest { (dialects : List (Text × Table)) (d : Actions T A U) (e : Actions T A V) →
        d.any_key ≡ e.any_key → (o : Open T A) (text : Text) (s : U) (t : V) →
        AreBeside (rest_of dialects T.reading (attr_at A.reading) d o text s)
        (rest_of dialects T.reading (attr_at A.reading) e o text t)
        (rest_of dialects T.reading (attr_at A.reading) (both d e) o text (s, t)) }
    ensures whole { (dialects : List (Text × Table)) (d : Actions T A U) (e : Actions T A V) →
        d.any_key ≡ e.any_key → (next : Option (Open T A)) (frames : List (Open T A)) (s : U) (t : V) (text : Text) →
        AreBeside (whole dialects T.reading (attr_at A.reading) d next frames s text)
        (whole dialects T.reading (attr_at A.reading) e next frames t text)
        (whole dialects T.reading (attr_at A.reading) (both d e) next frames (s, t) text) }
{}
