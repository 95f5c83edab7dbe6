//! Laws of nested parsing, over definitions alone: what is parsed is a tree of the grammar, and the actions that are performed are those
//! of the tree.
ghost use Rattle.std.specs.Prelude.{◌≡◌, ℕ, List, true};
ghost use Rattle.irtext_base.specs.Text.{Text};
ghost use Rattle.irtext_base.specs.Format.{Id};
ghost use Rattle.irtext_base.specs.Own.{texts_of, language};
ghost use Rattle.irtext_context.specs.Dialects.{Table};
ghost use Rattle.irtext_tokens.specs.AttrTexts.{attr_at};
ghost use Rattle.irtext_grammar.specs.Contexts.Formats.{format_of, isolated, IsAccepted};
ghost use Rattle.irtext_grammar.specs.Grammar.Reads.{reads};
ghost use Rattle.irtext_grammar.specs.Grammar.Tree.{Tree};
ghost use Rattle.irtext_grammar.specs.Names.Acts.{tree_script};
ghost use Rattle.irtext_grammar.specs.Names.History as history;
ghost use Rattle.irtext_grammar.specs.Names.History.{events, run};
ghost use Rattle.irtext_grammar.specs.Names.Script.{Path, done};
ghost use Rattle.irtext_grammar.specs.Naming.{naming, Names};
ghost use Rattle.irtext_grammar.specs.Reached.{Advanced, Actions, freely, do_tree, operation_at};

use irtext_base::text::{AttrText, IrText};

/// For any actions, and if each registered format meets all its conditions: what the parser of an operation, with everything nested in
/// it, parses of a text inside a region, the grammar parses as a tree, and the actions performed are those of the tree. And what the
/// grammar parses as a tree, the parser parses up to the same rest, and performs the actions of the tree, if it accepts any attribute
/// under a reserved key. What it parses where it tests keys it parses so, too.
pub fn nested_text_is_a_tree<T: IrText<A>, A: AttrText<A>, U>()
    ensures read { (dialects : List (Text × Table)) (does : Actions T A U) (text rest : Text) (s t : U) →
        ((id : Id) → IsAccepted dialects id) →
        operation_at dialects T.reading (attr_at A.reading) does true text s ≡ Advanced tt t rest →
        (x : Tree ℕ T A) × reads (language (texts_of T.reading T.written) (texts_of A.reading A.written)
        (format_of dialects)) x text rest
        × (t ≡ do_tree (isolated dialects) does x s) }
    ensures found { (dialects : List (Text × Table)) (does : Actions T A U) (x : Tree ℕ T A)
        (text rest : Text) (s : U) →
        reads (language (texts_of T.reading T.written) (texts_of A.reading A.written) (format_of dialects))
        x text rest →
        operation_at dialects T.reading (attr_at A.reading) (freely does) true text s
        ≡ Advanced tt (do_tree (isolated dialects) does x s) rest }
    ensures tested { (dialects : List (Text × Table)) (does : Actions T A U) (text rest : Text) (s t : U) →
        ((id : Id) → IsAccepted dialects id) →
        operation_at dialects T.reading (attr_at A.reading) does true text s ≡ Advanced tt t rest →
        operation_at dialects T.reading (attr_at A.reading) (freely does) true text s ≡ Advanced tt t rest }
{}

/// What is done with names while nested text is parsed, act by act, is what the two passes over the tree say: each operation and block of
/// a text that parses as a tree has a place of its own, and with operations and blocks named by their places the parser, if it accepts any
/// attribute under a reserved key, has the same outcome as the machine that processes the script of the tree.
pub fn names_run_the_machine<T: IrText<A>, A: AttrText<A>>()
    ensures { (dialects : List (Text × Table)) (x : Tree ℕ T A) (text rest : Text) →
        reads (language (texts_of T.reading T.written) (texts_of A.reading A.written) (format_of dialects))
        x text rest →
        (path : ℕ → Path) × Names path x × ((o : history.Outcome) →
        operation_at dialects T.reading (attr_at A.reading) (freely (naming (format_of dialects) path)) true
        text o
        ≡ Advanced tt (run o (events (tree_script (isolated dialects) x done))) rest) }
{}
