//! The law of the two calls: what is parsed from the printed text of a closed root is equal to it up to fillings. Fillings are the given
//! names, labels and positions that the text adds where the root has none.
ghost use Rattle.std.specs.Prelude.{◌≡◌, List, None, Some, ℕ};
ghost use Rattle.irtext_graph.specs.declared.arena.Ptr.{Ptr};
ghost use Rattle.irtext_graph.specs.declared.object.BasicBlock.{BasicBlock};
ghost use Rattle.irtext_graph.specs.declared.object.Operation.{Operation};
ghost use Rattle.irtext_graph.specs.declared.object.Value.{Value};
ghost use Rattle.irtext_grammar.specs.Contexts.Formats.{isolated};
ghost use Rattle.irtext_grammar.specs.Contexts.Nested.{printing_over, seen_root};
ghost use Rattle.irtext_grammar.specs.Grammar.Marked.{AllShown};
ghost use Rattle.irtext_grammar.specs.Graphs.Closed.{Fit};
ghost use Rattle.irtext_grammar.specs.Graphs.Graph.{Graph, written};
ghost use Rattle.irtext_grammar.specs.Graphs.Regained.{Named};
ghost use Rattle.irtext_grammar.specs.UniqueNames.{value_name, block_name};
ghost use Rattle.irtext_grammar.specs.Back.{ClosedRoot};
ghost use Rattle.irtext_closed.specs.Closed.{IsClosedRoot};
ghost use Rattle.irtext_print_ir.specs.Printers.Printed.{block_round};
ghost use Rattle.pliron_text.specs.Alike.{AreKnownAlike};
ghost use Rattle.pliron_text.specs.PrintedRoot as root;

use irtext_base::text::{AttrText, IrText};
use irtext_checked::context::keeps_parts;
use irtext_context::base::Context;

/// What is printed of a closed root of a context, with its section and under no limit that elides a region, is parsed back from its bytes
/// in any context that knows the root's operations alike, in whatever order they were registered. Each root that is returned is equal to the printed one up to fillings, with the same uses
/// inside, and only white space is left of the text. If each block has a label, and each operation with results and each block with
/// arguments has given names, nothing is filled in but positions. And it is no text that is rejected (`RefusesRoot`). `keeps_parts`
/// ensures what is required here of the parts of a root, and printing ensures that the root fits its formats.
pub fn printed_root_comes_back<T: IrText<A>, A: AttrText<A>, U>()
    ensures builds { root.OfClosed T.IrText.own A.IrText.own A.AttrText.own A.eq (λ ctx g bytes.
        root.ComesBack T.IrText.own A.IrText.own A.AttrText.own A.eq U ctx g bytes) }
    ensures whole { root.OfClosed T.IrText.own A.IrText.own A.AttrText.own A.eq (λ ctx g bytes.
        Named (root.printing_in T.IrText.own A.IrText.own A.AttrText.own A.eq ctx) g →
        root.ComesBackWhole T.IrText.own A.IrText.own A.AttrText.own A.eq U ctx g bytes) }
    ensures never_refused { root.OfClosed T.IrText.own A.IrText.own A.AttrText.own A.eq (λ ctx g bytes.
        root.IsNeverRefused T.IrText.own A.IrText.own A.AttrText.own A.eq U ctx g bytes) }
{}

/// A root that was parsed, and is printed in the context that contains it, is closed, each of its blocks has a label, and each operation
/// with results and each block with arguments has given names. What printing sees of it represents what the context holds, each number
/// for the place of its definition. So it comes back whole: unknown locations become positions, and nothing else is filled in.
pub fn read_root_comes_back<T: IrText<A>, A: AttrText<A>, U, V>()
    ensures closed { root.OfRead T.IrText.own A.IrText.own A.AttrText.own A.eq U (λ p ctx g.
        let C = root.printing_in T.IrText.own A.IrText.own A.AttrText.own A.eq ctx in
        ClosedRoot C (isolated ctx.dialects) g × Named C g) }
    ensures represented { root.OfRead T.IrText.own A.IrText.own A.AttrText.own A.eq U (λ p ctx g.
        root.RepresentsHeld T.IrText.own A.IrText.own A.AttrText.own A.eq p ctx g) }
    ensures whole { root.OfReadWhole T.IrText.own A.IrText.own A.AttrText.own A.eq U (λ ctx g bytes.
        root.ComesBackWhole T.IrText.own A.IrText.own A.AttrText.own A.eq V ctx g bytes) }
{}

/// A root of a context that is closed, as `check_closed` says, is in no block, and it is closed as printing sees it if its operations fit
/// their formats.
pub fn checked_root_is_closed<T: IrText<A>, A: AttrText<A>>(ctx: &Context<T, A>)
    ensures nowhere { (op : Ptr Operation) → IsClosedRoot ctx.now op → block_round ctx.now op ≡ None }
    ensures closed { (op : Ptr Operation) (g : Graph T A) → IsClosedRoot ctx.now op
        → seen_root A.written ctx.now op ≡ Some g →
        let C = printing_over ctx.now A.outlined A.print_once A.eq in
        Fit C (isolated ctx.now.dialects) g → ClosedRoot C (isolated ctx.now.dialects) g }
{
    keeps_parts(ctx);
}

/// What is printed of a root under a limit that elides a region is not the text of a root: the parser builds nothing from it in any context
/// that knows the root's operations alike.
pub fn limited_root_is_refused<T: IrText<A>, A: AttrText<A>, U>()
    ensures { root.OfLimited T.IrText.own A.IrText.own A.AttrText.own A.eq (λ ctx g limit bytes.
        (AllShown (written (root.printing_in T.IrText.own A.IrText.own A.AttrText.own A.eq ctx) limit g) →
        ⊥) →
        root.OfParsed T.IrText.own A.IrText.own A.AttrText.own A.eq {U = U} (λ d. AreKnownAlike d ctx.dialects g)
        bytes (λ q new. ⊥)) }
{}

/// The names under which the values and the blocks of a context are printed are distinct: two values with the same name are the same
/// value, two blocks with the same name are the same block, and no value has the name of a block.
pub fn printed_names_differ<T: IrText<A>, A: AttrText<A>>(ctx: &Context<T, A>)
    ensures values { (v w : Value) (name : List ℕ) → value_name ctx.now v ≡ Some name → value_name ctx.now
        w ≡ Some name → v ≡ w }
    ensures blocks { (b c : Ptr BasicBlock) (name : List ℕ) → block_name ctx.now b ≡ Some name
        → block_name ctx.now c ≡ Some name → b ≡ c }
    ensures between { (v : Value) (b : Ptr BasicBlock) (name : List ℕ) → value_name ctx.now v ≡ Some name
        → block_name ctx.now b ≡ Some name → ⊥ }
{
    keeps_parts(ctx);
}
