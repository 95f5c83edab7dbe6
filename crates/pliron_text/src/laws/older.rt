//! The frame laws: what was in a context before a text was parsed in it.
ghost use Rattle.std.specs.Prelude.{◌≡◌, IsSome};
ghost use Rattle.irtext_context.specs.Context.{ContextView, operation};
ghost use Rattle.irtext_context.specs.Made.{SameObjects};
ghost use Rattle.irtext_graph.specs.declared.arena.Ptr.{Ptr};
ghost use Rattle.irtext_graph.specs.declared.object.BasicBlock.{BasicBlock};
ghost use Rattle.irtext_graph.specs.declared.object.Object.{Object};
ghost use Rattle.irtext_graph.specs.declared.object.Object.TheVariants.{TheBlock, TheOperation};
ghost use Rattle.irtext_graph.specs.declared.object.Operation.{Operation};
ghost use Rattle.irtext_graph.specs.declared.object.Region.{Region};
ghost use Rattle.irtext_graph.specs.Graph.{CountsOn, IsInside, IsLive};
ghost use Rattle.irtext_grammar.specs.Contexts.Nested.{place_of, pointers, seen_root};
ghost use Rattle.irtext_closed.specs.Located.{IsLocatedRoot};
ghost use Rattle.irtext_names.specs.Alone.{OnlyNewIn};
ghost use Rattle.irtext_names.specs.Held.{held_root, IsWhole};
ghost use Rattle.irtext_names.specs.OnlyNew.{OnlyNew};
ghost use Rattle.pliron_text.specs.Older.{IsOlder, KeepsRoot, RootLocated};
ghost use Rattle.pliron_text.specs.PrintsAsBefore.{PrintsAsBefore};

use irtext_base::text::{AttrText, IrText};
use irtext_checked::context::keeps_parts;
use irtext_context::base::Context;

/// A parse keeps each operation that was there before with everything nested in it: one that is accepted (`OnlyNew`, which
/// `top_level_parse` and the other parsers of operations promise), one that is refused (`SameObjects`), and one of a region
/// (`OnlyNewIn`, which `Region::parse` promises), unless the region became a part of it.
pub fn parses_keep_older_roots<T: IrText<A>, A: AttrText<A>>()
    ensures accepted { (op p : Ptr Operation) (old new : ContextView T A) → IsSome (operation old p)
        → OnlyNew op old new → KeepsRoot p old new }
    ensures refused { (p : Ptr Operation) (old new : ContextView T A) → IsSome (operation old p)
        → SameObjects old new → KeepsRoot p old new }
    ensures region { (op p : Ptr Operation) (r : Ptr Region) (old new : ContextView T A) → IsSome (operation old p)
        → OnlyNewIn op r old new → (IsInside old.graph (TheOperation p) (TheOperation op) → ⊥)
        → KeepsRoot p old new }
{}

/// A root that is kept is as it was: what is nested in it, what the context holds of it, and what printing sees of it. If it had no
/// placeholder left, it has none. It is there for the next parse too, with the files of its locations.
pub fn older_roots_stay<T: IrText<A>, A: AttrText<A>>()
    ensures nested { (p : Ptr Operation) (old new : ContextView T A) → IsOlder p old new
        → pointers new.graph p ≡ pointers old.graph p }
    ensures held { (p : Ptr Operation) (old new : ContextView T A) → IsOlder p old new
        → held_root new p ≡ held_root old p }
    ensures seen { (p : Ptr Operation) (old new : ContextView T A) → IsOlder p old new
        → seen_root A.IrText.written new p ≡ seen_root A.IrText.written old p }
    ensures whole { (p : Ptr Operation) (old new : ContextView T A) → IsOlder p old new
        → IsWhole old p → IsWhole new p }
    ensures there { (p : Ptr Operation) (old new : ContextView T A) → IsOlder p old new
        → IsSome (operation new p) }
    ensures located { (p : Ptr Operation) (old new : ContextView T A) → IsOlder p old new
        → RootLocated new p }
{}

/// A root of a context that keeps the files of all locations in it, as `is_located` says, is one that is printed as before after a parse,
/// which asks for this (`RootLocated`).
pub fn tested_root_is_located<T: IrText<A>, A: AttrText<A>>(ctx: &Context<T, A>)
    ensures { (op : Ptr Operation) → IsLocatedRoot ctx.now op → RootLocated ctx.now op }
{
    keeps_parts(ctx);
}

/// A root that is kept is printed as before, in any layout, and not printed for the same reasons. So if a text is parsed, then others,
/// accepted or refused, and then the first root is printed, its text is that of the context before the others.
pub fn older_roots_print_as_before<T: IrText<A>, A: AttrText<A>, U>()
    ensures { (p : Ptr Operation) (old new : ContextView T A) → IsOlder p old new
        → PrintsAsBefore T.IrText.own A.IrText.own A.AttrText.own A.eq U p old new }
{}

/// No place comes twice: an object that was erased is not there again, however often texts are parsed, and the place and generation by
/// which a new block is printed are those of no block that was ever in the context. Each outcome of a parse promises `CountsOn`.
pub fn no_place_comes_twice<T: IrText<A>, A: AttrText<A>>()
    ensures gone { (q : Object) (first old new : ContextView T A) → CountsOn first.graph old.graph
        → CountsOn old.graph new.graph → IsLive first.graph q → IsLive new.graph q → IsLive old.graph q }
    ensures places { (b d : Ptr BasicBlock) (first old new : ContextView T A) → CountsOn first.graph old.graph
        → CountsOn old.graph new.graph → IsLive first.graph (TheBlock b) → IsLive new.graph (TheBlock d)
        → (IsLive old.graph (TheBlock d) → ⊥) → place_of new d ≡ place_of first b → ⊥ }
    ensures on { (first old new : ContextView T A) → CountsOn first.graph old.graph → CountsOn old.graph new.graph
        → CountsOn first.graph new.graph }
{}
