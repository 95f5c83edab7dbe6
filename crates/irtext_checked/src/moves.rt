//! Moves of an object to where the caller does not know whether it can be.
ghost use Rattle.std.specs.Prelude.{◌≡◌, ℕ, IfErr, OnOk, OnErr};
ghost use Rattle.irtext_base.specs.declared.location.Location.{Unknown};
ghost use Rattle.irtext_graph.specs.Graph.{IsNew, KeepsOlder};
ghost use Rattle.irtext_graph.specs.Objects.{Fits};
ghost use Rattle.irtext_graph_queries.specs.Edits.{MovesBefore, MovesAfter, MovesToEnd, IsNewAround};
ghost use Rattle.irtext_checked.specs.Placing.{CanHold, CanStandBeside, FailsToHold, FailsToMoveBeside, RefusesFor};

use crate::placing::{unmet_to_hold, unmet_to_move_beside};
use irtext_base::result;
use irtext_base::result::ErrorKind;
use irtext_base::text::{AttrText, IrText};
use irtext_context::base::{Context, Ptr};
use irtext_graph::graph::Graph;
use irtext_graph::held::{HasGraph, Holds, Kind};
use irtext_graph::object::Object;
use irtext_graph_queries::beside::{move_after, move_before, move_to_end};

/// Moves that test first what the calls of `ObjectEdits` require. If an error is returned, it is of kind invalid argument and has no
/// location, and the context is unchanged.
pub trait TryMove<K: Kind>: Sized {
    ghost use Rattle.irtext_graph.specs.declared.arena.Ptr.{Ptr};

    // the pointer
    ghost pointer: { Self → Ptr K };

    /// Removes the object from its parent, if it has one, and makes it a child of the parent of `mark`, just before `mark`, as `move_before`
    /// does. Fails with `Text` if `mark` or the object is not live, `mark` has no parent, or `mark` is the object or nested in it. The text
    /// says which. Fails with `Memory` if an allocation fails, also that of the text.
    fn try_move_before<T: IrText<A>, A: AttrText<A>>(
        self,
        mark: Self,
        ctx: &mut Context<T, A>,
    ) -> result::Result<(), A>
        ensures ok { OnOk result (MovesBefore ctx.old.graph ctx.new.graph (K.object (pointer mark))
            (K.object (pointer self))) }
        ensures can { OnOk result (CanStandBeside ctx.old.graph (K.object (pointer mark))
            (K.object (pointer self))) }
        ensures rest { ctx.new ≡ record ctx.old { graph = ctx.new.graph } }
        ensures err { OnErr result (ctx.new ≡ ctx.old) }
        ensures refused { IfErr result (λ e. RefusesFor (FailsToMoveBeside ctx.old.graph
            (K.object (pointer mark)) (K.object (pointer self))) e.err) }
        ensures kept { (m : ℕ) → IsNewAround m ctx.old.graph (K.object (pointer mark))
            → IsNew m ctx.old.graph (K.object (pointer self))
            → IsNewAround m ctx.old.graph (K.object (pointer self))
            → KeepsOlder m ctx.old.graph ctx.new.graph }
        ensures kind { IfErr result (λ e. (e.kind ≡ ErrorKind.InvalidArgument) × (e.loc ≡ Unknown)) };

    /// Removes the object from its parent, if it has one, and makes it a child of the parent of `mark`, just after `mark`, as `move_after`
    /// does. Fails as `try_move_before` does.
    fn try_move_after<T: IrText<A>, A: AttrText<A>>(
        self,
        mark: Self,
        ctx: &mut Context<T, A>,
    ) -> result::Result<(), A>
        ensures ok { OnOk result (MovesAfter ctx.old.graph ctx.new.graph (K.object (pointer mark))
            (K.object (pointer self))) }
        ensures can { OnOk result (CanStandBeside ctx.old.graph (K.object (pointer mark))
            (K.object (pointer self))) }
        ensures rest { ctx.new ≡ record ctx.old { graph = ctx.new.graph } }
        ensures err { OnErr result (ctx.new ≡ ctx.old) }
        ensures refused { IfErr result (λ e. RefusesFor (FailsToMoveBeside ctx.old.graph
            (K.object (pointer mark)) (K.object (pointer self))) e.err) }
        ensures kept { (m : ℕ) → IsNewAround m ctx.old.graph (K.object (pointer mark))
            → IsNew m ctx.old.graph (K.object (pointer self))
            → IsNewAround m ctx.old.graph (K.object (pointer self))
            → KeepsOlder m ctx.old.graph ctx.new.graph }
        ensures kind { IfErr result (λ e. (e.kind ≡ ErrorKind.InvalidArgument) × (e.loc ≡ Unknown)) };

    /// Removes the object from its parent, if it has one, and makes it the last child of the holder, as `move_to_end` does. Fails with
    /// `Text` if the holder or the object is not live, or the holder is the object or nested in it. The text says which. Fails with `Memory`
    /// if an allocation fails, also that of the text.
    fn try_move_to_end<H: Holds<K>, T: IrText<A>, A: AttrText<A>>(
        self,
        holder: Ptr<H>,
        ctx: &mut Context<T, A>,
    ) -> result::Result<(), A>
        ensures ok { OnOk result (MovesToEnd ctx.old.graph ctx.new.graph (H.object holder)
            (K.object (pointer self))) }
        ensures can { OnOk result (CanHold ctx.old.graph (H.object holder) (K.object (pointer self))) }
        ensures rest { ctx.new ≡ record ctx.old { graph = ctx.new.graph } }
        ensures err { OnErr result (ctx.new ≡ ctx.old) }
        ensures refused { IfErr result (λ e. RefusesFor (FailsToHold ctx.old.graph (H.object holder)
            (K.object (pointer self))) e.err) }
        ensures kept { (m : ℕ) → IsNew m ctx.old.graph (H.object holder)
            → IsNew m ctx.old.graph (K.object (pointer self))
            → IsNewAround m ctx.old.graph (K.object (pointer self))
            → KeepsOlder m ctx.old.graph ctx.new.graph }
        ensures kind { IfErr result (λ e. (e.kind ≡ ErrorKind.InvalidArgument) × (e.loc ≡ Unknown)) };
}

/// Moves an object to just before another one if it can be moved there. If not, or if out of memory, the graph is unchanged.
#[tactic(auto, using(crate::proofs::Unmets::refuses_for))]
fn put_before<O: Drop, B: Drop, T: Drop, A>(
    graph: &mut Graph<O, B, T>,
    mark: Object,
    item: Object,
) -> result::Result<(), A>
    requires { (k : _) → Fits k mark → Fits k item }
    ensures ok { OnOk result (MovesBefore graph.old graph.new mark item) }
    ensures can { OnOk result (CanStandBeside graph.old mark item) }
    ensures err { OnErr result (graph.new ≡ graph.old) }
    ensures refused { IfErr result (λ e. RefusesFor (FailsToMoveBeside graph.old mark item) e.err) }
    ensures kept { (m : ℕ) → IsNewAround m graph.old mark → IsNew m graph.old item
        → IsNewAround m graph.old item → KeepsOlder m graph.old graph.new }
    ensures kind { IfErr result (λ e. (e.kind ≡ ErrorKind.InvalidArgument) × (e.loc ≡ Unknown)) }
{
    if let Some(unmet) = unmet_to_move_beside(graph, mark, item) {
        return Err(unmet.into_error(graph.allocator()));
    }
    Ok(move_before(graph, mark, item)?)
}

/// The same just after it.
#[tactic(auto, using(crate::proofs::Unmets::refuses_for))]
fn put_after<O: Drop, B: Drop, T: Drop, A>(
    graph: &mut Graph<O, B, T>,
    mark: Object,
    item: Object,
) -> result::Result<(), A>
    requires { (k : _) → Fits k mark → Fits k item }
    ensures ok { OnOk result (MovesAfter graph.old graph.new mark item) }
    ensures can { OnOk result (CanStandBeside graph.old mark item) }
    ensures err { OnErr result (graph.new ≡ graph.old) }
    ensures refused { IfErr result (λ e. RefusesFor (FailsToMoveBeside graph.old mark item) e.err) }
    ensures kept { (m : ℕ) → IsNewAround m graph.old mark → IsNew m graph.old item
        → IsNewAround m graph.old item → KeepsOlder m graph.old graph.new }
    ensures kind { IfErr result (λ e. (e.kind ≡ ErrorKind.InvalidArgument) × (e.loc ≡ Unknown)) }
{
    if let Some(unmet) = unmet_to_move_beside(graph, mark, item) {
        return Err(unmet.into_error(graph.allocator()));
    }
    Ok(move_after(graph, mark, item)?)
}

/// Moves an object to the end of another one if it can be moved there. If not, or if out of memory, the graph is unchanged.
#[tactic(auto, using(crate::proofs::Unmets::refuses_for))]
fn put_last<O: Drop, B: Drop, T: Drop, A>(
    graph: &mut Graph<O, B, T>,
    holder: Object,
    item: Object,
) -> result::Result<(), A>
    requires { Fits holder item }
    ensures ok { OnOk result (MovesToEnd graph.old graph.new holder item) }
    ensures can { OnOk result (CanHold graph.old holder item) }
    ensures err { OnErr result (graph.new ≡ graph.old) }
    ensures refused { IfErr result (λ e. RefusesFor (FailsToHold graph.old holder item) e.err) }
    ensures kept { (m : ℕ) → IsNew m graph.old holder → IsNew m graph.old item → IsNewAround m graph.old item
        → KeepsOlder m graph.old graph.new }
    ensures kind { IfErr result (λ e. (e.kind ≡ ErrorKind.InvalidArgument) × (e.loc ≡ Unknown)) }
{
    if let Some(unmet) = unmet_to_hold(graph, holder, item) {
        return Err(unmet.into_error(graph.allocator()));
    }
    Ok(move_to_end(graph, holder, item)?)
}

impl<K: Kind> TryMove<K> for Ptr<K> {
    ghost pointer = { λ p. p };

    fn try_move_before<T: IrText<A>, A: AttrText<A>>(
        self,
        mark: Ptr<K>,
        ctx: &mut Context<T, A>,
    ) -> result::Result<(), A> {
        let item = K::object(self);
        put_before(ctx.graph_mut(), K::object(mark), item)
    }

    fn try_move_after<T: IrText<A>, A: AttrText<A>>(
        self,
        mark: Ptr<K>,
        ctx: &mut Context<T, A>,
    ) -> result::Result<(), A> {
        let item = K::object(self);
        put_after(ctx.graph_mut(), K::object(mark), item)
    }

    fn try_move_to_end<H: Holds<K>, T: IrText<A>, A: AttrText<A>>(
        self,
        holder: Ptr<H>,
        ctx: &mut Context<T, A>,
    ) -> result::Result<(), A> {
        put_last(ctx.graph_mut(), H::object(holder), K::object(self))
    }
}
