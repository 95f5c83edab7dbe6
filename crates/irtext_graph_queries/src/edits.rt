//! Edits of where objects are: inserting, moving, unlinking and erasing them.
ghost use Rattle.std.specs.Prelude.{◌≡◌, ◌≤◌, ◌<◌, ◌↔◌, ℕ, IsSome, IsTrue, OnOk, OnErr, length};
ghost use Rattle.irtext_graph.specs.Edits.{InsertsAt, Redirects};
ghost use Rattle.irtext_graph.specs.Erasing.{CanErase, DropsUses, Erases};
ghost use Rattle.irtext_graph.specs.Graph.{IsLive, IsInside, CanInsert, Appends, Unlinks, IsNew, KeepsOlder, parent, children};
ghost use Rattle.irtext_graph.specs.Parts.{operands, successors, IsDefinedValue};
ghost use Rattle.irtext_graph.specs.declared.object.Defined.TheVariants.{OfValue, OfBlock};
ghost use Rattle.irtext_graph.specs.declared.object.Object.TheVariants.{TheOperation, TheBlock};
ghost use Rattle.irtext_graph.specs.declared.object.Site.TheVariants.{AtOperand, AtSuccessor};
ghost use Rattle.irtext_graph_queries.specs.Edits.{KeepsBeside, KeepsRound, KeepsOutside, IsNewAround, InsertsBefore, InsertsAfter, MovesBefore, MovesAfter, MovesToEnd};

use crate::beside::{insert_after, insert_before, move_after, move_before, move_to_end};
use irtext_graph::arena::Ptr;
use irtext_graph::held::{HasGraph, Holds, Kind};
use irtext_graph::object::{BasicBlock, Defined, Operation, Site, Value};
use irtext_memory::OutOfMemory;

/// Edits of where an object is, by its pointer, in any holder of a graph. The object must be live in the graph. Calls fail only when out of
/// memory, and then nothing changes.
pub trait ObjectEdits<K: Kind>: Sized {
    ghost use Rattle.irtext_graph.specs.declared.arena.Ptr.{Ptr};

    // the pointer
    ghost pointer: { Self → Ptr K };

    /// Whether the object has no parent, and the holder is neither the object nor nested in it: the condition of `insert_at_back`.
    fn can_insert_at_back<H: Holds<K>, C: HasGraph>(self, holder: Ptr<H>, ctx: &C) -> bool
        requires holder { IsLive (C.graph ctx.now) (H.object holder) }
        requires alive { IsLive (C.graph ctx.now) (K.object (pointer self)) }
        ensures { IsTrue result ↔ CanInsert (C.graph ctx.now) (H.object holder) (K.object (pointer self)) };

    /// Makes the object the last child of the holder.
    fn insert_at_back<H: Holds<K>, C: HasGraph>(
        self,
        holder: Ptr<H>,
        ctx: &mut C,
    ) -> Result<(), OutOfMemory>
        requires holder { IsLive (C.graph ctx.old) (H.object holder) }
        requires alive { IsLive (C.graph ctx.old) (K.object (pointer self)) }
        requires can { CanInsert (C.graph ctx.old) (H.object holder) (K.object (pointer self)) }
        ensures ok { OnOk result (Appends (C.graph ctx.old) (C.graph ctx.new) (H.object holder)
            (K.object (pointer self))) }
        ensures err { OnErr result (ctx.new ≡ ctx.old) }
        ensures kept { (m : ℕ) → IsNew m (C.graph ctx.old) (H.object holder) → IsNew m (C.graph ctx.old)
            (K.object (pointer self))
            → KeepsOlder m (C.graph ctx.old) (C.graph ctx.new) }
        ensures rest { ctx.new ≡ C.with_graph ctx.old (C.graph ctx.new) };

    /// Makes the object the child of the holder with an index, at most the number of children; those from there on come after it. Its time
    /// grows with the children after it.
    fn insert_at<H: Holds<K>, C: HasGraph>(
        self,
        holder: Ptr<H>,
        index: usize,
        ctx: &mut C,
    ) -> Result<(), OutOfMemory>
        requires holder { IsLive (C.graph ctx.old) (H.object holder) }
        requires alive { IsLive (C.graph ctx.old) (K.object (pointer self)) }
        requires can { CanInsert (C.graph ctx.old) (H.object holder) (K.object (pointer self)) }
        requires within { index ≤ length (children (C.graph ctx.old) (H.object holder)) }
        ensures ok { OnOk result (InsertsAt (C.graph ctx.old) (C.graph ctx.new) (H.object holder) index
            (K.object (pointer self))) }
        ensures err { OnErr result (ctx.new ≡ ctx.old) }
        ensures kept { (m : ℕ) → IsNew m (C.graph ctx.old) (H.object holder)
            → IsNew m (C.graph ctx.old) (K.object (pointer self))
            → KeepsOlder m (C.graph ctx.old) (C.graph ctx.new) }
        ensures rest { ctx.new ≡ C.with_graph ctx.old (C.graph ctx.new) };

    /// Makes the object the first child of the holder. Its time grows with the number of children.
    fn insert_at_front<H: Holds<K>, C: HasGraph>(
        self,
        holder: Ptr<H>,
        ctx: &mut C,
    ) -> Result<(), OutOfMemory>
        requires holder { IsLive (C.graph ctx.old) (H.object holder) }
        requires alive { IsLive (C.graph ctx.old) (K.object (pointer self)) }
        requires can { CanInsert (C.graph ctx.old) (H.object holder) (K.object (pointer self)) }
        ensures ok { OnOk result (InsertsAt (C.graph ctx.old) (C.graph ctx.new) (H.object holder) 0
            (K.object (pointer self))) }
        ensures err { OnErr result (ctx.new ≡ ctx.old) }
        ensures kept { (m : ℕ) → IsNew m (C.graph ctx.old) (H.object holder)
            → IsNew m (C.graph ctx.old) (K.object (pointer self))
            → KeepsOlder m (C.graph ctx.old) (C.graph ctx.new) }
        ensures rest { ctx.new ≡ C.with_graph ctx.old (C.graph ctx.new) };

    /// Makes the object, which has no parent, a child of the parent of `mark`, just before `mark`.
    fn insert_before<C: HasGraph>(self, mark: Self, ctx: &mut C) -> Result<(), OutOfMemory>
        requires there { IsLive (C.graph ctx.old) (K.object (pointer mark)) }
        requires inside { IsSome (parent (C.graph ctx.old) (K.object (pointer mark))) }
        requires alive { IsLive (C.graph ctx.old) (K.object (pointer self)) }
        requires can { CanInsert (C.graph ctx.old) (K.object (pointer mark)) (K.object (pointer self)) }
        ensures ok { OnOk result (InsertsBefore (C.graph ctx.old) (C.graph ctx.new) (K.object (pointer mark))
            (K.object (pointer self))) }
        ensures err { OnErr result (ctx.new ≡ ctx.old) }
        ensures kept { (m : ℕ) → IsNewAround m (C.graph ctx.old) (K.object (pointer mark))
            → IsNew m (C.graph ctx.old) (K.object (pointer self))
            → KeepsOlder m (C.graph ctx.old) (C.graph ctx.new) }
        ensures rest { ctx.new ≡ C.with_graph ctx.old (C.graph ctx.new) };

    /// Makes the object, which has no parent, a child of the parent of `mark`, just after `mark`.
    fn insert_after<C: HasGraph>(self, mark: Self, ctx: &mut C) -> Result<(), OutOfMemory>
        requires there { IsLive (C.graph ctx.old) (K.object (pointer mark)) }
        requires inside { IsSome (parent (C.graph ctx.old) (K.object (pointer mark))) }
        requires alive { IsLive (C.graph ctx.old) (K.object (pointer self)) }
        requires can { CanInsert (C.graph ctx.old) (K.object (pointer mark)) (K.object (pointer self)) }
        ensures ok { OnOk result (InsertsAfter (C.graph ctx.old) (C.graph ctx.new) (K.object (pointer mark))
            (K.object (pointer self))) }
        ensures err { OnErr result (ctx.new ≡ ctx.old) }
        ensures kept { (m : ℕ) → IsNewAround m (C.graph ctx.old) (K.object (pointer mark))
            → IsNew m (C.graph ctx.old) (K.object (pointer self))
            → KeepsOlder m (C.graph ctx.old) (C.graph ctx.new) }
        ensures rest { ctx.new ≡ C.with_graph ctx.old (C.graph ctx.new) };

    /// Removes the object from its parent, if it has one, and makes it a child of the parent of `mark`, just before `mark`. `mark` is
    /// neither the object nor nested in it.
    fn move_before<C: HasGraph>(self, mark: Self, ctx: &mut C) -> Result<(), OutOfMemory>
        requires there { IsLive (C.graph ctx.old) (K.object (pointer mark)) }
        requires inside { IsSome (parent (C.graph ctx.old) (K.object (pointer mark))) }
        requires alive { IsLive (C.graph ctx.old) (K.object (pointer self)) }
        requires apart { IsInside (C.graph ctx.old) (K.object (pointer self)) (K.object (pointer mark)) → ⊥ }
        ensures ok { OnOk result (MovesBefore (C.graph ctx.old) (C.graph ctx.new) (K.object (pointer mark))
            (K.object (pointer self))) }
        ensures err { OnErr result (ctx.new ≡ ctx.old) }
        ensures kept { (m : ℕ) → IsNewAround m (C.graph ctx.old) (K.object (pointer mark))
            → IsNew m (C.graph ctx.old) (K.object (pointer self))
            → IsNewAround m (C.graph ctx.old) (K.object (pointer self))
            → KeepsOlder m (C.graph ctx.old) (C.graph ctx.new) }
        ensures rest { ctx.new ≡ C.with_graph ctx.old (C.graph ctx.new) };

    /// Removes the object from its parent, if it has one, and makes it a child of the parent of `mark`, just after `mark`. `mark` is
    /// neither the object nor nested in it.
    fn move_after<C: HasGraph>(self, mark: Self, ctx: &mut C) -> Result<(), OutOfMemory>
        requires there { IsLive (C.graph ctx.old) (K.object (pointer mark)) }
        requires inside { IsSome (parent (C.graph ctx.old) (K.object (pointer mark))) }
        requires alive { IsLive (C.graph ctx.old) (K.object (pointer self)) }
        requires apart { IsInside (C.graph ctx.old) (K.object (pointer self)) (K.object (pointer mark)) → ⊥ }
        ensures ok { OnOk result (MovesAfter (C.graph ctx.old) (C.graph ctx.new) (K.object (pointer mark))
            (K.object (pointer self))) }
        ensures err { OnErr result (ctx.new ≡ ctx.old) }
        ensures kept { (m : ℕ) → IsNewAround m (C.graph ctx.old) (K.object (pointer mark))
            → IsNew m (C.graph ctx.old) (K.object (pointer self))
            → IsNewAround m (C.graph ctx.old) (K.object (pointer self))
            → KeepsOlder m (C.graph ctx.old) (C.graph ctx.new) }
        ensures rest { ctx.new ≡ C.with_graph ctx.old (C.graph ctx.new) };

    /// Removes the object from its parent, if it has one, and makes it the last child of the holder, which is neither the object nor nested
    /// in it.
    fn move_to_end<H: Holds<K>, C: HasGraph>(
        self,
        holder: Ptr<H>,
        ctx: &mut C,
    ) -> Result<(), OutOfMemory>
        requires holder { IsLive (C.graph ctx.old) (H.object holder) }
        requires alive { IsLive (C.graph ctx.old) (K.object (pointer self)) }
        requires apart { IsInside (C.graph ctx.old) (K.object (pointer self)) (H.object holder) → ⊥ }
        ensures ok { OnOk result (MovesToEnd (C.graph ctx.old) (C.graph ctx.new) (H.object holder)
            (K.object (pointer self))) }
        ensures err { OnErr result (ctx.new ≡ ctx.old) }
        ensures kept { (m : ℕ) → IsNew m (C.graph ctx.old) (H.object holder)
            → IsNew m (C.graph ctx.old) (K.object (pointer self))
            → IsNewAround m (C.graph ctx.old) (K.object (pointer self))
            → KeepsOlder m (C.graph ctx.old) (C.graph ctx.new) }
        ensures rest { ctx.new ≡ C.with_graph ctx.old (C.graph ctx.new) };

    /// Removes the object from its parent, if it has one. Its children stay with it.
    fn unlink<C: HasGraph>(self, ctx: &mut C)
        requires { IsLive (C.graph ctx.old) (K.object (pointer self)) }
        ensures unlinks { Unlinks (C.graph ctx.old) (C.graph ctx.new) (K.object (pointer self)) }
        ensures kept { KeepsBeside (C.graph ctx.old) (C.graph ctx.new) (K.object (pointer self)) }
        ensures rest { ctx.new ≡ C.with_graph ctx.old (C.graph ctx.new) };

    /// Whether nothing outside of the object uses what is defined in it: the condition of `erase`. It allocates nothing.
    fn can_erase<C: HasGraph>(self, ctx: &C) -> bool
        requires { IsLive (C.graph ctx.now) (K.object (pointer self)) }
        ensures { IsTrue result ↔ CanErase (C.graph ctx.now) (K.object (pointer self)) };

    /// Drops all operands and successors of the object and of the operations nested in it. It allocates nothing.
    fn drop_all_uses<C: HasGraph>(self, ctx: &mut C)
        requires { IsLive (C.graph ctx.old) (K.object (pointer self)) }
        ensures drops { DropsUses (C.graph ctx.old) (C.graph ctx.new) (K.object (pointer self)) }
        ensures kept { KeepsRound (C.graph ctx.old) (C.graph ctx.new) (K.object (pointer self)) }
        ensures rest { ctx.new ≡ C.with_graph ctx.old (C.graph ctx.new) };

    /// Erases the object and everything nested in it, and removes it from its parent. It allocates nothing.
    fn erase<C: HasGraph>(self, ctx: &mut C)
        requires alive { IsLive (C.graph ctx.old) (K.object (pointer self)) }
        requires can { CanErase (C.graph ctx.old) (K.object (pointer self)) }
        ensures erases { Erases (C.graph ctx.old) (C.graph ctx.new) (K.object (pointer self)) }
        ensures kept { KeepsOutside (C.graph ctx.old) (C.graph ctx.new) (K.object (pointer self)) }
        ensures rest { ctx.new ≡ C.with_graph ctx.old (C.graph ctx.new) };
}

impl<K: Kind> ObjectEdits<K> for Ptr<K> {
    ghost pointer = { λ p. p };

    fn can_insert_at_back<H: Holds<K>, C: HasGraph>(self, holder: Ptr<H>, ctx: &C) -> bool {
        ctx.graph()
            .can_insert_at_back(H::object(holder), K::object(self))
    }

    fn insert_at_back<H: Holds<K>, C: HasGraph>(
        self,
        holder: Ptr<H>,
        ctx: &mut C,
    ) -> Result<(), OutOfMemory> {
        let item = K::object(self);
        ctx.graph_mut().insert_at_back(H::object(holder), item)
    }

    fn insert_at<H: Holds<K>, C: HasGraph>(
        self,
        holder: Ptr<H>,
        index: usize,
        ctx: &mut C,
    ) -> Result<(), OutOfMemory> {
        let item = K::object(self);
        ctx.graph_mut().insert_at(H::object(holder), index, item)
    }

    fn insert_at_front<H: Holds<K>, C: HasGraph>(
        self,
        holder: Ptr<H>,
        ctx: &mut C,
    ) -> Result<(), OutOfMemory> {
        let item = K::object(self);
        ctx.graph_mut().insert_at(H::object(holder), 0, item)
    }

    fn insert_before<C: HasGraph>(self, mark: Ptr<K>, ctx: &mut C) -> Result<(), OutOfMemory> {
        let item = K::object(self);
        insert_before(ctx.graph_mut(), K::object(mark), item)
    }

    fn insert_after<C: HasGraph>(self, mark: Ptr<K>, ctx: &mut C) -> Result<(), OutOfMemory> {
        let item = K::object(self);
        insert_after(ctx.graph_mut(), K::object(mark), item)
    }

    fn move_before<C: HasGraph>(self, mark: Ptr<K>, ctx: &mut C) -> Result<(), OutOfMemory> {
        let item = K::object(self);
        move_before(ctx.graph_mut(), K::object(mark), item)
    }

    fn move_after<C: HasGraph>(self, mark: Ptr<K>, ctx: &mut C) -> Result<(), OutOfMemory> {
        let item = K::object(self);
        move_after(ctx.graph_mut(), K::object(mark), item)
    }

    fn move_to_end<H: Holds<K>, C: HasGraph>(
        self,
        holder: Ptr<H>,
        ctx: &mut C,
    ) -> Result<(), OutOfMemory> {
        let item = K::object(self);
        move_to_end(ctx.graph_mut(), H::object(holder), item)
    }

    fn unlink<C: HasGraph>(self, ctx: &mut C) {
        ctx.graph_mut().unlink(K::object(self));
    }

    fn can_erase<C: HasGraph>(self, ctx: &C) -> bool {
        ctx.graph().can_erase(K::object(self))
    }

    fn drop_all_uses<C: HasGraph>(self, ctx: &mut C) {
        ctx.graph_mut().drop_all_uses(K::object(self));
    }

    fn erase<C: HasGraph>(self, ctx: &mut C) {
        ctx.graph_mut().erase(K::object(self));
    }
}

/// Edits of what an operation uses, by the operation's pointer, in any holder of a graph. The operation must be live in the graph.
pub trait OperationEdits: Sized {
    ghost use Rattle.irtext_graph.specs.declared.arena.Ptr.{Ptr};
    ghost use Rattle.irtext_graph.specs.declared.object.Operation.{Operation};

    // the pointer
    ghost pointer: { Self → Ptr Operation };

    /// Replaces the operand at an index, which must be below their number, by a value. All else is unchanged. Allocates nothing, and takes
    /// the same time in any graph.
    fn set_operand<C: HasGraph>(self, ctx: &mut C, index: usize, value: Value)
        requires within { index < length (operands (C.graph ctx.old) (pointer self)) }
        requires alive { IsDefinedValue (C.graph ctx.old) value }
        ensures redirects { Redirects (C.graph ctx.old) (C.graph ctx.new) (AtOperand (pointer self) index)
            (OfValue value) }
        ensures kept { (m : ℕ) → IsNew m (C.graph ctx.old) (TheOperation (pointer self))
            → KeepsOlder m (C.graph ctx.old) (C.graph ctx.new) }
        ensures rest { ctx.new ≡ C.with_graph ctx.old (C.graph ctx.new) };

    /// Replaces the successor at an index, which must be below their number, by a block. All else is unchanged. Allocates nothing, and
    /// takes the same time in any graph.
    fn set_successor<C: HasGraph>(self, ctx: &mut C, index: usize, block: Ptr<BasicBlock>)
        requires within { index < length (successors (C.graph ctx.old) (pointer self)) }
        requires alive { IsLive (C.graph ctx.old) (TheBlock block) }
        ensures redirects { Redirects (C.graph ctx.old) (C.graph ctx.new)
            (AtSuccessor (pointer self) index)
            (OfBlock block) }
        ensures kept { (m : ℕ) → IsNew m (C.graph ctx.old) (TheOperation (pointer self))
            → KeepsOlder m (C.graph ctx.old) (C.graph ctx.new) }
        ensures rest { ctx.new ≡ C.with_graph ctx.old (C.graph ctx.new) };
}

impl OperationEdits for Ptr<Operation> {
    ghost pointer = { λ p. p };

    fn set_operand<C: HasGraph>(self, ctx: &mut C, index: usize, value: Value) {
        ctx.graph_mut()
            .set_use(Site::AtOperand(self, index), Defined::OfValue(value));
    }

    fn set_successor<C: HasGraph>(self, ctx: &mut C, index: usize, block: Ptr<BasicBlock>) {
        ctx.graph_mut()
            .set_use(Site::AtSuccessor(self, index), Defined::OfBlock(block));
    }
}
