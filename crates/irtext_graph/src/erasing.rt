//! Erasing: dropping what the operations nested in an object use, and the test whether the object can be erased.
ghost use Rattle.std.specs.Prelude.{◌≡◌, ◌≢◌, ◌<◌, ◌↔◌, ℕ, Some, None, IsSome, IsTrue, option_map};
ghost use Rattle.irtext_graph.specs.Erasing.{user, owner, sibling, without_uses, IsUsedInside, IsAllUsedInside};

use crate::arena::{Arena, Ptr};
use crate::nest::Nest;
use crate::object::{BasicBlock, Defined, Object, Operation, Region, Site, Value};
use crate::objects::{Objects, OperationData};

/// Returns the operation of a use.
fn user_of(u: Site) -> Object
    ensures { result ≡ user u }
{
    match u {
        Site::AtOperand(p, _) => Object::TheOperation(p),
        Site::AtSuccessor(p, _) => Object::TheOperation(p),
    }
}

/// Returns the result of the same operation, or the argument of the same block, at an index. It need not be defined.
fn sibling(v: Value, i: usize) -> Value
    ensures { result ≡ sibling v i }
{
    match v {
        Value::Result(p, _) => Value::Result(p, i),
        Value::Argument(b, _) => Value::Argument(b, i),
    }
}

impl<O: Drop, T: Drop> Arena<Nest<BasicBlock, Region, OperationData<O, T>>> {
    ghost use Rattle.irtext_graph.specs.declared.arena.Ptr.{Ptr};
    ghost use Rattle.irtext_graph.specs.declared.object.Operation.{Operation};
    ghost use Rattle.irtext_graph.specs.Arena.{get, KeepsPlaces};
    ghost use Rattle.irtext_graph.specs.Uses.{operand_in, successor_in, result_in, operations_seen as seen};
    ghost use Rattle.irtext_graph.specs.Used.{without_uses_in};
    ghost use Rattle.irtext_graph.specs.Store.{Edits};

    /// Drops the operands and successors of an operation.
    fn clear_uses(&mut self, p: Ptr<Operation>)
        requires { IsSome (get self.old p) }
        ensures operands { (i : ℕ) → operand_in (get self.new p) i ≡ None }
        ensures successors { (i : ℕ) → successor_in (get self.new p) i ≡ None }
        ensures others { (q : Ptr Operation) → q ≢ p → get self.new q ≡ get self.old q }
        ensures results { (q : Ptr Operation) (i : ℕ) → result_in (get self.new q) i ≡ result_in
            (get self.old q) i }
        ensures edits { Edits (seen self.old) (seen self.new) p without_uses_in }
        ensures places { KeepsPlaces self.old self.new }
    {
        let node = self.content_mut(p);
        node.data.operands.clear();
        node.data.successors.clear();
    }
}

impl<O: Drop, B: Drop, T: Drop> Objects<O, B, T> {
    ghost use Rattle.irtext_graph.specs.declared.object.Object.TheVariants.{TheOperation};
    ghost use Rattle.irtext_graph.specs.declared.object.Defined.TheVariants.{OfValue};
    ghost use Rattle.irtext_graph.specs.declared.object.Value.TheVariants.{Result, Argument};
    ghost use Rattle.irtext_graph.specs.Arena.{get};
    ghost use Rattle.irtext_graph.specs.Store.{Edits};
    ghost use Rattle.irtext_graph.specs.Graph.{seen};
    ghost use Rattle.irtext_graph.specs.Nested.{Within};
    ghost use Rattle.irtext_graph.specs.Objects.{up, kids, what, Lives, IsForest, SamePlaces};
    ghost use Rattle.irtext_graph.specs.Uses.{use_at, val, head_at, AreUsesLinked};
    ghost use Rattle.irtext_graph.specs.Used.{without_uses_in};

    /// Drops the operands and successors of an operation.
    fn drop_uses(&mut self, p: Ptr<Operation>)
        requires alive { IsSome (get self.old.operations p) }
        requires linked { AreUsesLinked self.old }
        requires used { (u : _) → IsSome (use_at self.old u) → IsSome (val self.old u) }
        ensures linked { AreUsesLinked self.new }
        ensures used { (u : _) → IsSome (use_at self.new u) → IsSome (val self.new u) }
        ensures edits { Edits (seen self.old).operations (seen self.new).operations p without_uses_in }
        ensures blocks { (seen self.new).blocks ≡ (seen self.old).blocks }
        ensures regions { (seen self.new).regions ≡ (seen self.old).regions }
        ensures places { SamePlaces self.old self.new }
    {
        self.detach_uses(p);
        self.operations.clear_uses(p);
    }

    /// Drops the operands and successors of an object, if it is an operation.
    fn drop_uses_of(&mut self, q: Object)
        requires lives { Lives self.old q }
        requires linked { AreUsesLinked self.old }
        requires used { (u : _) → IsSome (use_at self.old u) → IsSome (val self.old u) }
        ensures linked { AreUsesLinked self.new }
        ensures used { (u : _) → IsSome (use_at self.new u) → IsSome (val self.new u) }
        ensures here { what self.new q ≡ option_map without_uses (what self.old q) }
        ensures others { (r : _) → r ≢ q → what self.new r ≡ what self.old r }
        ensures ups { (r : _) → up self.new r ≡ up self.old r }
        ensures kids { (r : _) → kids self.new r ≡ kids self.old r }
        ensures places { SamePlaces self.old self.new }
    {
        if let Object::TheOperation(p) = q {
            self.drop_uses(p);
        }
    }

    /// Drops the operands and successors of o and of all operations nested in it. It allocates nothing.
    pub(crate) fn drop_all_uses(&mut self, o: Object)
        requires lives { Lives self.old o }
        requires forest { IsForest self.old }
        requires linked { AreUsesLinked self.old }
        requires used { (u : _) → IsSome (use_at self.old u) → IsSome (val self.old u) }
        ensures forest { IsForest self.new }
        ensures linked { AreUsesLinked self.new }
        ensures used { (u : _) → IsSome (use_at self.new u) → IsSome (val self.new u) }
        ensures inside { (q : _) → Within (up self.old) o q → what self.new q ≡ option_map without_uses
            (what self.old q) }
        ensures others { (q : _) → (Within (up self.old) o q → ⊥) → what self.new q ≡ what self.old q }
        ensures ups { (q : _) → up self.new q ≡ up self.old q }
        ensures kids { (q : _) → kids self.new q ≡ kids self.old q }
        ensures places { SamePlaces self.old self.new }
    {
        let mut at = Some(o);
        while let Some(q) = at {
            self.drop_uses_of(q);
            at = self.after(o, q);
        }
    }

    /// Whether each use of d is in an operation that is o or nested in o.
    fn is_used_inside(&self, o: Object, d: Defined) -> bool
        requires forest { IsForest self.now }
        requires linked { AreUsesLinked self.now }
        requires used { (u : _) → IsSome (use_at self.now u) → IsSome (val self.now u) }
        requires alive { IsSome (head_at self.now d) }
        ensures { IsTrue result ↔ IsUsedInside self.now o d }
    {
        let mut at = self.head_of(d).site();
        while let Some(u) = at {
            if !self.is_inside(o, user_of(u)) {
                return false;
            }
            at = self.use_of(u).links.next.site();
        }
        true
    }

    /// The number of values that the operation or the block of a value defines.
    fn value_count(&self, v: Value) -> usize
        requires { Lives self.now (owner (OfValue v)) }
        ensures { (i : ℕ) → IsSome (head_at self.now (OfValue (sibling v i))) ↔ i < result }
    {
        match v {
            Value::Result(p, _) => self.operations.content(p).data.results.len(),
            Value::Argument(b, _) => self.blocks.content(b).data.arguments.len(),
        }
    }

    /// Whether each use of a result of v's operation, or of an argument of its block, is in an operation that is o or nested in o.
    fn are_values_used_inside(&self, o: Object, v: Value) -> bool
        requires forest { IsForest self.now }
        requires linked { AreUsesLinked self.now }
        requires used { (u : _) → IsSome (use_at self.now u) → IsSome (val self.now u) }
        requires alive { Lives self.now (owner (OfValue v)) }
        ensures { IsTrue result ↔ ((i : ℕ) → IsUsedInside self.now o (OfValue (sibling v i))) }
    {
        for i in 0..self.value_count(v) {
            if !self.is_used_inside(o, Defined::OfValue(sibling(v, i))) {
                return false;
            }
        }
        true
    }

    /// Whether each use of what q defines is in an operation that is o or nested in o.
    fn is_all_used_inside(&self, o: Object, q: Object) -> bool
        requires forest { IsForest self.now }
        requires linked { AreUsesLinked self.now }
        requires used { (u : _) → IsSome (use_at self.now u) → IsSome (val self.now u) }
        requires lives { Lives self.now q }
        ensures { IsTrue result ↔ IsAllUsedInside self.now o q }
    {
        match q {
            Object::TheOperation(p) => self.are_values_used_inside(o, Value::Result(p, 0)),
            Object::TheBlock(b) => {
                if !self.is_used_inside(o, Defined::OfBlock(b)) {
                    return false;
                }
                self.are_values_used_inside(o, Value::Argument(b, 0))
            }
            Object::TheRegion(_) => true,
        }
    }

    /// Whether nothing outside of o uses what o, or an object nested in it, defines.
    pub(crate) fn can_erase(&self, o: Object) -> bool
        requires forest { IsForest self.now }
        requires linked { AreUsesLinked self.now }
        requires used { (u : _) → IsSome (use_at self.now u) → IsSome (val self.now u) }
        requires lives { Lives self.now o }
        ensures { IsTrue result ↔ ((q : _) → Within (up self.now) o q → IsAllUsedInside self.now o q) }
    {
        let mut at = Some(o);
        while let Some(q) = at {
            if !self.is_all_used_inside(o, q) {
                return false;
            }
            at = self.after(o, q);
        }
        true
    }
}
