//! Operations, blocks and regions, each in an arena of its own, as the objects of one forest, and walking over what is nested in one.
ghost use Rattle.std.specs.Prelude.{◌≡◌, ◌≢◌, ◌<◌, ◌≤◌, Some, None, [], IsTrue, OnOk, OnErr, length, slice_get, ◌↔◌, ◌∷◌, ℕ, IsSome, true, false};

use crate::arena::{Arena, Ptr};
use crate::near::Near;
use crate::nest::Nest;
use crate::object::{BasicBlock, Object, Operation, Region, Value};
use irtext_few::{Lone, Rare};
use irtext_memory::OutOfMemory;

/// The links of a use: whether it is in a use list, and the uses before and after it there.
#[derive(Clone, Copy)]
pub(crate) struct Links {
    pub(crate) linked: bool,
    pub(crate) prev: Near,
    pub(crate) next: Near,
}

/// A use: what is used, and its links to the other uses of the same.
#[derive(Clone, Copy)]
pub(crate) struct Use<D> {
    pub(crate) def: D,
    pub(crate) links: Links,
}

/// A value: its type, its number, and its first use.
#[derive(Drop)]
pub(crate) struct Definition<T> {
    pub(crate) of_type: T,
    pub(crate) number: u64,
    pub(crate) first: Near,
}

/// An operation, without its parent and children.
#[derive(Drop)]
pub(crate) struct OperationData<O, T> {
    pub(crate) data: O,
    pub(crate) operands: Lone<Use<Value>>,
    pub(crate) successors: Rare<Use<Ptr<BasicBlock>>>,
    pub(crate) results: Lone<Definition<T>>,
}

/// A block, without its parent and children.
#[derive(Drop)]
pub(crate) struct BlockData<B, T> {
    pub(crate) data: B,
    pub(crate) arguments: Lone<Definition<T>>,
    pub(crate) preds: Near,
}

/// A region, without its parent and children: nothing.
#[derive(Drop)]
pub(crate) struct RegionData {}

/// All objects of a graph.
#[derive(Drop)]
pub(crate) struct Objects<O, B, T> {
    pub(crate) operations: Arena<Nest<BasicBlock, Region, OperationData<O, T>>>,
    pub(crate) blocks: Arena<Nest<Region, Operation, BlockData<B, T>>>,
    pub(crate) regions: Arena<Nest<Operation, BasicBlock, RegionData>>,
}

/// Whether two objects are the same.
fn same_object(o: Object, c: Object) -> bool
    ensures { IsTrue result ↔ o ≡ c }
{
    o == c
}

impl<O: Drop, B: Drop, T: Drop> Objects<O, B, T> {
    ghost use Rattle.std.specs.List.{remove};
    ghost use Rattle.irtext_graph.specs.Edits.{without, Inserts, MovesIn};
    ghost use Rattle.irtext_graph.specs.Nested.{Within};
    ghost use Rattle.irtext_graph.specs.Objects.{up, kids, what, Lives, links, SameAt, SameNodes, SamePlaces, SameData, Fits, Renumbers, SameDatum, Sheds, IsGone, IsForest, CanInsert, Drops, HasRoomFor, KeepsRoom};
    ghost use Rattle.irtext_graph.specs.Preorder.{left};

    /// Whether an object is live.
    pub(crate) fn contains(&self, o: Object) -> bool
        ensures { IsTrue result ↔ Lives self.now o }
    {
        match o {
            Object::TheOperation(p) => self.operations.contains(p),
            Object::TheBlock(p) => self.blocks.contains(p),
            Object::TheRegion(p) => self.regions.contains(p),
        }
    }

    /// Returns the parent of an object.
    pub(crate) fn parent_of(&self, o: Object) -> Option<Object>
        requires { Lives self.now o }
        ensures { result ≡ up self.now o }
    {
        match o {
            Object::TheOperation(p) => Some(Object::TheBlock(self.operations.parent_of(p)?)),
            Object::TheBlock(p) => Some(Object::TheRegion(self.blocks.parent_of(p)?)),
            Object::TheRegion(p) => Some(Object::TheOperation(self.regions.parent_of(p)?)),
        }
    }

    /// Sets the parent of an object to none.
    pub(crate) fn clear_parent(&mut self, o: Object)
        requires { Lives self.old o }
        ensures here { up self.new o ≡ None }
        ensures others { (q : _) → q ≢ o → up self.new q ≡ up self.old q }
        ensures kids { (q : _) → kids self.new q ≡ kids self.old q }
        ensures data { (q : _) → what self.new q ≡ what self.old q }
        ensures places { SamePlaces self.old self.new }
        ensures all_data { SameData self.old self.new }
        ensures links { links self.new ≡ links self.old }
        ensures room { KeepsRoom self.old self.new }
    {
        match o {
            Object::TheOperation(p) => self.operations.set_parent(p, None),
            Object::TheBlock(p) => self.blocks.set_parent(p, None),
            Object::TheRegion(p) => self.regions.set_parent(p, None),
        }
    }

    /// Returns the index in its parent that was recorded for an object last.
    pub(crate) fn noted(&self, o: Object) -> usize
        requires { Lives self.now o }
    {
        match o {
            Object::TheOperation(p) => self.operations.noted(p),
            Object::TheBlock(p) => self.blocks.noted(p),
            Object::TheRegion(p) => self.regions.noted(p),
        }
    }

    /// Records an object's index in its parent.
    pub(crate) fn note(&mut self, o: Object, index: usize)
        requires { Lives self.old o }
        ensures same { Renumbers self.old self.new }
        ensures room { KeepsRoom self.old self.new }
    {
        match o {
            Object::TheOperation(p) => self.operations.note(p, index),
            Object::TheBlock(p) => self.blocks.note(p, index),
            Object::TheRegion(p) => self.regions.note(p, index),
        }
    }

    /// Removes an object from its arena.
    pub(crate) fn vacate(&mut self, o: Object)
        ensures gone { what self.new o ≡ None }
        ensures gone_up { up self.new o ≡ None }
        ensures gone_kids { kids self.new o ≡ [] }
        ensures others { (q : _) → q ≢ o → SameAt self.old self.new q }
        ensures data { (q : _) → q ≢ o → SameDatum self.old self.new q }
        ensures sheds { Sheds self.old self.new }
        ensures links { links self.new ≤ links self.old }
    {
        match o {
            Object::TheOperation(p) => self.operations.vacate(p),
            Object::TheBlock(p) => self.blocks.vacate(p),
            Object::TheRegion(p) => self.regions.vacate(p),
        }
    }

    /// Makes room for one more child of an object. What contracts see of the objects is unchanged.
    fn make_room(&mut self, k: Object) -> Result<(), OutOfMemory>
        requires { Lives self.old k }
        ensures room { OnOk result (HasRoomFor self.new k) }
        ensures same { Renumbers self.old self.new }
        ensures nodes { SameNodes self.old self.new }
    {
        match k {
            Object::TheOperation(p) => self.operations.make_child_room(p),
            Object::TheBlock(p) => self.blocks.make_child_room(p),
            Object::TheRegion(p) => self.regions.make_child_room(p),
        }
    }

    /// Inserts c into the children of k at an index, and makes k the parent of c. There is room for it.
    #[tactic(auto, using(crate::proofs::Inserting::operation_within, crate::proofs::Inserting::block_within, crate::proofs::Inserting::region_within))]
    fn insert_child(&mut self, k: Object, i: usize, c: Object)
        requires room { HasRoomFor self.old k }
        requires lives { Lives self.old c }
        requires fits { Fits k c }
        requires within { i ≤ length (kids self.old k) }
        ensures inserts { Inserts self.old self.new k i c }
        ensures places { SamePlaces self.old self.new }
        ensures data { SameData self.old self.new }
    {
        match (k, c) {
            (Object::TheOperation(p), Object::TheRegion(r)) => {
                self.operations.insert_child(p, i, r);
                self.regions.set_parent(r, Some(p));
            }
            (Object::TheRegion(p), Object::TheBlock(r)) => {
                self.regions.insert_child(p, i, r);
                self.blocks.set_parent(r, Some(p));
            }
            (Object::TheBlock(p), Object::TheOperation(r)) => {
                self.blocks.insert_child(p, i, r);
                self.operations.set_parent(r, Some(p));
            }
            _ => unreachable!(),
        }
    }

    /// The number of children of an object.
    pub(crate) fn child_count(&self, o: Object) -> usize
        requires { Lives self.now o }
        ensures { result ≡ length (kids self.now o) }
    {
        match o {
            Object::TheOperation(p) => self.operations.child_count(p),
            Object::TheBlock(p) => self.blocks.child_count(p),
            Object::TheRegion(p) => self.regions.child_count(p),
        }
    }

    /// Returns the child of an object at an index.
    #[tactic(auto, using(crate::proofs::Relisted::operation_within, crate::proofs::Relisted::block_within, crate::proofs::Relisted::region_within))]
    pub(crate) fn child_at(&self, o: Object, i: usize) -> Object
        requires lives { Lives self.now o }
        requires within { i < length (kids self.now o) }
        ensures { slice_get (kids self.now o) i ≡ Some result }
    {
        match o {
            Object::TheOperation(p) => Object::TheRegion(self.operations.child_at(p, i)),
            Object::TheBlock(p) => Object::TheOperation(self.blocks.child_at(p, i)),
            Object::TheRegion(p) => Object::TheBlock(self.regions.child_at(p, i)),
        }
    }

    /// Removes the child at an index from an object.
    #[tactic(auto, using(crate::proofs::Relisted::operation_within, crate::proofs::Relisted::block_within, crate::proofs::Relisted::region_within))]
    pub(crate) fn remove_child(&mut self, k: Object, i: usize)
        requires live { Lives self.old k }
        requires within { i < length (kids self.old k) }
        ensures here { kids self.new k ≡ remove (kids self.old k) i }
        ensures less { links self.new < links self.old }
        ensures others { (q : _) → q ≢ k → kids self.new q ≡ kids self.old q }
        ensures ups { (q : _) → up self.new q ≡ up self.old q }
        ensures data { (q : _) → what self.new q ≡ what self.old q }
        ensures places { SamePlaces self.old self.new }
        ensures all_data { SameData self.old self.new }
        ensures room { KeepsRoom self.old self.new }
    {
        match k {
            Object::TheOperation(p) => self.operations.remove_child(p, i),
            Object::TheBlock(p) => self.blocks.remove_child(p, i),
            Object::TheRegion(p) => self.regions.remove_child(p, i),
        }
    }

    /// Whether c has no parent, and k is neither c nor nested in it.
    pub(crate) fn can_insert(&self, k: Object, c: Object) -> bool
        requires forest { IsForest self.now }
        requires holder { Lives self.now k }
        requires lives { Lives self.now c }
        ensures { IsTrue result ↔ CanInsert self.now k c }
    {
        self.parent_of(c).is_none() && !self.is_inside(c, k)
    }

    /// Whether q is o or nested in o.
    pub(crate) fn is_inside(&self, o: Object, q: Object) -> bool
        requires forest { IsForest self.now }
        requires lives { Lives self.now q }
        ensures { IsTrue result ↔ Within (up self.now) o q }
    {
        let mut at = Some(q);
        while let Some(p) = at {
            if same_object(p, o) {
                return true;
            }
            at = self.parent_of(p);
        }
        false
    }

    /// Makes c the child of k with an index; the children from there on come after it. There is room for it.
    fn place_at(&mut self, k: Object, i: usize, c: Object)
        requires forest { IsForest self.old }
        requires room { HasRoomFor self.old k }
        requires lives { Lives self.old c }
        requires fits { Fits k c }
        requires can { CanInsert self.old k c }
        requires within { i ≤ length (kids self.old k) }
        ensures forest { IsForest self.new }
        ensures inserts { Inserts self.old self.new k i c }
        ensures places { SamePlaces self.old self.new }
        ensures data { SameData self.old self.new }
    {
        self.insert_child(k, i, c);
        self.renumber(k, i);
    }

    /// Makes c the child of k with an index; the children from there on come after it.
    pub(crate) fn insert_at(&mut self, k: Object, i: usize, c: Object) -> Result<(), OutOfMemory>
        requires forest { IsForest self.old }
        requires holder { Lives self.old k }
        requires lives { Lives self.old c }
        requires fits { Fits k c }
        requires can { CanInsert self.old k c }
        requires within { i ≤ length (kids self.old k) }
        ensures forest { IsForest self.new }
        ensures ok { OnOk result (Inserts self.old self.new k i c) }
        ensures err { OnErr result ((q : _) → SameAt self.old self.new q) }
        ensures refused { OnErr result (SameNodes self.old self.new) }
        ensures places { SamePlaces self.old self.new }
        ensures data { SameData self.old self.new }
    {
        self.make_room(k)?;
        self.place_at(k, i, c);
        Ok(())
    }

    /// Removes c from its parent, if it has one, and makes it the child of k with an index among the others.
    pub(crate) fn move_to(&mut self, k: Object, i: usize, c: Object) -> Result<(), OutOfMemory>
        requires forest { IsForest self.old }
        requires holder { Lives self.old k }
        requires lives { Lives self.old c }
        requires fits { Fits k c }
        requires apart { Within (up self.old) c k → ⊥ }
        requires within { i ≤ length (without c (kids self.old k)) }
        ensures forest { IsForest self.new }
        ensures ok { OnOk result (MovesIn self.old self.new k i c) }
        ensures err { OnErr result ((q : _) → SameAt self.old self.new q) }
        ensures refused { OnErr result (SameNodes self.old self.new) }
        ensures places { SamePlaces self.old self.new }
        ensures data { SameData self.old self.new }
    {
        self.make_room(k)?;
        self.unlink(c);
        self.place_at(k, i, c);
        Ok(())
    }

    /// Records the index of each child of k from an index on.
    fn renumber(&mut self, k: Object, from: usize)
        requires forest { IsForest self.old }
        requires lives { Lives self.old k }
        ensures same { Renumbers self.old self.new }
        ensures room { KeepsRoom self.old self.new }
    {
        for index in from..self.child_count(k) {
            let c = self.child_at(k, index);
            self.note(c, index);
        }
    }

    /// Returns the index of an object in its parent. The recorded index is tried first; then the children are searched from the last one.
    pub(crate) fn index_in(&self, k: Object, c: Object) -> usize
        requires forest { IsForest self.now }
        requires alive { up self.now c ≡ Some k }
        ensures { slice_get (kids self.now k) result ≡ Some c }
    {
        let mut i = self.child_count(k);
        let noted = self.noted(c);
        if noted < i && same_object(self.child_at(k, noted), c) {
            return noted;
        }
        while i > 0 {
            i -= 1;
            if same_object(self.child_at(k, i), c) {
                return i;
            }
        }
        unreachable!()
    }

    /// Removes c, the child of k at an index, from k.
    fn unlist(&mut self, k: Object, i: usize, c: Object)
        requires forest { IsForest self.old }
        requires alive { up self.old c ≡ Some k }
        requires at { slice_get (kids self.old k) i ≡ Some c }
        ensures forest { IsForest self.new }
        ensures free { up self.new c ≡ None }
        ensures ups { (q : _) → q ≢ c → up self.new q ≡ up self.old q }
        ensures here { kids self.new k ≡ remove (kids self.old k) i }
        ensures kids { (q : _) → q ≢ k → kids self.new q ≡ kids self.old q }
        ensures data { (q : _) → what self.new q ≡ what self.old q }
        ensures less { links self.new < links self.old }
        ensures places { SamePlaces self.old self.new }
        ensures all_data { SameData self.old self.new }
        ensures room { KeepsRoom self.old self.new }
    {
        self.remove_child(k, i);
        self.clear_parent(c);
    }

    /// Removes an object from its parent, if it has one.
    pub(crate) fn unlink(&mut self, c: Object)
        requires lives { Lives self.old c }
        requires forest { IsForest self.old }
        ensures forest { IsForest self.new }
        ensures free { up self.new c ≡ None }
        ensures ups { (q : _) → q ≢ c → up self.new q ≡ up self.old q }
        ensures kids { (q : _) → up self.old c ≢ Some q → kids self.new q ≡ kids self.old q }
        ensures left { (k : _) (i : ℕ) → up self.old c ≡ Some k → slice_get (kids self.old k) i ≡ Some c
            → kids self.new k ≡ remove (kids self.old k) i }
        ensures data { (q : _) → what self.new q ≡ what self.old q }
        ensures links { links self.new ≤ links self.old }
        ensures places { SamePlaces self.old self.new }
        ensures all_data { SameData self.old self.new }
        ensures less { IsSome (up self.old c) → links self.new < links self.old }
        ensures room { KeepsRoom self.old self.new }
    {
        if let Some(k) = self.parent_of(c) {
            let i = self.index_in(k, c);
            self.unlist(k, i, c);
            self.renumber(k, i);
        }
    }

    /// Returns the object after q in the preorder of o and everything nested in it.
    pub(crate) fn after(&self, o: Object, q: Object) -> Option<Object>
        requires forest { IsForest self.now }
        requires lives { Lives self.now q }
        requires inside { Within (up self.now) o q }
        ensures next { left self.now o (Some q) ≡ q ∷ left self.now o result }
        ensures found { (r : _) → result ≡ Some r → Within (up self.now) o r }
        ensures lives { (r : _) → result ≡ Some r → Lives self.now r }
    {
        if self.child_count(q) > 0 {
            return Some(self.child_at(q, 0));
        }
        let mut at = q;
        while !same_object(at, o) {
            let Some(k) = self.parent_of(at) else {
                unreachable!();
            };
            let count = self.child_count(k);
            let i = self.index_in(k, at) + 1;
            if i < count {
                return Some(self.child_at(k, i));
            }
            at = k;
        }
        None
    }

    /// Goes from an object to its last child, and so on, to an object without children.
    fn innermost(&self, o: Object) -> Object
        requires forest { IsForest self.now }
        requires lives { Lives self.now o }
        ensures inside { Within (up self.now) o result }
        ensures lives { Lives self.now result }
        ensures leaf { kids self.now result ≡ [] }
    {
        let mut at = o;
        let mut count = self.child_count(at);
        while count > 0 {
            at = self.child_at(at, count - 1);
            count = self.child_count(at);
        }
        at
    }

    /// Removes an object without children from its parent and its arena, and returns its parent.
    fn drop_leaf(&mut self, c: Object) -> Object
        requires forest { IsForest self.old }
        requires lives { Lives self.old c }
        requires alive { IsSome (up self.old c) }
        requires leaf { kids self.old c ≡ [] }
        ensures parent { up self.old c ≡ Some result }
        ensures drops { Drops self.old self.new result c }
    {
        let Some(k) = self.parent_of(c) else {
            unreachable!();
        };
        self.unlink(c);
        self.vacate(c);
        k
    }

    /// Removes a detached object and all that is nested in it from the arenas, and returns how many they were. It allocates nothing.
    fn erase_all(&mut self, o: Object) -> usize
        requires lives { Lives self.old o }
        requires forest { IsForest self.old }
        requires free { up self.old o ≡ None }
        ensures forest { IsForest self.new }
        ensures gone { (q : _) → Within (up self.old) o q → IsGone self.new q }
        ensures kept { (q : _) → (Within (up self.old) o q → ⊥) → SameAt self.old self.new q }
        ensures kept_data { (q : _) → (Within (up self.old) o q → ⊥) → SameDatum self.old self.new q }
        ensures sheds { Sheds self.old self.new }
    {
        let mut count: usize = 1;
        let mut at = self.innermost(o);
        while !same_object(at, o) {
            let k = self.drop_leaf(at);
            at = self.innermost(k);
            count = count.wrapping_add(1);
        }
        self.vacate(o);
        count
    }

    /// Removes an object and everything nested in it from the arenas and from its parent, and returns how many objects they were.
    pub(crate) fn erase(&mut self, o: Object) -> usize
        requires lives { Lives self.old o }
        requires forest { IsForest self.old }
        ensures forest { IsForest self.new }
        ensures gone { (q : _) → Within (up self.old) o q → IsGone self.new q }
        ensures kept { (q : _) → (Within (up self.old) o q → ⊥) → up self.old o ≢ Some q
            → SameAt self.old self.new q }
        ensures parent { (k : _) → up self.old o ≡ Some k → up self.new k ≡ up self.old k }
        ensures whats { (q : _) → (Within (up self.old) o q → ⊥) → what self.new q ≡ what self.old q }
        ensures data { (q : _) → (Within (up self.old) o q → ⊥) → SameDatum self.old self.new q }
        ensures sheds { Sheds self.old self.new }
        ensures left { (k : _) (i : ℕ) → up self.old o ≡ Some k → slice_get (kids self.old k) i ≡ Some o
            → kids self.new k ≡ remove (kids self.old k) i }
    {
        self.unlink(o);
        self.erase_all(o)
    }
}
