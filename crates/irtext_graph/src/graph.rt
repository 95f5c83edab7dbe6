//! The graph and the calls of its users.
ghost use Rattle.std.specs.Prelude.{◌≡◌, ◌≤◌, ◌+◌, ◌∷◌, ◌↔◌, Some, IsSome, IfSome, IsTrue, OnOk, OnErr, length, slice_get, ◌<◌, ℕ};
ghost use Rattle.irtext_graph.specs.Graph.{empty, begun, parent, children, ancestor, IsLive, IsInside, CanInsert, Appends, Unlinks, IsNew, KeepsOlder, num_live};
ghost use Rattle.irtext_graph.specs.Edits.{without, InsertsAt, Moves};
ghost use Rattle.irtext_graph.specs.Nested.{Nested};
ghost use Rattle.irtext_graph.specs.Chained.{Among};
ghost use Rattle.irtext_graph.specs.Throughout.{all_from};
ghost use Rattle.irtext_graph.specs.Back.{AllOlder, IsClosedBelow};
ghost use Rattle.irtext_graph.specs.Objects.{Fits};
ghost use Rattle.irtext_graph.specs.Erasing.{DropsUses, CanErase, Erases};
ghost use Rattle.irtext_graph.specs.declared.object.Object.TheVariants.{TheOperation};
ghost use Rattle.irtext_graph.specs.Used.{IsUse, IsDefined};
ghost use Rattle.irtext_graph.specs.Parts.{value_at};
ghost use Rattle.irtext_graph.specs.Numbers.{NumbersDiffer};
ghost use Rattle.irtext_graph.specs.declared.object.Value.{Value};

use crate::arena::{Arena, Ptr};
use crate::log::forget_gone;
use crate::object::Object;
use crate::objects::Objects;
use irtext_memory::OutOfMemory;
use std::alloc::Global;
use std::marker::Model;

/// The counters of a graph: the number of the next value, and the number of the first slot.
#[derive(Clone, Copy)]
pub(crate) struct Counters {
    pub(crate) values: u64,
    pub(crate) first_place: u32,
}

/// A graph of operations with data O, blocks with data B, values with types T, and regions: how they nest, and which uses there are.
#[derive(Drop)]
pub struct Graph<O, B, T> {
    pub(crate) objects: Objects<O, B, T>,
    // what was made, in order; it may have objects that are gone
    pub(crate) log: Vec<Object>,
    // an upper bound for the number of erased objects in `log`
    pub(crate) gone: usize,
    pub(crate) made: u64,
    pub(crate) counters: Counters,
    pub(crate) alloc: Global,
}

impl<O, B, T> Model for Graph<O, B, T> {
    ghost use Rattle.irtext_graph.specs.Graph.{GraphView, graph_of};
    ghost use Rattle.irtext_graph.specs.Sound.{IsKept};

    ghost Value = { GraphView O B T };

    ghost view = { λ g. graph_of g.made g.counters g.objects };

    ghost invariant = { λ g. IsKept g.made g.counters g.log.items g.objects };
}

impl<O: Drop, B: Drop, T: Drop> Graph<O, B, T> {
    /// Makes a graph without objects. It allocates nothing.
    pub fn new(alloc: Global) -> Graph<O, B, T>
        ensures { result ≡ empty }
    {
        Graph::with_counters(alloc, 0, 1)
    }

    /// Makes a graph without objects. Its next value gets the number `values`, and its slots are numbered from `places`, at least 1.
    /// Large numbers put the counters near their limits: a slot's number is always less than `u32::MAX`. It allocates nothing.
    pub fn with_counters(alloc: Global, values: u64, places: u32) -> Graph<O, B, T>
        requires { 1 ≤ places }
        ensures { result ≡ begun values places }
    {
        Graph {
            objects: Objects {
                operations: Arena::new(alloc),
                blocks: Arena::new(alloc),
                regions: Arena::new(alloc),
            },
            log: Vec::new(alloc),
            gone: 0,
            made: 0,
            counters: Counters {
                values,
                first_place: places,
            },
            alloc,
        }
    }

    /// The allocator of the graph's objects.
    pub fn allocator(&self) -> Global {
        self.alloc
    }

    /// Returns how many objects were made, erased ones included. It is a mark for `roll_back`: all live objects are older.
    pub fn made(&self) -> u64
        ensures value { result ≡ self.now.made }
        ensures older { AllOlder result self.now }
        ensures closed { IsClosedBelow result self.now }
    {
        self.made
    }

    /// Returns the number of a pointer's slot, as it is printed.
    pub fn number_of_place<K>(&self, p: Ptr<K>) -> u64
        ensures { result ≡ self.now.first_place + p.index }
    {
        self.counters.first_place as u64 + p.index as u64
    }

    /// The number of live operations, blocks and regions.
    pub fn num_live(&self) -> u64
        ensures { result ≡ num_live self.now }
    {
        let operations = self.objects.operations.count() as u64;
        let blocks = self.objects.blocks.count() as u64;
        let regions = self.objects.regions.count() as u64;
        operations + blocks + regions
    }

    /// Whether an object is live.
    pub fn contains(&self, o: Object) -> bool
        ensures { IsTrue result ↔ IsLive self.now o }
    {
        self.objects.contains(o)
    }

    /// Returns the parent of an object, which is live too.
    pub fn get_parent(&self, o: Object) -> Option<Object>
        requires { IsLive self.now o }
        ensures parent { result ≡ parent self.now o }
        ensures alive { IfSome result (λ k. IsLive self.now k) }
    {
        self.objects.parent_of(o)
    }

    /// Returns the ancestor of an object that many levels up: level 1 is the parent.
    pub fn ancestor(&self, o: Object, levels: usize) -> Option<Object>
        requires { IsLive self.now o }
        ensures ancestor { result ≡ ancestor self.now levels o }
        ensures alive { IfSome result (λ k. IsLive self.now k) }
    {
        let mut at = o;
        for _ in 0..levels {
            at = self.get_parent(at)?;
        }
        Some(at)
    }

    /// States invariants, and does nothing: an object is listed once by its parent, a live one of a fitting kind, and by no other; none
    /// is nested in itself; `next_inside` visits all that is nested in an object; what is used is defined.
    pub fn keeps_nesting(&self)
        ensures forest { Nested (children self.now) (parent self.now) }
        ensures holders { (c k : _) → parent self.now c ≡ Some k → IsLive self.now k }
        ensures kinds { (k c : _) (i : ℕ) → slice_get (children self.now k) i ≡ Some c → Fits k c }
        ensures uses { (u d : _) → IsUse self.now d u → IsDefined self.now d }
        ensures all { (o q : _) → IsInside self.now o q → Among q (all_from self.now o (Some o)) }
    {
        let _objects = &self.objects;
    }

    /// States invariants of the values' numbers, and does nothing: each is below that of the next value, and no two values have the same.
    pub fn keeps_numbers(&self)
        ensures below { (v : Value) (t : _) → value_at self.now v ≡ Some t → t.number < self.now.values }
        ensures differ { NumbersDiffer self.now }
    {
        let _objects = &self.objects;
    }

    /// The number of children of an object.
    pub fn num_children(&self, o: Object) -> usize
        requires { IsLive self.now o }
        ensures { result ≡ length (children self.now o) }
    {
        self.objects.child_count(o)
    }

    /// Returns the child of an object at an index.
    pub fn get_child(&self, o: Object, i: usize) -> Object
        requires alive { IsLive self.now o }
        requires within { i < length (children self.now o) }
        ensures child { slice_get (children self.now o) i ≡ Some result }
        ensures fits { Fits o result }
    {
        self.objects.child_at(o, i)
    }

    /// Whether q is o or nested in o, at any depth. Its time grows with the depth of q.
    pub fn is_inside(&self, o: Object, q: Object) -> bool
        requires { IsLive self.now q }
        ensures { IsTrue result ↔ IsInside self.now o q }
    {
        self.objects.is_inside(o, q)
    }

    /// Returns the object after q in the preorder of o and everything nested in it: each object comes before its children.
    pub fn next_inside(&self, o: Object, q: Object) -> Option<Object>
        requires alive { IsLive self.now q }
        requires within { IsInside self.now o q }
        ensures next { all_from self.now o (Some q) ≡ q ∷ all_from self.now o result }
        ensures inside { IfSome result (λ r. IsInside self.now o r) }
        ensures there { IfSome result (λ r. IsLive self.now r) }
    {
        self.objects.after(o, q)
    }

    /// Whether c has no parent, and k is neither c nor nested in it: the condition of `insert_at_back`.
    pub fn can_insert_at_back(&self, k: Object, c: Object) -> bool
        requires holder { IsLive self.now k }
        requires alive { IsLive self.now c }
        ensures { IsTrue result ↔ CanInsert self.now k c }
    {
        self.objects.can_insert(k, c)
    }

    /// Makes c the last child of k. If an allocation fails, the graph is unchanged.
    pub fn insert_at_back(&mut self, k: Object, c: Object) -> Result<(), OutOfMemory>
        requires holder { IsLive self.old k }
        requires alive { IsLive self.old c }
        requires fits { Fits k c }
        requires can { CanInsert self.old k c }
        ensures ok { OnOk result (Appends self.old self.new k c) }
        ensures err { OnErr result (self.new ≡ self.old) }
        ensures kept { (m : ℕ) → IsNew m self.old k → IsNew m self.old c → KeepsOlder m self.old self.new }
    {
        let count = self.objects.child_count(k);
        self.objects.insert_at(k, count, c)
    }

    /// Makes c the child of k with an index, at most the number of children; the children from there on come after it. If an allocation
    /// fails, the graph is unchanged. Its time grows with the children after c.
    pub fn insert_at(&mut self, k: Object, i: usize, c: Object) -> Result<(), OutOfMemory>
        requires holder { IsLive self.old k }
        requires alive { IsLive self.old c }
        requires fits { Fits k c }
        requires can { CanInsert self.old k c }
        requires within { i ≤ length (children self.old k) }
        ensures ok { OnOk result (InsertsAt self.old self.new k i c) }
        ensures err { OnErr result (self.new ≡ self.old) }
        ensures kept { (m : ℕ) → IsNew m self.old k → IsNew m self.old c → KeepsOlder m self.old self.new }
    {
        self.objects.insert_at(k, i, c)
    }

    /// Removes c from its parent, if it has one, and makes it the child of k with an index, at most the number of the other children; those
    /// from there on come after it. If an allocation fails, the graph is unchanged: c leaves its parent only when there is room for it in
    /// k. Its time grows with the siblings after c, there and here.
    pub fn move_to(&mut self, k: Object, i: usize, c: Object) -> Result<(), OutOfMemory>
        requires holder { IsLive self.old k }
        requires alive { IsLive self.old c }
        requires fits { Fits k c }
        requires apart { IsInside self.old c k → ⊥ }
        requires within { i ≤ length (without c (children self.old k)) }
        ensures ok { OnOk result (Moves self.old self.new k i c) }
        ensures err { OnErr result (self.new ≡ self.old) }
        ensures kept { (m : ℕ) → IsNew m self.old k → IsNew m self.old c → ((p : _) → parent self.old
            c ≡ Some p → IsNew m self.old p)
            → KeepsOlder m self.old self.new }
    {
        self.objects.move_to(k, i, c)
    }

    /// Returns the index of c in its parent k. It is recorded with c, so that no search is needed.
    pub fn find_index_in_parent(&self, k: Object, c: Object) -> usize
        requires { parent self.now c ≡ Some k }
        ensures { slice_get (children self.now k) result ≡ Some c }
    {
        self.objects.index_in(k, c)
    }

    /// Removes an object, with its children, from its parent, if it has one. It allocates nothing. Its time grows with the siblings after it.
    pub fn unlink(&mut self, c: Object)
        requires { IsLive self.old c }
        ensures unlinks { Unlinks self.old self.new c }
        ensures kept { (m : ℕ) → IsNew m self.old c → ((k : _) → parent self.old c ≡ Some k → IsNew m self.old
            k) → KeepsOlder m self.old self.new }
    {
        self.objects.unlink(c);
    }

    /// Whether nothing outside of o uses a value or a block that is defined in o: the condition of `erase`. It allocates nothing. Its
    /// time grows with the objects in o, and with the uses of what they define, each times the depth of its operation.
    pub fn can_erase(&self, o: Object) -> bool
        requires { IsLive self.now o }
        ensures { IsTrue result ↔ CanErase self.now o }
    {
        self.objects.can_erase(o)
    }

    /// Drops all operands and successors of o and of the operations nested in it. All else is unchanged. It allocates nothing. Its time
    /// grows with the objects in o and their uses.
    pub fn drop_all_uses(&mut self, o: Object)
        requires { IsLive self.old o }
        ensures drops { DropsUses self.old self.new o }
        ensures kept { (m : ℕ) → ((p : _) → IsInside self.old o (TheOperation p) → IsNew m self.old
            (TheOperation p))
            → KeepsOlder m self.old self.new }
    {
        self.objects.drop_all_uses(o);
    }

    /// Erases an object and everything nested in it, and removes it from its parent. Nothing outside may use what is defined in it
    /// (`CanErase`). The slots become free, and no pointer is reused. It allocates nothing. Its time grows with the objects in o, their
    /// uses, and the children after o in its parent. Now and then erased objects are removed from the graph's log of made objects, so
    /// that it has no more of them than of live objects.
    pub fn erase(&mut self, o: Object)
        requires alive { IsLive self.old o }
        requires can { CanErase self.old o }
        ensures erases { Erases self.old self.new o }
        ensures kept { (m : ℕ) → ((q : _) → IsInside self.old o q → IsNew m self.old q)
            → ((k : _) → parent self.old o ≡ Some k → IsNew m self.old k) → KeepsOlder m self.old self.new }
    {
        self.objects.drop_all_uses(o);
        let count = self.objects.erase(o);
        let gone = self.gone.saturating_add(count);
        let left = forget_gone(&mut self.log, &self.objects, gone);
        self.gone = left;
    }
}
