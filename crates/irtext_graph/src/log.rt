//! The log of what was made, in order, and rolling back: removing what was made since a mark.
ghost use Rattle.std.specs.Prelude.{◌≡◌, ◌≢◌, ◌<◌, ◌≤◌, ◌↔◌, ℕ, Some, None, IsSome, IsTrue, length, slice_get};
ghost use Rattle.irtext_graph.specs.Arena.{AtLeast};
ghost use Rattle.irtext_graph.specs.Log.{IsBelow, IsLogged, age};

use crate::arena::Ptr;
use crate::graph::Graph;
use crate::new_uses::{Side, site_at};
use crate::object::{Object, Operation, Site};
use crate::objects::Objects;

/// Returns the object of a log at an index.
pub(crate) fn object_at(log: &[Object], index: usize) -> Object
    requires { index < length log.now }
    ensures { (o : _) → slice_get log.now index ≡ Some o → o ≡ result }
{
    log[index]
}

/// Returns an index in a log: the live objects from there on are those that were not made before the mark. Looks at these entries alone.
pub(crate) fn count_before<O: Drop, B: Drop, T: Drop>(
    log: &[Object],
    objects: &Objects<O, B, T>,
    mark: u64,
) -> usize
    requires { (made : ℕ) × IsLogged made log.now objects.now }
    ensures all { (o : _) → AtLeast mark (age objects.now o)
        → (k : ℕ) × (result ≤ k) × (slice_get log.now k ≡ Some o) }
    ensures since { (k : ℕ) (o : _) → result ≤ k → slice_get log.now k ≡ Some o
        → IsBelow mark (age objects.now o) → ⊥ }
    ensures len { result ≤ length log.now }
{
    let mut count = log.len();
    while count > 0 {
        let last = object_at(log, count - 1);
        if objects.is_older(last, mark) {
            return count;
        }
        count -= 1;
    }
    count
}

/// Removes erased objects from a log if they may be more than half of it, and returns how many may still be in it.
pub(crate) fn forget_gone<O: Drop, B: Drop, T: Drop>(
    log: &mut Vec<Object>,
    objects: &Objects<O, B, T>,
    gone: usize,
) -> usize
    ensures { (made : ℕ) → IsLogged made log.old.items objects.now → IsLogged made log.new.items objects.now }
{
    if gone <= log.len() / 2 {
        return gone;
    }
    log.retain(|o| objects.contains(*o));
    0
}

impl<O: Drop, B: Drop, T: Drop> Objects<O, B, T> {
    ghost use Rattle.irtext_graph.specs.declared.object.Object.TheVariants.{TheOperation};
    ghost use Rattle.irtext_graph.specs.Arena.{get};
    ghost use Rattle.irtext_graph.specs.Back.{ShedsAll};
    ghost use Rattle.irtext_graph.specs.Erasing.{user as object_of};
    ghost use Rattle.irtext_graph.specs.Linking.{site_of};
    ghost use Rattle.irtext_graph.specs.Used.{user};
    ghost use Rattle.irtext_graph.specs.Graph.{seen};
    ghost use Rattle.irtext_graph.specs.Uses.{use_at, val, AreUsesLinked};

    /// Whether an object is live and was made before the mark.
    fn is_older(&self, o: Object, mark: u64) -> bool
        ensures { IsTrue result ↔ IsBelow mark (age self.now o) }
    {
        let age = match o {
            Object::TheOperation(p) => self.operations.born(p),
            Object::TheBlock(p) => self.blocks.born(p),
            Object::TheRegion(p) => self.regions.born(p),
        };
        match age {
            Some(born) => born < mark,
            None => false,
        }
    }

    /// Removes a use from its use list, if it is in one.
    fn detach_linked(&mut self, u: Site)
        requires there { IsSome (use_at self.old u) }
        requires linked { AreUsesLinked self.old }
        ensures linked { AreUsesLinked self.new }
        ensures gone { val self.new u ≡ None }
        ensures kept { (w : _) → w ≢ u → val self.new w ≡ val self.old w }
        ensures seen { seen self.new ≡ seen self.old }
    {
        if self.use_of(u).links.linked {
            self.detach(u);
        }
    }

    /// The number of operands or successors of an operation.
    fn use_count(&self, side: Side, p: Ptr<Operation>) -> usize
        requires { IsSome (get self.now.operations p) }
        ensures there { (i : ℕ) → i < result → IsSome (use_at self.now (site_of side p i)) }
        ensures past { (i : ℕ) → result ≤ i → use_at self.now (site_of side p i) ≡ None }
    {
        match side {
            Side::Operands => self.operations.content(p).data.operands.len(),
            Side::Successors => self.operations.content(p).data.successors.len(),
        }
    }

    /// Removes the operands or the successors of an operation from their use lists.
    fn detach_side(&mut self, side: Side, p: Ptr<Operation>)
        requires linked { AreUsesLinked self.old }
        requires lives { IsSome (get self.old.operations p) }
        ensures linked { AreUsesLinked self.new }
        ensures gone { (i : ℕ) → val self.new (site_of side p i) ≡ None }
        ensures kept { (u : _) → ((i : ℕ) → u ≢ site_of side p i) → val self.new u ≡ val self.old u }
        ensures seen { seen self.new ≡ seen self.old }
    {
        for i in 0..self.use_count(side, p) {
            self.detach_linked(site_at(side, p, i));
        }
    }

    /// Removes the uses of an operation from their use lists.
    pub(crate) fn detach_uses(&mut self, p: Ptr<Operation>)
        requires linked { AreUsesLinked self.old }
        requires lives { IsSome (get self.old.operations p) }
        ensures linked { AreUsesLinked self.new }
        ensures gone { (u : _) → object_of u ≡ TheOperation p → val self.new u ≡ None }
        ensures kept { (u : _) → object_of u ≢ TheOperation p → val self.new u ≡ val self.old u }
        ensures seen { seen self.new ≡ seen self.old }
    {
        self.detach_side(Side::Operands, p);
        self.detach_side(Side::Successors, p);
    }

    /// Removes the uses of an object from their use lists, if it is an operation that was not made before the mark.
    fn detach_new(&mut self, o: Object, mark: u64)
        requires linked { AreUsesLinked self.old }
        ensures linked { AreUsesLinked self.new }
        ensures gone { AtLeast mark (age self.old o) → (u : _) → TheOperation (user u) ≡ o
            → val self.new u ≡ None }
        ensures fewer { (u : _) → val self.old u ≡ None → val self.new u ≡ None }
        ensures kept { (u : _) → (AtLeast mark (age self.old (TheOperation (user u))) → ⊥)
            → val self.new u ≡ val self.old u }
        ensures seen { seen self.new ≡ seen self.old }
    {
        let Object::TheOperation(p) = o else {
            return;
        };
        let Some(born) = self.operations.born(p) else {
            return;
        };
        if born < mark {
            return;
        }
        self.detach_uses(p);
    }

    /// Removes the uses of those operations in a log, from an index on, that were not made before the mark from their use lists.
    pub(crate) fn detach_since(&mut self, log: &[Object], start: usize, mark: u64)
        requires linked { AreUsesLinked self.old }
        requires start { start ≤ length log.now }
        ensures linked { AreUsesLinked self.new }
        ensures gone { (k : ℕ) (o : _) (u : _) → start ≤ k → slice_get log.now k ≡ Some o
            → o ≡ TheOperation (user u) → AtLeast mark (age self.old o) → val self.new u ≡ None }
        ensures kept { (u : _) → (AtLeast mark (age self.old (TheOperation (user u))) → ⊥)
            → val self.new u ≡ val self.old u }
        ensures seen { seen self.new ≡ seen self.old }
    {
        for k in start..log.len() {
            let o = object_at(log, k);
            self.detach_new(o, mark);
        }
    }

    /// Removes an object if it was not made before the mark.
    fn take_out(&mut self, o: Object, mark: u64)
        ensures sheds { ShedsAll mark self.old self.new }
        ensures gone { AtLeast mark (age self.new o) → ⊥ }
    {
        match o {
            Object::TheOperation(p) => self.operations.remove_since(p, mark),
            Object::TheBlock(p) => self.blocks.remove_since(p, mark),
            Object::TheRegion(p) => self.regions.remove_since(p, mark),
        }
    }

    /// Removes those objects in a log, from an index on, that were not made before the mark.
    pub(crate) fn take_out_since(&mut self, log: &[Object], start: usize, mark: u64)
        requires { start ≤ length log.now }
        ensures sheds { ShedsAll mark self.old self.new }
        ensures gone { (k : ℕ) (o : _) → start ≤ k → slice_get log.now k ≡ Some o
            → AtLeast mark (age self.new o) → ⊥ }
    {
        for k in start..log.len() {
            let o = object_at(log, k);
            self.take_out(o, mark);
        }
    }
}

impl<O: Drop, B: Drop, T: Drop> Graph<O, B, T> {
    ghost use Rattle.irtext_graph.specs.Back.{IsClosedBelow, RollsBack};
    ghost use Rattle.irtext_graph.specs.Graph.{KeepsOlder};

    /// Removes every object that was not made before the mark, a value that `made` returned. Older objects are unchanged. No pointer is
    /// reused, and `made` and the number of the next value are unchanged. It allocates nothing. Its time grows with the number of objects
    /// that were made since, and of older ones that were erased since the last roll-back.
    pub fn roll_back(&mut self, mark: u64)
        requires closed { IsClosedBelow mark self.old }
        ensures back { RollsBack mark self.old self.new }
        ensures kept { (m : ℕ) → m ≤ mark → KeepsOlder m self.old self.new }
    {
        let log = self.log.as_slice();
        let start = count_before(log, &self.objects, mark);
        self.objects.detach_since(log, start, mark);
        self.objects.take_out_since(log, start, mark);
        self.log.truncate(start);
    }
}
