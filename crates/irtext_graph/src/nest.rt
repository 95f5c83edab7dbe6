//! Objects with their parents and children.
ghost use Rattle.std.specs.Prelude.{◌≡◌, ◌≢◌, ◌<◌, ◌≤◌, ◌+◌, ◌++◌, ◌∷◌, Some, None, [], IsSome, OnOk, OnErr, length, slice_get};

use crate::arena::{Arena, Ptr};
use irtext_few::Growing;
use irtext_memory::OutOfMemory;

/// An object's parent, of kind P, its children in order, of kind C, and its data.
#[derive(Drop)]
pub(crate) struct Nest<P, C, D> {
    pub(crate) parent: Option<Ptr<P>>,
    // the index in the parent as it was recorded last: a hint that is tried first, and may be wrong
    pub(crate) noted: u32,
    pub(crate) children: Growing<Ptr<C>>,
    pub(crate) data: D,
}

impl<P, C, D: Drop> Arena<Nest<P, C, D>> {
    ghost use Rattle.std.specs.List.{insert, remove};
    ghost use Rattle.irtext_graph.specs.declared.arena.Ptr.{Ptr};
    ghost use Rattle.irtext_graph.specs.Arena.{get, KeepsPlaces, ShedsPlaces};
    ghost use Rattle.irtext_graph.specs.Nest.{up, kids, datum, links, HasRoom, OnlyLists};
    ghost use Rattle.irtext_graph.specs.Content.{nodes};

    /// Returns the parent of an object.
    pub(crate) fn parent_of<K>(&self, p: Ptr<K>) -> Option<Ptr<P>>
        requires { IsSome (get self.now p) }
        ensures { up self.now p ≡ result }
    {
        self.content(p).parent
    }

    /// Sets the parent of an object.
    pub(crate) fn set_parent<K>(&mut self, p: Ptr<K>, parent: Option<Ptr<P>>)
        requires { IsSome (get self.old p) }
        ensures here { up self.new p ≡ parent }
        ensures others { (q : Ptr K) → q ≢ p → up self.new q ≡ up self.old q }
        ensures kids { (q : Ptr K) → kids self.new q ≡ kids self.old q }
        ensures data { (q : Ptr K) → datum self.new q ≡ datum self.old q }
        ensures links { links self.new ≡ links self.old }
        ensures room { (q : Ptr K) → HasRoom (get self.old q) → HasRoom (get self.new q) }
        ensures places { KeepsPlaces self.old self.new }
    {
        self.content_mut(p).parent = parent;
    }

    /// Returns the index in its parent that was recorded for an object last.
    pub(crate) fn noted<K>(&self, p: Ptr<K>) -> usize
        requires { IsSome (get self.now p) }
    {
        self.content(p).noted as usize
    }

    /// Records an object's index in its parent. What contracts see of the object is unchanged.
    pub(crate) fn note<K>(&mut self, p: Ptr<K>, index: usize)
        requires { IsSome (get self.old p) }
        ensures ups { (q : Ptr K) → up self.new q ≡ up self.old q }
        ensures kids { (q : Ptr K) → kids self.new q ≡ kids self.old q }
        ensures data { (q : Ptr K) → datum self.new q ≡ datum self.old q }
        ensures links { links self.new ≡ links self.old }
        ensures room { (q : Ptr K) → HasRoom (get self.old q) → HasRoom (get self.new q) }
        ensures places { KeepsPlaces self.old self.new }
    {
        self.content_mut(p).noted = u32::try_from(index).unwrap_or(u32::MAX);
    }

    /// Makes room for one more child of an object. What contracts see of the objects is unchanged.
    pub(crate) fn make_child_room<K>(&mut self, p: Ptr<K>) -> Result<(), OutOfMemory>
        requires { IsSome (get self.old p) }
        ensures room { OnOk result (HasRoom (get self.new p)) }
        ensures here { kids self.new p ≡ kids self.old p }
        ensures links { links self.new ≡ links self.old }
        ensures only { OnlyLists self.old self.new p }
        ensures same { nodes self.new ≡ nodes self.old }
    {
        self.content_mut(p).children.make_room()
    }

    /// Inserts a child of an object at an index. There is room for it.
    pub(crate) fn insert_child<K>(&mut self, p: Ptr<K>, i: usize, c: Ptr<C>)
        requires room { HasRoom (get self.old p) }
        requires within { i ≤ length (kids self.old p) }
        ensures here { kids self.new p ≡ insert (kids self.old p) i c }
        ensures only { OnlyLists self.old self.new p }
    {
        self.content_mut(p).children.insert_reserved(i, c);
    }

    /// The number of children of an object.
    pub(crate) fn child_count<K>(&self, p: Ptr<K>) -> usize
        requires { IsSome (get self.now p) }
        ensures { result ≡ length (kids self.now p) }
    {
        self.content(p).children.len()
    }

    /// Returns the child at an index.
    pub(crate) fn child_at<K>(&self, p: Ptr<K>, i: usize) -> Ptr<C>
        requires live { IsSome (get self.now p) }
        requires within { i < length (kids self.now p) }
        ensures { slice_get (kids self.now p) i ≡ Some result }
    {
        self.content(p).children.at(i)
    }

    /// Removes the child at an index from an object.
    pub(crate) fn remove_child<K>(&mut self, p: Ptr<K>, i: usize)
        requires live { IsSome (get self.old p) }
        requires within { i < length (kids self.old p) }
        ensures here { kids self.new p ≡ remove (kids self.old p) i }
        ensures less { links self.new < links self.old }
        ensures room { (q : Ptr K) → HasRoom (get self.old q) → HasRoom (get self.new q) }
        ensures only { OnlyLists self.old self.new p }
    {
        self.content_mut(p).children.remove(i);
    }

    /// Removes an object. Its children stay live.
    pub(crate) fn vacate<K>(&mut self, p: Ptr<K>)
        ensures gone { get self.new p ≡ None }
        ensures others { (q : Ptr K) → q ≢ p → get self.new q ≡ get self.old q }
        ensures links { links self.new ≤ links self.old }
        ensures sheds { ShedsPlaces self.old self.new }
    {
        self.remove(p);
    }
}
