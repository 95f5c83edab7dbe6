//! The objects in an object, each before what is nested in it: in the order of the text.
ghost use Rattle.std.specs.Prelude.{◌≡◌, ◌↔◌, ◌++◌, IsTrue, drop, Some, None};
ghost use Rattle.irtext_graph.specs.declared.object.Object.{Object};
ghost use Rattle.irtext_graph.specs.Graph.{IsLive};
ghost use Rattle.irtext_graph.specs.Throughout.{all_from};
ghost use Rattle.irtext_walks.specs.Walks.{IsLiveInside, IsAtLive, all_in};

use crate::siblings::child_after;
use irtext_graph::graph::Graph;
use irtext_graph::held::HasGraph;
use irtext_graph::object::Object;

/// Whether two are the same object.
pub(crate) fn is_same(o: Object, p: Object) -> bool
    ensures { IsTrue result ↔ o ≡ p }
{
    o == p
}

/// Returns the object that comes in `root` after `at` and everything nested in it, in the order of the text, or `None` at the end. Its time
/// grows with the levels that it goes up.
pub fn after_nested<O: Drop, B: Drop, T: Drop>(
    graph: &Graph<O, B, T>,
    root: Object,
    at: Object,
) -> Option<Object>
    requires { IsLiveInside graph.now root at }
    ensures next { all_from graph.now root (Some at) ≡ all_in graph.now at ++ all_from graph.now root result }
    ensures there { IsAtLive graph.now root result }
{
    graph.keeps_nesting();
    let mut past = at;
    while !is_same(past, root) {
        let Some(holder) = graph.get_parent(past) else {
            unreachable!();
        };
        let next = child_after(graph, holder, past);
        if next.is_some() {
            return next;
        }
        past = holder;
    }
    None
}

/// A walk over an object and everything nested in it, in the order of the text: an object comes before its children. It holds the root and
/// the object at hand, and nothing else, and borrows the graph only while it takes a step; so what is at hand can be changed before the next
/// step, as long as nothing is inserted, moved or erased. To stop, drop it.
#[derive(Clone, Copy)]
pub struct PreOrder {
    /// The object that the walk is over.
    pub root: Object,
    /// The object at hand, or `None` at the end.
    pub at: Option<Object>,
}

impl PreOrder {
    /// Begins a walk over an object, which is at hand first.
    pub fn new(root: Object) -> PreOrder
        ensures root { result.root ≡ root }
        ensures at { result.at ≡ Some root }
    {
        PreOrder {
            root,
            at: Some(root),
        }
    }

    /// Goes on to the next object, and returns it: the first child of the object at hand, if it has one. At the end nothing changes.
    pub fn next<C: HasGraph>(&mut self, ctx: &C) -> Option<Object>
        requires { IsAtLive (C.graph ctx.now) self.old.root self.old.at }
        ensures next { all_from (C.graph ctx.now) self.old.root self.new.at
            ≡ drop 1 (all_from (C.graph ctx.now) self.old.root self.old.at) }
        ensures there { IsAtLive (C.graph ctx.now) self.new.root self.new.at }
        ensures root { self.new.root ≡ self.old.root }
        ensures at { result ≡ self.new.at }
    {
        let at = self.at?;
        self.at = ctx.graph().next_inside(self.root, at);
        self.at
    }

    /// Goes on to the object after the one at hand and everything nested in it, and returns it. At the end nothing changes.
    pub fn skip<C: HasGraph>(&mut self, ctx: &C) -> Option<Object>
        requires { IsAtLive (C.graph ctx.now) self.old.root self.old.at }
        ensures next { (at : Object) → self.old.at ≡ Some at → all_from (C.graph ctx.now) self.old.root self.old.at
            ≡ all_in (C.graph ctx.now) at ++ all_from (C.graph ctx.now) self.old.root self.new.at }
        ensures end { self.old.at ≡ None → self.new.at ≡ None }
        ensures there { IsAtLive (C.graph ctx.now) self.new.root self.new.at }
        ensures root { self.new.root ≡ self.old.root }
        ensures at { result ≡ self.new.at }
    {
        let at = self.at?;
        self.at = after_nested(ctx.graph(), self.root, at);
        self.at
    }
}
