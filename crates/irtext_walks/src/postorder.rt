//! The objects in an object, each after what is nested in it.
ghost use Rattle.std.specs.Prelude.{◌≡◌, ◌∷◌, ◌++◌, drop, Some};
ghost use Rattle.irtext_graph.specs.declared.object.Object.{Object};
ghost use Rattle.irtext_graph.specs.Chained.{Lists};
ghost use Rattle.irtext_graph.specs.Graph.{IsLive, IsInside};
ghost use Rattle.irtext_walks.specs.Postorder.{postorder_of, post_after, post_from};
ghost use Rattle.irtext_walks.specs.Walks.{IsLiveInside, IsAtLive};

use crate::preorder::is_same;
use crate::siblings::child_after;
use irtext_graph::graph::Graph;
use irtext_graph::held::HasGraph;
use irtext_graph::object::Object;

/// Goes from an object to its first child, and so on, to an object without children.
fn first_leaf<O: Drop, B: Drop, T: Drop>(graph: &Graph<O, B, T>, from: Object) -> Object
    requires { IsLive graph.now from }
    ensures there { IsLiveInside graph.now from result }
    ensures first { (o : Object) → IsInside graph.now o from
        → post_from graph.now o (Some result) ≡ postorder_of graph.now from ++ post_after graph.now o (Some from) }
{
    graph.keeps_nesting();
    let mut at = from;
    while graph.num_children(at) > 0 {
        at = graph.get_child(at, 0);
    }
    at
}

/// Returns the object in `root` that comes first if each comes after what is nested in it: the first child of the first child, and so on.
/// The list of them all, `postorder_of`, has `root` and the objects nested in it, each once, and no others. Its time grows with the levels that it goes
/// down.
pub fn first_in_postorder<O: Drop, B: Drop, T: Drop>(graph: &Graph<O, B, T>, root: Object) -> Object
    requires { IsLive graph.now root }
    ensures first { post_from graph.now root (Some result) ≡ postorder_of graph.now root }
    ensures objects { Lists (IsInside graph.now root) (postorder_of graph.now root) }
    ensures there { IsLiveInside graph.now root result }
{
    graph.keeps_nesting();
    first_leaf(graph, root)
}

/// Returns the object in `root` that comes after `at` if each comes after what is nested in it: what comes first in the next sibling, and
/// the parent after the last child. It is `None` after `root`. A walk over all goes down and up along each edge once.
pub fn next_in_postorder<O: Drop, B: Drop, T: Drop>(
    graph: &Graph<O, B, T>,
    root: Object,
    at: Object,
) -> Option<Object>
    requires { IsLiveInside graph.now root at }
    ensures next { post_from graph.now root (Some at) ≡ at ∷ post_from graph.now root result }
    ensures there { IsAtLive graph.now root result }
{
    graph.keeps_nesting();
    if is_same(at, root) {
        return None;
    }
    let Some(holder) = graph.get_parent(at) else {
        unreachable!();
    };
    match child_after(graph, holder, at) {
        Some(next) => Some(first_leaf(graph, next)),
        None => Some(holder),
    }
}

/// A walk over an object and everything nested in it: an object comes after its children. It holds the root and the object at hand, and
/// nothing else, and borrows the graph only while it takes a step. To stop, drop it.
#[derive(Clone, Copy)]
pub struct PostOrder {
    /// The object that the walk is over.
    pub root: Object,
    /// The object at hand, or `None` at the end.
    pub at: Option<Object>,
}

impl PostOrder {
    /// Begins a walk over an object. Its first child, or the first child of that, and so on, is at hand first.
    pub fn new<C: HasGraph>(ctx: &C, root: Object) -> PostOrder
        requires { IsLive (C.graph ctx.now) root }
        ensures root { result.root ≡ root }
        ensures first { post_from (C.graph ctx.now) root result.at ≡ postorder_of (C.graph ctx.now) root }
        ensures objects { Lists (IsInside (C.graph ctx.now) root) (postorder_of (C.graph ctx.now) root) }
        ensures there { IsAtLive (C.graph ctx.now) root result.at }
    {
        PostOrder {
            root,
            at: Some(first_in_postorder(ctx.graph(), root)),
        }
    }

    /// Goes on to the next object, and returns it. At the end nothing changes.
    pub fn next<C: HasGraph>(&mut self, ctx: &C) -> Option<Object>
        requires { IsAtLive (C.graph ctx.now) self.old.root self.old.at }
        ensures next { post_from (C.graph ctx.now) self.old.root self.new.at
            ≡ drop 1 (post_from (C.graph ctx.now) self.old.root self.old.at) }
        ensures there { IsAtLive (C.graph ctx.now) self.new.root self.new.at }
        ensures root { self.new.root ≡ self.old.root }
        ensures at { result ≡ self.new.at }
    {
        let at = self.at?;
        self.at = next_in_postorder(ctx.graph(), self.root, at);
        self.at
    }
}
