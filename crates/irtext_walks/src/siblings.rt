//! The objects beside an object among the children of its parent, and its first and last child.
ghost use Rattle.std.specs.Prelude.{◌≡◌, ◌+◌, ◌<◌, ℕ, Some, None, IfSome, IsSome, slice_get, length};
ghost use Rattle.irtext_graph.specs.declared.arena.Ptr.{Ptr};
ghost use Rattle.irtext_graph.specs.declared.object.BasicBlock.{BasicBlock};
ghost use Rattle.irtext_graph.specs.declared.object.Object.TheVariants.{TheOperation, TheBlock, TheRegion};
ghost use Rattle.irtext_graph.specs.declared.object.Region.{Region};
ghost use Rattle.irtext_graph.specs.Graph.{IsLive, parent, children};
ghost use Rattle.irtext_graph.specs.Parts.{operations_in, blocks};
ghost use Rattle.irtext_walks.specs.Siblings.{item_before, last_item};

use irtext_graph::arena::Ptr;
use irtext_graph::graph::Graph;
use irtext_graph::held::{HasGraph, Kind};
use irtext_graph::object::{BasicBlock, Object, Operation, Region};

/// Returns the child of an object at an index, or `None` if it has fewer children.
fn child_at<O: Drop, B: Drop, T: Drop>(
    graph: &Graph<O, B, T>,
    holder: Object,
    index: usize,
) -> Option<Object>
    requires { IsLive graph.now holder }
    ensures child { result ≡ slice_get (children graph.now holder) index }
    ensures alive { IfSome result (λ c. IsLive graph.now c) }
{
    graph.keeps_nesting();
    if index < graph.num_children(holder) {
        return Some(graph.get_child(holder, index));
    }
    None
}

/// Returns the child of `holder` after its child c, or `None` if c is the last one.
pub(crate) fn child_after<O: Drop, B: Drop, T: Drop>(
    graph: &Graph<O, B, T>,
    holder: Object,
    c: Object,
) -> Option<Object>
    requires { parent graph.now c ≡ Some holder }
    ensures next { (i : ℕ) → slice_get (children graph.now holder) i ≡ Some c
        → result ≡ slice_get (children graph.now holder) (i + 1) }
    ensures alive { IfSome result (λ d. IsLive graph.now d) }
{
    graph.keeps_nesting();
    let _count = graph.num_children(holder);
    child_at(graph, holder, graph.find_index_in_parent(holder, c) + 1)
}

/// Returns the child of `holder` before its child c, or `None` if c is the first one.
fn child_before<O: Drop, B: Drop, T: Drop>(
    graph: &Graph<O, B, T>,
    holder: Object,
    c: Object,
) -> Option<Object>
    requires { parent graph.now c ≡ Some holder }
    ensures previous { (i : ℕ) → slice_get (children graph.now holder) i ≡ Some c
        → result ≡ item_before (children graph.now holder) i }
    ensures alive { IfSome result (λ d. IsLive graph.now d) }
{
    graph.keeps_nesting();
    let index = graph.find_index_in_parent(holder, c).checked_sub(1)?;
    child_at(graph, holder, index)
}

/// Returns the object after o among the children of its parent. It is `None` for the last child, and for an object without a parent. It
/// takes the same time among any number of siblings, as long as the index that is recorded with o is right.
pub fn next_sibling<O: Drop, B: Drop, T: Drop>(graph: &Graph<O, B, T>, o: Object) -> Option<Object>
    requires { IsLive graph.now o }
    ensures next { (k : _) (i : ℕ) → parent graph.now o ≡ Some k → slice_get (children graph.now k) i ≡ Some o
        → result ≡ slice_get (children graph.now k) (i + 1) }
    ensures alone { parent graph.now o ≡ None → result ≡ None }
    ensures alive { IfSome result (λ d. IsLive graph.now d) }
{
    child_after(graph, graph.get_parent(o)?, o)
}

/// Returns the object before o among the children of its parent. It is `None` for the first child, and for an object without a parent. It
/// takes the same time among any number of siblings, as long as the index that is recorded with o is right.
pub fn previous_sibling<O: Drop, B: Drop, T: Drop>(
    graph: &Graph<O, B, T>,
    o: Object,
) -> Option<Object>
    requires { IsLive graph.now o }
    ensures previous { (k : _) (i : ℕ) → parent graph.now o ≡ Some k → slice_get (children graph.now k) i ≡ Some o
        → result ≡ item_before (children graph.now k) i }
    ensures alone { parent graph.now o ≡ None → result ≡ None }
    ensures alive { IfSome result (λ d. IsLive graph.now d) }
{
    child_before(graph, graph.get_parent(o)?, o)
}

/// Returns the first child of an object, or `None` if it has no children.
pub fn first_child<O: Drop, B: Drop, T: Drop>(graph: &Graph<O, B, T>, o: Object) -> Option<Object>
    requires { IsLive graph.now o }
    ensures first { result ≡ slice_get (children graph.now o) 0 }
    ensures alive { IfSome result (λ c. IsLive graph.now c) }
{
    child_at(graph, o, 0)
}

/// Returns the last child of an object, or `None` if it has no children.
pub fn last_child<O: Drop, B: Drop, T: Drop>(graph: &Graph<O, B, T>, o: Object) -> Option<Object>
    requires { IsLive graph.now o }
    ensures last { result ≡ last_item (children graph.now o) }
    ensures alive { IfSome result (λ c. IsLive graph.now c) }
{
    let index = graph.num_children(o).checked_sub(1)?;
    child_at(graph, o, index)
}

/// The objects beside an object, by its pointer, in any holder of a graph. The object must be live in the graph. Each call takes the same
/// time among any number of siblings, as long as the index that is recorded with the object is right.
pub trait Siblings: Sized {
    ghost use Rattle.irtext_graph.specs.declared.object.Object.{Object};

    // the object
    ghost object: { Self → Object };

    /// Returns the object after this one among the children of its parent, or `None` if it is the last one or has no parent.
    fn next_sibling<C: HasGraph>(self, ctx: &C) -> Option<Object>
        requires { IsLive (C.graph ctx.now) (object self) }
        ensures next { (k : _) (i : ℕ) → parent (C.graph ctx.now) (object self) ≡ Some k
            → slice_get (children (C.graph ctx.now) k) i ≡ Some (object self)
            → result ≡ slice_get (children (C.graph ctx.now) k) (i + 1) }
        ensures alone { parent (C.graph ctx.now) (object self) ≡ None → result ≡ None }
        ensures alive { IfSome result (λ d. IsLive (C.graph ctx.now) d) };

    /// Returns the object before this one among the children of its parent, or `None` if it is the first one or has no parent.
    fn previous_sibling<C: HasGraph>(self, ctx: &C) -> Option<Object>
        requires { IsLive (C.graph ctx.now) (object self) }
        ensures previous { (k : _) (i : ℕ) → parent (C.graph ctx.now) (object self) ≡ Some k
            → slice_get (children (C.graph ctx.now) k) i ≡ Some (object self)
            → result ≡ item_before (children (C.graph ctx.now) k) i }
        ensures alone { parent (C.graph ctx.now) (object self) ≡ None → result ≡ None }
        ensures alive { IfSome result (λ d. IsLive (C.graph ctx.now) d) };

    /// Returns the first child of the object, or `None` if it has no children.
    fn first_child<C: HasGraph>(self, ctx: &C) -> Option<Object>
        requires { IsLive (C.graph ctx.now) (object self) }
        ensures first { result ≡ slice_get (children (C.graph ctx.now) (object self)) 0 }
        ensures alive { IfSome result (λ c. IsLive (C.graph ctx.now) c) };

    /// Returns the last child of the object, or `None` if it has no children.
    fn last_child<C: HasGraph>(self, ctx: &C) -> Option<Object>
        requires { IsLive (C.graph ctx.now) (object self) }
        ensures last { result ≡ last_item (children (C.graph ctx.now) (object self)) }
        ensures alive { IfSome result (λ c. IsLive (C.graph ctx.now) c) };
}

impl<K: Kind> Siblings for Ptr<K> {
    ghost object = { λ p. K.object p };

    fn next_sibling<C: HasGraph>(self, ctx: &C) -> Option<Object> {
        next_sibling(ctx.graph(), K::object(self))
    }

    fn previous_sibling<C: HasGraph>(self, ctx: &C) -> Option<Object> {
        previous_sibling(ctx.graph(), K::object(self))
    }

    fn first_child<C: HasGraph>(self, ctx: &C) -> Option<Object> {
        first_child(ctx.graph(), K::object(self))
    }

    fn last_child<C: HasGraph>(self, ctx: &C) -> Option<Object> {
        last_child(ctx.graph(), K::object(self))
    }
}
