//! The steps of walks that come to the objects of one kind alone.
ghost use Rattle.std.specs.Prelude.{◌≡◌, ◌∷◌, ◌++◌, Some, option_map};
ghost use Rattle.irtext_graph.specs.Chained.{Lists};
ghost use Rattle.irtext_graph.specs.Graph.{IsLive, IsInside};
ghost use Rattle.irtext_graph.specs.Throughout.{all_from};
ghost use Rattle.irtext_walks.specs.Postorder.{post_from, postorder_of};
ghost use Rattle.irtext_walks.specs.Walks.{IsLiveInside, IsAtLive, all_in};

use crate::kinds::Picked;
use crate::postorder::{first_in_postorder, next_in_postorder};
use crate::preorder::after_nested;
use irtext_graph::arena::Ptr;
use irtext_graph::graph::Graph;
use irtext_graph::object::Object;

/// Returns the first object of a kind that comes in `root` from an object on, in preorder.
fn pick_from<K: Picked, O: Drop, B: Drop, T: Drop>(
    graph: &Graph<O, B, T>,
    root: Object,
    from: Option<Object>,
) -> Option<Ptr<K>>
    requires { IsAtLive graph.now root from }
    ensures picked { K.among (all_from graph.now root from)
        ≡ K.among (all_from graph.now root (option_map K.object result)) }
    ensures there { IsAtLive graph.now root (option_map K.object result) }
{
    let mut at = from;
    while let Some(o) = at {
        let picked = K::pick(o);
        if picked.is_some() {
            return picked;
        }
        at = graph.next_inside(root, o);
    }
    None
}

/// Returns the first object of a kind in `root`, in preorder.
pub(crate) fn first_picked<K: Picked, O: Drop, B: Drop, T: Drop>(
    graph: &Graph<O, B, T>,
    root: Object,
) -> Option<Ptr<K>>
    requires { IsLive graph.now root }
    ensures first { K.among (all_from graph.now root (option_map K.object result)) ≡ K.among (all_in graph.now root) }
    ensures objects { Lists (IsInside graph.now root) (all_in graph.now root) }
    ensures there { IsAtLive graph.now root (option_map K.object result) }
{
    graph.keeps_nesting();
    pick_from(graph, root, Some(root))
}

/// Returns the object of a kind that comes in `root` after one of them, in preorder.
pub(crate) fn next_picked<K: Picked, O: Drop, B: Drop, T: Drop>(
    graph: &Graph<O, B, T>,
    root: Object,
    at: Ptr<K>,
) -> Option<Ptr<K>>
    requires { IsLiveInside graph.now root (K.object at) }
    ensures next { K.among (all_from graph.now root (Some (K.object at)))
        ≡ at ∷ K.among (all_from graph.now root (option_map K.object result)) }
    ensures there { IsAtLive graph.now root (option_map K.object result) }
{
    let next = graph.next_inside(root, K::object(at));
    pick_from(graph, root, next)
}

/// Returns the first object of a kind that comes in `root` after an object and everything nested in it, in preorder.
pub(crate) fn picked_after_nested<K: Picked, O: Drop, B: Drop, T: Drop>(
    graph: &Graph<O, B, T>,
    root: Object,
    at: Object,
) -> Option<Ptr<K>>
    requires { IsLiveInside graph.now root at }
    ensures next { K.among (all_from graph.now root (Some at))
        ≡ K.among (all_in graph.now at) ++ K.among (all_from graph.now root (option_map K.object result)) }
    ensures there { IsAtLive graph.now root (option_map K.object result) }
{
    pick_from(graph, root, after_nested(graph, root, at))
}

/// Returns the first object of a kind that comes in `root` from an object on, in postorder.
fn pick_post_from<K: Picked, O: Drop, B: Drop, T: Drop>(
    graph: &Graph<O, B, T>,
    root: Object,
    from: Option<Object>,
) -> Option<Ptr<K>>
    requires { IsAtLive graph.now root from }
    ensures picked { K.among (post_from graph.now root from)
        ≡ K.among (post_from graph.now root (option_map K.object result)) }
    ensures there { IsAtLive graph.now root (option_map K.object result) }
{
    let mut at = from;
    while let Some(o) = at {
        let picked = K::pick(o);
        if picked.is_some() {
            return picked;
        }
        at = next_in_postorder(graph, root, o);
    }
    None
}

/// Returns the first object of a kind in `root`, in postorder.
pub(crate) fn first_picked_post<K: Picked, O: Drop, B: Drop, T: Drop>(
    graph: &Graph<O, B, T>,
    root: Object,
) -> Option<Ptr<K>>
    requires { IsLive graph.now root }
    ensures first { K.among (post_from graph.now root (option_map K.object result))
        ≡ K.among (postorder_of graph.now root) }
    ensures objects { Lists (IsInside graph.now root) (postorder_of graph.now root) }
    ensures there { IsAtLive graph.now root (option_map K.object result) }
{
    pick_post_from(graph, root, Some(first_in_postorder(graph, root)))
}

/// Returns the object of a kind that comes in `root` after one of them, in postorder.
pub(crate) fn next_picked_post<K: Picked, O: Drop, B: Drop, T: Drop>(
    graph: &Graph<O, B, T>,
    root: Object,
    at: Ptr<K>,
) -> Option<Ptr<K>>
    requires { IsLiveInside graph.now root (K.object at) }
    ensures next { K.among (post_from graph.now root (Some (K.object at)))
        ≡ at ∷ K.among (post_from graph.now root (option_map K.object result)) }
    ensures there { IsAtLive graph.now root (option_map K.object result) }
{
    let next = next_in_postorder(graph, root, K::object(at));
    pick_post_from(graph, root, next)
}
