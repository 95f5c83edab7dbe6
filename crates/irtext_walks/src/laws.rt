//! Laws of walks: they come to all that is nested in an object, each once, and changes that insert, move and erase nothing leave them as
//! they are.
ghost use Rattle.irtext_graph.specs.Chained.{Lists};
ghost use Rattle.irtext_graph.specs.Data.{EditsOperation, EditsBlock};
ghost use Rattle.irtext_graph.specs.Edits.{Redirects};
ghost use Rattle.irtext_graph.specs.Graph.{GraphView, IsInside};
ghost use Rattle.irtext_graph.specs.Used.{Replaces};
ghost use Rattle.irtext_graph.specs.declared.arena.Ptr.{Ptr};
ghost use Rattle.irtext_graph.specs.declared.object.BasicBlock.{BasicBlock};
ghost use Rattle.irtext_graph.specs.declared.object.Defined.{Defined};
ghost use Rattle.irtext_graph.specs.declared.object.Object.{Object};
ghost use Rattle.irtext_graph.specs.declared.object.Operation.{Operation};
ghost use Rattle.irtext_graph.specs.declared.object.Site.{Site};
ghost use Rattle.irtext_walks.specs.Postorder.{postorder_of};
ghost use Rattle.irtext_walks.specs.Walks.{KeepsWalks, all_in};

use irtext_graph::graph::Graph;

/// A walk over an object, in either order, comes to the object and to all that is nested in it, to each once, and to nothing else.
pub fn walks_come_to_all<O: Drop, B: Drop, T: Drop>(graph: &Graph<O, B, T>)
    ensures preorder { (o : Object) → Lists (IsInside graph.now o) (all_in graph.now o) }
    ensures postorder { (o : Object) → Lists (IsInside graph.now o) (postorder_of graph.now o) }
{
    graph.keeps_nesting();
}

/// Walks go on as they did after the data of an operation or of a block were changed, as by `operation_mut` or `block_mut`.
pub fn data_edits_keep_walks<O: Drop, B: Drop, T: Drop>()
    ensures operation { (old new : GraphView O B T) (p : Ptr Operation) (change : O → O)
        → EditsOperation old new p change → KeepsWalks old new }
    ensures block { (old new : GraphView O B T) (p : Ptr BasicBlock) (change : B → B)
        → EditsBlock old new p change → KeepsWalks old new }
{}

/// Walks go on as they did after operands or successors were replaced, as by `set_use` or `replace_all_uses`.
pub fn use_edits_keep_walks<O: Drop, B: Drop, T: Drop>()
    ensures one { (old new : GraphView O B T) (u : Site) (d : Defined) → Redirects old new u d → KeepsWalks old new }
    ensures all { (old new : GraphView O B T) (d e : Defined) → Replaces old new d e → KeepsWalks old new }
{}
