//! All operations in an operation, a block or a region, at any depth.
ghost use Rattle.std.specs.Prelude.{◌≡◌, ◌++◌, ◌∷◌, ◌↔◌, [], Some, IfOk, IfSome, OnOk};
ghost use Rattle.irtext_graph.specs.Chained.{Among};
ghost use Rattle.irtext_graph.specs.Graph.{IsLive, IsInside};
ghost use Rattle.irtext_graph.specs.Throughout.{all_from};
ghost use Rattle.irtext_graph.specs.declared.object.Object.TheVariants.{TheOperation};
ghost use Rattle.irtext_graph_queries.specs.Nested.{operations_among};

use irtext_graph::arena::Ptr;
use irtext_graph::graph::Graph;
use irtext_graph::held::{HasGraph, Kind};
use irtext_graph::object::{Object, Operation};
use irtext_memory::{OutOfMemory, vec};

/// The operations in an object, at any depth, by the object's pointer, in any holder of a graph.
pub trait NestedOperations: Sized {
    ghost use Rattle.irtext_graph.specs.declared.object.Object.{Object};

    // the object
    ghost object: { Self → Object };

    /// Returns the operations in the object, at any depth, in the order of its text: an operation comes before those that are nested in
    /// it. An operation is the first of its own. So a pass over a root is a loop over `root.all_operations(ctx)?`; of
    /// `builtin.module @m { ^a(): test.nop }` the list has the module and `test.nop`. Fails only when out of memory.
    fn all_operations<C: HasGraph>(self, ctx: &C) -> Result<Vec<Ptr<Operation>>, OutOfMemory>
        requires { IsLive (C.graph ctx.now) (object self) }
        ensures inside { IfOk result (λ all. (p : _) → Among p all.items ↔ IsInside (C.graph ctx.now)
            (object self) (TheOperation p)) }
        ensures order { IfOk result (λ all. all.items ≡ operations_among (all_from (C.graph ctx.now)
            (object self) (Some (object self)))) };
}

/// Appends the object to the list if it is an operation.
fn keep_operation(all: &mut Vec<Ptr<Operation>>, o: Object) -> Result<(), OutOfMemory>
    ensures { OnOk result (all.new.items ≡ all.old.items ++ operations_among (o ∷ [])) }
{
    if let Object::TheOperation(p) = o {
        vec::push(all, p)?;
    }
    Ok(())
}

/// Returns the operations in the object, as `all_operations` does.
fn list_operations<O: Drop, B: Drop, T: Drop>(
    graph: &Graph<O, B, T>,
    o: Object,
) -> Result<Vec<Ptr<Operation>>, OutOfMemory>
    requires { IsLive graph.now o }
    ensures inside { IfOk result (λ all. (p : _) → Among p all.items ↔ IsInside graph.now o
        (TheOperation p)) }
    ensures order { IfOk result (λ all. all.items ≡ operations_among (all_from graph.now o (Some o))) }
{
    graph.keeps_nesting();
    let mut all = Vec::new(graph.allocator());
    let mut at = Some(o);
    while let Some(q) = at {
        keep_operation(&mut all, q)?;
        at = graph.next_inside(o, q);
    }
    Ok(all)
}

impl<K: Kind> NestedOperations for Ptr<K> {
    ghost object = { λ p. K.object p };

    fn all_operations<C: HasGraph>(self, ctx: &C) -> Result<Vec<Ptr<Operation>>, OutOfMemory> {
        list_operations(ctx.graph(), K::object(self))
    }
}
