//! The objects that enclose an object, and its index in its parent.
ghost use Rattle.std.specs.Prelude.{◌≡◌, Some, IfSome, IsSome, option_map, slice_get};
ghost use Rattle.irtext_graph.specs.Graph.{IsLive, parent, children, ancestor};
ghost use Rattle.irtext_graph.specs.declared.object.Object.TheVariants.{TheOperation, TheBlock, TheRegion};
ghost use Rattle.irtext_graph_queries.specs.Ancestors.{by_kind, to_operation, to_block, to_region};

use irtext_graph::arena::Ptr;
use irtext_graph::held::{HasGraph, Kind};
use irtext_graph::object::{BasicBlock, Object, Operation, Region};

/// Returns the first number for an operation, the second for a block, and the third for a region.
fn by_kind(o: Object, operation: usize, block: usize, region: usize) -> usize
    ensures { result ≡ by_kind o operation block region }
{
    match o {
        Object::TheOperation(_) => operation,
        Object::TheBlock(_) => block,
        Object::TheRegion(_) => region,
    }
}

/// The objects that enclose an object, by its pointer, in any holder of a graph. The object must be live in the graph.
pub trait Ancestors: Sized {
    ghost use Rattle.irtext_graph.specs.declared.object.Object.{Object};

    // the object
    ghost object: { Self → Object };

    /// Returns the nearest operation that encloses the object, if there is one.
    fn get_parent_op<C: HasGraph>(self, ctx: &C) -> Option<Ptr<Operation>>
        requires { IsLive (C.graph ctx.now) (object self) }
        ensures parent { ancestor (C.graph ctx.now) (to_operation (object self))
            (object self) ≡ option_map TheOperation result }
        ensures alive { IfSome result (λ p. IsLive (C.graph ctx.now) (TheOperation p)) };

    /// Returns the nearest block that encloses the object, if there is one.
    fn get_parent_block<C: HasGraph>(self, ctx: &C) -> Option<Ptr<BasicBlock>>
        requires { IsLive (C.graph ctx.now) (object self) }
        ensures parent { ancestor (C.graph ctx.now) (to_block (object self)) (object self) ≡ option_map
            TheBlock result }
        ensures alive { IfSome result (λ p. IsLive (C.graph ctx.now) (TheBlock p)) };

    /// Returns the nearest region that encloses the object, if there is one.
    fn get_parent_region<C: HasGraph>(self, ctx: &C) -> Option<Ptr<Region>>
        requires { IsLive (C.graph ctx.now) (object self) }
        ensures parent { ancestor (C.graph ctx.now) (to_region (object self)) (object self) ≡ option_map
            TheRegion result }
        ensures alive { IfSome result (λ p. IsLive (C.graph ctx.now) (TheRegion p)) };

    /// Returns the index of the object in its parent.
    fn find_index_in_parent<C: HasGraph>(self, ctx: &C) -> usize
        requires alive { IsLive (C.graph ctx.now) (object self) }
        requires inside { IsSome (parent (C.graph ctx.now) (object self)) }
        ensures { (k : _) → parent (C.graph ctx.now) (object self) ≡ Some k
            → slice_get (children (C.graph ctx.now) k) result ≡ Some (object self) };
}

impl<K: Kind> Ancestors for Ptr<K> {
    ghost object = { λ p. K.object p };

    fn get_parent_op<C: HasGraph>(self, ctx: &C) -> Option<Ptr<Operation>> {
        let o = K::object(self);
        match ctx.graph().ancestor(o, by_kind(o, 3, 2, 1)) {
            Some(Object::TheOperation(p)) => Some(p),
            None => None,
            _ => unreachable!(),
        }
    }

    fn get_parent_block<C: HasGraph>(self, ctx: &C) -> Option<Ptr<BasicBlock>> {
        let o = K::object(self);
        match ctx.graph().ancestor(o, by_kind(o, 1, 3, 2)) {
            Some(Object::TheBlock(p)) => Some(p),
            None => None,
            _ => unreachable!(),
        }
    }

    fn get_parent_region<C: HasGraph>(self, ctx: &C) -> Option<Ptr<Region>> {
        let o = K::object(self);
        match ctx.graph().ancestor(o, by_kind(o, 2, 1, 3)) {
            Some(Object::TheRegion(p)) => Some(p),
            None => None,
            _ => unreachable!(),
        }
    }

    fn find_index_in_parent<C: HasGraph>(self, ctx: &C) -> usize {
        let o = K::object(self);
        match ctx.graph().get_parent(o) {
            Some(k) => ctx.graph().find_index_in_parent(k, o),
            None => unreachable!(),
        }
    }
}
