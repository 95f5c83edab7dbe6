//! The kinds of objects that walks pick out of all objects.
ghost use Rattle.std.specs.Prelude.{◌≡◌, ◌∷◌, [], List, IfSome};
ghost use Rattle.irtext_graph.specs.declared.object.Object.TheVariants.{TheOperation, TheBlock};
ghost use Rattle.irtext_graph_queries.specs.Nested.{operations_among};
ghost use Rattle.irtext_walks.specs.Kinds.{Picks, put_first, blocks_among, picks_operations, picks_blocks};

use irtext_graph::arena::Ptr;
use irtext_graph::held::Kind;
use irtext_graph::object::{BasicBlock, Object, Operation};

/// A kind of objects that a walk picks out of all objects.
pub(crate) trait Picked: Kind {
    ghost use Rattle.irtext_graph.specs.declared.arena.Ptr.{Ptr};
    ghost use Rattle.irtext_graph.specs.declared.object.Object.{Object};

    // the objects of this kind among objects of all kinds, in order
    ghost among: { List Object → List (Ptr Self) };

    /// Returns the pointer to an object, if it is of this kind.
    fn pick(o: Object) -> Option<Ptr<Self>>
        ensures picked { among (o ∷ []) ≡ put_first result [] }
        ensures same { IfSome result (λ p. o ≡ Self.object p) };

    ghost picks: { Picks Self.object among };
}

impl Picked for Operation {
    ghost among = { operations_among };

    ghost picks = { picks_operations };

    fn pick(o: Object) -> Option<Ptr<Operation>> {
        match o {
            Object::TheOperation(p) => Some(p),
            _ => None,
        }
    }
}

impl Picked for BasicBlock {
    ghost among = { blocks_among };

    ghost picks = { picks_blocks };

    fn pick(o: Object) -> Option<Ptr<BasicBlock>> {
        match o {
            Object::TheBlock(p) => Some(p),
            _ => None,
        }
    }
}
