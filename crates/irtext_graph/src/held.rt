//! Holders of a graph, such as a context, and the kinds of objects, for calls on pointers.
ghost use Rattle.std.specs.Prelude.{◌≡◌};
ghost use Rattle.std.specs.Borrow.{sem};
ghost use Rattle.irtext_graph.specs.Objects.{Fits, operation_alike, block_alike, region_alike};
ghost use Rattle.irtext_graph.specs.Graph.{GraphView};
ghost use Rattle.irtext_graph.specs.declared.object.Object.TheVariants.{TheOperation, TheBlock, TheRegion};

use crate::arena::Ptr;
use crate::graph::Graph;
use crate::object::{BasicBlock, Object, Operation, Region};

/// Anything that has a graph, such as a context. The calls on pointers need only this.
pub trait HasGraph {
    ghost use Rattle.irtext_graph.specs.DataLends.{LendsGraph};

    // the data of operations, the data of blocks, and the types of values
    type O: Drop;

    type B: Drop;

    type T: Drop;

    // the graph
    ghost graph: { Self → GraphView Self.O Self.B Self.T };
    // the same with another graph
    ghost with_graph: { Self → GraphView Self.O Self.B Self.T → Self };

    /// Returns the graph.
    fn graph(&self) -> &Graph<Self::O, Self::B, Self::T>
        ensures { result.now ≡ graph self.now };

    /// Borrows the graph as `&mut`.
    fn graph_mut(&mut self) -> &mut Graph<Self::O, Self::B, Self::T>
        ensures* lends { sem 𝓛 (LendsGraph Self.O.row Self.B.row Self.T.row Self.row with_graph
            self.entry result) }
        ensures value { result.now ≡ graph self.old };

    ghost graph_with: { (c : Self) (g : GraphView Self.O Self.B Self.T) → graph (with_graph c g) ≡ g };

    ghost with_own: { (c : Self) → with_graph c (graph c) ≡ c };
}

/// A kind of objects: operations, blocks or regions.
pub trait Kind {
    ghost use Rattle.irtext_graph.specs.declared.arena.Ptr.{Ptr};
    ghost use Rattle.irtext_graph.specs.declared.object.Object.{Object};

    // the object that a pointer of this kind refers to
    ghost object: { Ptr Self → Object };

    // what can have one object of this kind as a child can have another
    ghost alike: { (p q : Ptr Self) (k : Object) → Fits k (object p) → Fits k (object q) };

    /// Returns the object that a pointer of this kind refers to.
    fn object(p: Ptr<Self>) -> Object
        ensures { result ≡ object p };
}

/// A kind of objects whose children are of kind K.
pub trait Holds<K: Kind>: Kind {
    ghost use Rattle.irtext_graph.specs.declared.arena.Ptr.{Ptr};

    ghost fits: { (k : Ptr Self) (c : Ptr K) → Fits (Self.object k) (K.object c) };
}

impl Kind for Operation {
    ghost object = { λ p. TheOperation p };

    ghost alike = { operation_alike };

    fn object(p: Ptr<Operation>) -> Object
        ensures { result ≡ TheOperation p }
    {
        Object::TheOperation(p)
    }
}

impl Kind for BasicBlock {
    ghost object = { λ p. TheBlock p };

    ghost alike = { block_alike };

    fn object(p: Ptr<BasicBlock>) -> Object
        ensures { result ≡ TheBlock p }
    {
        Object::TheBlock(p)
    }
}

impl Kind for Region {
    ghost object = { λ p. TheRegion p };

    ghost alike = { region_alike };

    fn object(p: Ptr<Region>) -> Object
        ensures { result ≡ TheRegion p }
    {
        Object::TheRegion(p)
    }
}

impl Holds<Region> for Operation {
    ghost fits = { λ k c. tt };
}

impl Holds<Operation> for BasicBlock {
    ghost fits = { λ k c. tt };
}

impl Holds<BasicBlock> for Region {
    ghost fits = { λ k c. tt };
}
