//! The context: the graph of all operations, blocks and regions, the paths of source files, and the registered dialects.
ghost use Rattle.std.specs.Prelude.{◌≡◌, ◌≤◌, ◌↔◌, [], IsSome, IsTrue, refl};
ghost use Rattle.irtext_graph.specs.Graph.{empty, begun, num_live, IsLive};
ghost use Rattle.irtext_graph.specs.declared.object.Object.TheVariants.{TheOperation, TheBlock, TheRegion};
ghost use Rattle.irtext_context.specs.Context.{operation, block, region, Contains};

pub mod making;
mod paths;

use crate::base::block::BlockData;
use crate::base::operation::OperationData;
use crate::base::{BasicBlock, Operation, Ptr, Region};
use crate::dialect::{Dialect, DialectName};
use indexmap::IndexMap;
use irtext_base::location::paths::Paths;
use irtext_base::seed::Seed;
use irtext_base::text::{AttrText, IrText};
use irtext_graph::graph::Graph;
use irtext_graph::held::{HasGraph, Kind};
use irtext_graph::object::Object;
use std::alloc::Global;
use std::marker::Model;

/// All operations, blocks and regions by their pointers, the paths of source files, and the dialects by their names.
///
/// A placeholder is an operation without data. It represents an operation or a value that is referred to before it is defined; no text
/// refers to the placeholder itself.
pub struct Context<T, A> {
    pub(crate) graph: Graph<Option<OperationData<A>>, BlockData<A>, Option<T>>,
    paths: Paths,
    pub(crate) dialects: IndexMap<DialectName, Dialect, Seed>,
    seed: Seed,
    alloc: Global,
}

impl<T: Drop, A: Drop> Drop for Context<T, A> {
    fn drop(self) {
        let Context {
            graph: _graph,
            paths: _paths,
            dialects: _dialects,
            seed: _,
            alloc: _,
        } = self;
    }
}

impl<T, A> Model for Context<T, A> {
    ghost use Rattle.std.specs.Coded.{codes};
    ghost use borrow.Follows.Found.{coded as coded_row};
    ghost use Rattle.irtext_context.specs.Context.{ContextView};
    ghost use Rattle.irtext_base.specs.contracts.location.Location as location;

    ghost Value = { ContextView T A };

    ghost coded = { Prim.hlevel (codes, (location.the_row (coded_row A A.code)).coded) };

    ghost view = { λ c. record { graph = c.graph; paths = c.paths; dialects = c.dialects.entries } };
}

impl<T: Drop, A: Drop> HasGraph for Context<T, A> {
    ghost use Rattle.irtext_context.specs.Context.{with_graph};

    type O = Option<OperationData<A>>;

    type B = BlockData<A>;

    type T = Option<T>;

    ghost graph = { λ c. c.graph };

    ghost with_graph = { with_graph };

    ghost graph_with = { λ c g. refl };

    ghost with_own = { λ c. refl };

    fn graph(&self) -> &Graph<Option<OperationData<A>>, BlockData<A>, Option<T>> {
        &self.graph
    }

    fn graph_mut(&mut self) -> &mut Graph<Option<OperationData<A>>, BlockData<A>, Option<T>> {
        &mut self.graph
    }
}

impl<T: IrText<A>, A: AttrText<A>> Context<T, A> {
    /// Makes a context without objects and dialects. Its seed is [`Seed::FIXED`]: whoever writes a text can choose names for which a parse
    /// takes much longer than for others. It allocates nothing.
    pub fn new(alloc: Global) -> Context<T, A>
        ensures { result ≡ record { graph = empty; paths = []; dialects = [] } }
    {
        Context::with_seed(alloc, Seed::FIXED)
    }

    /// Makes a context without objects and dialects. Hashes with this seed find names, paths, attributes and marks. No text that is printed,
    /// no order and no error depends on it. It allocates nothing.
    pub fn with_seed(alloc: Global, seed: Seed) -> Context<T, A>
        ensures { result ≡ record { graph = empty; paths = []; dialects = [] } }
    {
        Context {
            graph: Graph::new(alloc),
            paths: Paths::new(alloc, seed),
            dialects: IndexMap::with_hasher(alloc, seed),
            seed,
            alloc,
        }
    }

    /// Makes a context without objects and dialects. Its next value gets the number `values`, and the numbers of its slots start at
    /// `places`. Large numbers put these counters near their limits: a slot's number is always less than `u32::MAX`. It allocates
    /// nothing.
    pub fn with_counters(alloc: Global, values: u64, places: u32) -> Context<T, A>
        requires { 1 ≤ places }
        ensures { result ≡ record { graph = begun values places; paths = []; dialects = [] } }
    {
        Context {
            graph: Graph::with_counters(alloc, values, places),
            paths: Paths::new(alloc, Seed::FIXED),
            dialects: IndexMap::with_hasher(alloc, Seed::FIXED),
            seed: Seed::FIXED,
            alloc,
        }
    }

    /// The seed of the context's hashes, for the tables of whoever parses a text into the context.
    pub fn seed(&self) -> Seed {
        self.seed
    }

    /// The allocator of the context's objects.
    pub fn allocator(&self) -> Global {
        self.alloc
    }

    /// The number of live operations, blocks and regions. Placeholders count.
    pub fn num_live(&self) -> u64
        ensures { result ≡ num_live self.now.graph }
    {
        self.graph.num_live()
    }

    /// Whether a pointer to an operation, a block or a region refers to one that is live, and is no placeholder. It does what the call
    /// below for its kind does.
    pub fn contains<K: Kind>(&self, p: Ptr<K>) -> bool
        ensures alive { IsTrue result ↔ Contains self.now (K.object p) }
        ensures graph { IsTrue result → IsLive self.now.graph (K.object p) }
    {
        match K::object(p) {
            Object::TheOperation(op) => self.contains_operation(op),
            Object::TheBlock(at) => self.contains_block(at),
            Object::TheRegion(of) => self.contains_region(of),
        }
    }

    /// Whether a pointer refers to a live operation that is no placeholder.
    pub fn contains_operation(&self, p: Ptr<Operation>) -> bool
        ensures alive { IsTrue result ↔ IsSome (operation self.now p) }
        ensures graph { IsTrue result → IsLive self.now.graph (TheOperation p) }
    {
        self.graph.contains(Object::TheOperation(p)) && self.graph.operation(p).is_some()
    }

    /// Whether a pointer refers to a live block.
    pub fn contains_block(&self, p: Ptr<BasicBlock>) -> bool
        ensures alive { IsTrue result ↔ IsSome (block self.now p) }
        ensures graph { IsTrue result → IsLive self.now.graph (TheBlock p) }
    {
        self.graph.contains(Object::TheBlock(p))
    }

    /// Whether a pointer refers to a live region.
    pub fn contains_region(&self, p: Ptr<Region>) -> bool
        ensures alive { IsTrue result ↔ IsSome (region self.now p) }
        ensures graph { IsTrue result → IsLive self.now.graph (TheRegion p) }
    {
        self.graph.contains(Object::TheRegion(p))
    }
}
