//! Iterators over the operations or the blocks in an object, at any depth, in both orders.
ghost use Rattle.std.specs.Prelude.{◌≡◌, option_map};
ghost use Rattle.irtext_graph.specs.declared.object.Object.TheVariants.{TheOperation, TheBlock};
ghost use Rattle.irtext_graph.specs.Graph.{IsLive};
ghost use Rattle.irtext_walks.specs.Walks.{AreOperationsIn, AreBlocksIn, IsAtLive, operations_inside, blocks_inside, post_operations_inside, post_blocks_inside};

use crate::steps::{first_picked, first_picked_post, next_picked, next_picked_post};
use irtext_graph::arena::Ptr;
use irtext_graph::graph::Graph;
use irtext_graph::held::{HasGraph, Kind};
use irtext_graph::object::{BasicBlock, Object, Operation};

/// The operations in an object, at any depth, in the order of the text: each before those nested in it. It borrows the graph, and
/// allocates nothing.
#[derive(Drop)]
pub struct Operations<'c, O, B, T> {
    graph: &'c Graph<O, B, T>,
    root: Object,
    at: Option<Ptr<Operation>>,
    ghost there: { ∥ IsAtLive graph.now root (option_map TheOperation at) ∥₁ },
}

impl<'c, O: Drop, B: Drop, T: Drop> Iterator for Operations<'c, O, B, T> {
    type Item = Ptr<Operation>;

    ghost use Rattle.std.specs.Iterator.{YieldsFirst, item_count};
    ghost use Rattle.irtext_walks.specs.Iter.{operations_left};

    ghost next_gives = { YieldsFirst operations_left };

    ghost remaining = { item_count operations_left };

    fn next(&mut self) -> Option<Ptr<Operation>> {
        let here = self.at?;
        self.graph.keeps_nesting();
        self.at = next_picked(self.graph, self.root, here);
        Some(here)
    }
}

/// The blocks in an object, at any depth, in the order of the text: each before those nested in it. It borrows the graph, and
/// allocates nothing.
#[derive(Drop)]
pub struct Blocks<'c, O, B, T> {
    graph: &'c Graph<O, B, T>,
    root: Object,
    at: Option<Ptr<BasicBlock>>,
    ghost there: { ∥ IsAtLive graph.now root (option_map TheBlock at) ∥₁ },
}

impl<'c, O: Drop, B: Drop, T: Drop> Iterator for Blocks<'c, O, B, T> {
    type Item = Ptr<BasicBlock>;

    ghost use Rattle.std.specs.Iterator.{YieldsFirst, item_count};
    ghost use Rattle.irtext_walks.specs.Iter.{blocks_left};

    ghost next_gives = { YieldsFirst blocks_left };

    ghost remaining = { item_count blocks_left };

    fn next(&mut self) -> Option<Ptr<BasicBlock>> {
        let here = self.at?;
        self.graph.keeps_nesting();
        self.at = next_picked(self.graph, self.root, here);
        Some(here)
    }
}

/// The operations in an object, at any depth, in postorder: each after those nested in it. It borrows the graph, and
/// allocates nothing.
#[derive(Drop)]
pub struct PostOperations<'c, O, B, T> {
    graph: &'c Graph<O, B, T>,
    root: Object,
    at: Option<Ptr<Operation>>,
    ghost there: { ∥ IsAtLive graph.now root (option_map TheOperation at) ∥₁ },
}

impl<'c, O: Drop, B: Drop, T: Drop> Iterator for PostOperations<'c, O, B, T> {
    type Item = Ptr<Operation>;

    ghost use Rattle.std.specs.Iterator.{YieldsFirst, item_count};
    ghost use Rattle.irtext_walks.specs.Iter.{post_operations_left};

    ghost next_gives = { YieldsFirst post_operations_left };

    ghost remaining = { item_count post_operations_left };

    fn next(&mut self) -> Option<Ptr<Operation>> {
        let here = self.at?;
        self.graph.keeps_nesting();
        self.at = next_picked_post(self.graph, self.root, here);
        Some(here)
    }
}

/// The blocks in an object, at any depth, in postorder: each after those nested in it. It borrows the graph, and
/// allocates nothing.
#[derive(Drop)]
pub struct PostBlocks<'c, O, B, T> {
    graph: &'c Graph<O, B, T>,
    root: Object,
    at: Option<Ptr<BasicBlock>>,
    ghost there: { ∥ IsAtLive graph.now root (option_map TheBlock at) ∥₁ },
}

impl<'c, O: Drop, B: Drop, T: Drop> Iterator for PostBlocks<'c, O, B, T> {
    type Item = Ptr<BasicBlock>;

    ghost use Rattle.std.specs.Iterator.{YieldsFirst, item_count};
    ghost use Rattle.irtext_walks.specs.Iter.{post_blocks_left};

    ghost next_gives = { YieldsFirst post_blocks_left };

    ghost remaining = { item_count post_blocks_left };

    fn next(&mut self) -> Option<Ptr<BasicBlock>> {
        let here = self.at?;
        self.graph.keeps_nesting();
        self.at = next_picked_post(self.graph, self.root, here);
        Some(here)
    }
}

/// Iterators over everything nested in an object, by the object's pointer, in any holder of a graph. The object must be live in the graph, and
/// is in itself. They allocate nothing.
pub trait Walk: Sized {
    ghost use Rattle.irtext_graph.specs.declared.object.Object.{Object};
    ghost use Rattle.irtext_walks.specs.Iter.{operations_left, blocks_left, post_operations_left, post_blocks_left};

    // the object
    ghost object: { Self → Object };

    /// Returns an iterator over the operations in the object, at any depth, in the order of the text: `for op in root.walk(ctx)`. An
    /// operation comes before those nested in it.
    fn walk<C: HasGraph>(self, ctx: &C) -> Operations<'_, C::O, C::B, C::T>
        requires { IsLive (C.graph ctx.now) (object self) }
        ensures left { operations_left result ≡ operations_inside (C.graph ctx.now) (object self) }
        ensures all { AreOperationsIn (C.graph ctx.now) (object self) (operations_inside (C.graph ctx.now) (object self)) };

    /// Returns an iterator over the blocks in the object, at any depth, in the order of the text. A block comes before those nested in it.
    fn walk_blocks<C: HasGraph>(self, ctx: &C) -> Blocks<'_, C::O, C::B, C::T>
        requires { IsLive (C.graph ctx.now) (object self) }
        ensures left { blocks_left result ≡ blocks_inside (C.graph ctx.now) (object self) }
        ensures all { AreBlocksIn (C.graph ctx.now) (object self) (blocks_inside (C.graph ctx.now) (object self)) };

    /// Returns an iterator over the operations in the object, at any depth, in postorder: an operation comes after those nested in it.
    fn walk_postorder<C: HasGraph>(self, ctx: &C) -> PostOperations<'_, C::O, C::B, C::T>
        requires { IsLive (C.graph ctx.now) (object self) }
        ensures left { post_operations_left result ≡ post_operations_inside (C.graph ctx.now) (object self) }
        ensures all { AreOperationsIn (C.graph ctx.now) (object self) (post_operations_inside (C.graph ctx.now) (object self)) };

    /// Returns an iterator over the blocks in the object, at any depth, in postorder: a block comes after those nested in it.
    fn walk_blocks_postorder<C: HasGraph>(self, ctx: &C) -> PostBlocks<'_, C::O, C::B, C::T>
        requires { IsLive (C.graph ctx.now) (object self) }
        ensures left { post_blocks_left result ≡ post_blocks_inside (C.graph ctx.now) (object self) }
        ensures all { AreBlocksIn (C.graph ctx.now) (object self) (post_blocks_inside (C.graph ctx.now) (object self)) };
}

impl<K: Kind> Walk for Ptr<K> {
    ghost object = { λ p. K.object p };

    fn walk<C: HasGraph>(self, ctx: &C) -> Operations<'_, C::O, C::B, C::T> {
        let graph = ctx.graph();
        let root = K::object(self);
        Operations {
            graph,
            root,
            at: first_picked(graph, root),
        }
    }

    fn walk_blocks<C: HasGraph>(self, ctx: &C) -> Blocks<'_, C::O, C::B, C::T> {
        let graph = ctx.graph();
        let root = K::object(self);
        Blocks {
            graph,
            root,
            at: first_picked(graph, root),
        }
    }

    fn walk_postorder<C: HasGraph>(self, ctx: &C) -> PostOperations<'_, C::O, C::B, C::T> {
        let graph = ctx.graph();
        let root = K::object(self);
        PostOperations {
            graph,
            root,
            at: first_picked_post(graph, root),
        }
    }

    fn walk_blocks_postorder<C: HasGraph>(self, ctx: &C) -> PostBlocks<'_, C::O, C::B, C::T> {
        let graph = ctx.graph();
        let root = K::object(self);
        PostBlocks {
            graph,
            root,
            at: first_picked_post(graph, root),
        }
    }
}
