//! Walks over the operations or the blocks in an operation, a block or a region, at any depth.
ghost use Rattle.std.specs.Prelude.{◌≡◌, ◌∷◌, ◌++◌, Some, option_map};
ghost use Rattle.irtext_graph.specs.declared.object.Object.TheVariants.{TheOperation, TheBlock};
ghost use Rattle.irtext_graph.specs.Graph.{IsLive};
ghost use Rattle.irtext_walks.specs.Walks.{AreOperationsIn, AreBlocksIn, IsLiveInside, IsAtLive, operations_from, operations_inside};
ghost use Rattle.irtext_walks.specs.Walks.{blocks_from, blocks_inside, post_operations_from, post_operations_inside, post_blocks_from, post_blocks_inside};

use crate::steps::{
    first_picked, first_picked_post, next_picked, next_picked_post, picked_after_nested,
};
use irtext_graph::arena::Ptr;
use irtext_graph::held::{HasGraph, Kind};
use irtext_graph::object::{BasicBlock, Object, Operation};

/// Walks over the operations in an object, at any depth, by the pointer of the object, the root. The root must be live in the graph. An
/// operation is in itself.
///
/// A walk is a loop that holds one pointer, and borrows nothing between its steps; so a pass can change the data of the operation at hand,
/// what it uses, and its regions after the walk has gone past them. The object at hand must stay in the root.
pub trait OperationWalks: Sized {
    ghost use Rattle.irtext_graph.specs.declared.object.Object.{Object};

    // the root
    ghost object: { Self → Object };

    /// Returns the first operation in the root, in the order of the text, or `None` if there is none.
    fn first_operation<C: HasGraph>(self, ctx: &C) -> Option<Ptr<Operation>>
        requires { IsLive (C.graph ctx.now) (object self) }
        ensures first { operations_from (C.graph ctx.now) (object self) result ≡ operations_inside (C.graph ctx.now) (object self) }
        ensures all { AreOperationsIn (C.graph ctx.now) (object self) (operations_inside (C.graph ctx.now) (object self)) }
        ensures there { IsAtLive (C.graph ctx.now) (object self) (option_map TheOperation result) };

    /// Returns the operation in the root that comes after `at` in the order of the text, or `None` at the end. Those nested in `at` come
    /// first.
    fn next_operation<C: HasGraph>(self, ctx: &C, at: Ptr<Operation>) -> Option<Ptr<Operation>>
        requires { IsLiveInside (C.graph ctx.now) (object self) (TheOperation at) }
        ensures next { operations_from (C.graph ctx.now) (object self) (Some at)
            ≡ at ∷ operations_from (C.graph ctx.now) (object self) result }
        ensures there { IsAtLive (C.graph ctx.now) (object self) (option_map TheOperation result) };

    /// Returns the operation in the root that comes after `at` and all operations nested in it, in the order of the text, or `None` at the
    /// end.
    fn after_nested<C: HasGraph>(self, ctx: &C, at: Ptr<Operation>) -> Option<Ptr<Operation>>
        requires { IsLiveInside (C.graph ctx.now) (object self) (TheOperation at) }
        ensures next { operations_from (C.graph ctx.now) (object self) (Some at)
            ≡ operations_inside (C.graph ctx.now) (TheOperation at)
            ++ operations_from (C.graph ctx.now) (object self) result }
        ensures there { IsAtLive (C.graph ctx.now) (object self) (option_map TheOperation result) };

    /// Returns the first operation in the root in postorder, in which an operation comes after those nested in it; `None` if there is none.
    fn first_operation_in_postorder<C: HasGraph>(self, ctx: &C) -> Option<Ptr<Operation>>
        requires { IsLive (C.graph ctx.now) (object self) }
        ensures first { post_operations_from (C.graph ctx.now) (object self) result
            ≡ post_operations_inside (C.graph ctx.now) (object self) }
        ensures all { AreOperationsIn (C.graph ctx.now) (object self) (post_operations_inside (C.graph ctx.now) (object self)) }
        ensures there { IsAtLive (C.graph ctx.now) (object self) (option_map TheOperation result) };

    /// Returns the operation in the root that comes after `at` in postorder, or `None` at the end.
    fn next_operation_in_postorder<C: HasGraph>(
        self,
        ctx: &C,
        at: Ptr<Operation>,
    ) -> Option<Ptr<Operation>>
        requires { IsLiveInside (C.graph ctx.now) (object self) (TheOperation at) }
        ensures next { post_operations_from (C.graph ctx.now) (object self) (Some at)
            ≡ at ∷ post_operations_from (C.graph ctx.now) (object self) result }
        ensures there { IsAtLive (C.graph ctx.now) (object self) (option_map TheOperation result) };
}

/// Walks over the blocks in an object, at any depth, by the pointer of the object, the root. The root must be live in the graph. A block is in
/// itself. A walk is a loop that holds one pointer, and borrows nothing between its steps.
pub trait BlockWalks: Sized {
    ghost use Rattle.irtext_graph.specs.declared.object.Object.{Object};

    // the root
    ghost object: { Self → Object };

    /// Returns the first block in the root, in the order of the text, or `None` if there is none.
    fn first_block_inside<C: HasGraph>(self, ctx: &C) -> Option<Ptr<BasicBlock>>
        requires { IsLive (C.graph ctx.now) (object self) }
        ensures first { blocks_from (C.graph ctx.now) (object self) result ≡ blocks_inside (C.graph ctx.now) (object self) }
        ensures all { AreBlocksIn (C.graph ctx.now) (object self) (blocks_inside (C.graph ctx.now) (object self)) }
        ensures there { IsAtLive (C.graph ctx.now) (object self) (option_map TheBlock result) };

    /// Returns the block in the root that comes after `at` in the order of the text, or `None` at the end. Those nested in `at` come first.
    fn next_block_inside<C: HasGraph>(self, ctx: &C, at: Ptr<BasicBlock>) -> Option<Ptr<BasicBlock>>
        requires { IsLiveInside (C.graph ctx.now) (object self) (TheBlock at) }
        ensures next { blocks_from (C.graph ctx.now) (object self) (Some at)
            ≡ at ∷ blocks_from (C.graph ctx.now) (object self) result }
        ensures there { IsAtLive (C.graph ctx.now) (object self) (option_map TheBlock result) };

    /// Returns the block in the root that comes after `at` and all blocks nested in it, in the order of the text, or `None` at the end.
    fn block_after_nested<C: HasGraph>(
        self,
        ctx: &C,
        at: Ptr<BasicBlock>,
    ) -> Option<Ptr<BasicBlock>>
        requires { IsLiveInside (C.graph ctx.now) (object self) (TheBlock at) }
        ensures next { blocks_from (C.graph ctx.now) (object self) (Some at)
            ≡ blocks_inside (C.graph ctx.now) (TheBlock at) ++ blocks_from (C.graph ctx.now) (object self) result }
        ensures there { IsAtLive (C.graph ctx.now) (object self) (option_map TheBlock result) };

    /// Returns the first block in the root in postorder, in which a block comes after those nested in it; `None` if there is none.
    fn first_block_in_postorder<C: HasGraph>(self, ctx: &C) -> Option<Ptr<BasicBlock>>
        requires { IsLive (C.graph ctx.now) (object self) }
        ensures first { post_blocks_from (C.graph ctx.now) (object self) result
            ≡ post_blocks_inside (C.graph ctx.now) (object self) }
        ensures all { AreBlocksIn (C.graph ctx.now) (object self) (post_blocks_inside (C.graph ctx.now) (object self)) }
        ensures there { IsAtLive (C.graph ctx.now) (object self) (option_map TheBlock result) };

    /// Returns the block in the root that comes after `at` in postorder, or `None` at the end.
    fn next_block_in_postorder<C: HasGraph>(
        self,
        ctx: &C,
        at: Ptr<BasicBlock>,
    ) -> Option<Ptr<BasicBlock>>
        requires { IsLiveInside (C.graph ctx.now) (object self) (TheBlock at) }
        ensures next { post_blocks_from (C.graph ctx.now) (object self) (Some at)
            ≡ at ∷ post_blocks_from (C.graph ctx.now) (object self) result }
        ensures there { IsAtLive (C.graph ctx.now) (object self) (option_map TheBlock result) };
}

impl<K: Kind> OperationWalks for Ptr<K> {
    ghost object = { λ p. K.object p };

    fn first_operation<C: HasGraph>(self, ctx: &C) -> Option<Ptr<Operation>> {
        first_picked(ctx.graph(), K::object(self))
    }

    fn next_operation<C: HasGraph>(self, ctx: &C, at: Ptr<Operation>) -> Option<Ptr<Operation>> {
        next_picked(ctx.graph(), K::object(self), at)
    }

    fn after_nested<C: HasGraph>(self, ctx: &C, at: Ptr<Operation>) -> Option<Ptr<Operation>> {
        picked_after_nested(ctx.graph(), K::object(self), Object::TheOperation(at))
    }

    fn first_operation_in_postorder<C: HasGraph>(self, ctx: &C) -> Option<Ptr<Operation>> {
        first_picked_post(ctx.graph(), K::object(self))
    }

    fn next_operation_in_postorder<C: HasGraph>(
        self,
        ctx: &C,
        at: Ptr<Operation>,
    ) -> Option<Ptr<Operation>> {
        next_picked_post(ctx.graph(), K::object(self), at)
    }
}

impl<K: Kind> BlockWalks for Ptr<K> {
    ghost object = { λ p. K.object p };

    fn first_block_inside<C: HasGraph>(self, ctx: &C) -> Option<Ptr<BasicBlock>> {
        first_picked(ctx.graph(), K::object(self))
    }

    fn next_block_inside<C: HasGraph>(
        self,
        ctx: &C,
        at: Ptr<BasicBlock>,
    ) -> Option<Ptr<BasicBlock>> {
        next_picked(ctx.graph(), K::object(self), at)
    }

    fn block_after_nested<C: HasGraph>(
        self,
        ctx: &C,
        at: Ptr<BasicBlock>,
    ) -> Option<Ptr<BasicBlock>> {
        picked_after_nested(ctx.graph(), K::object(self), Object::TheBlock(at))
    }

    fn first_block_in_postorder<C: HasGraph>(self, ctx: &C) -> Option<Ptr<BasicBlock>> {
        first_picked_post(ctx.graph(), K::object(self))
    }

    fn next_block_in_postorder<C: HasGraph>(
        self,
        ctx: &C,
        at: Ptr<BasicBlock>,
    ) -> Option<Ptr<BasicBlock>> {
        next_picked_post(ctx.graph(), K::object(self), at)
    }
}
