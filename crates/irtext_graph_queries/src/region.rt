//! The blocks of a region.
ghost use Rattle.std.specs.Prelude.{◌≡◌, ◌<◌, Some, IfOk, length, slice_get};
ghost use Rattle.irtext_graph.specs.declared.object.Object.TheVariants.{TheRegion};
ghost use Rattle.irtext_graph.specs.Graph.{IsLive};
ghost use Rattle.irtext_graph.specs.Parts.{blocks};

use crate::listed::listed;
use irtext_graph::arena::Ptr;
use irtext_graph::held::HasGraph;
use irtext_graph::object::{BasicBlock, Object, Region};
use irtext_memory::OutOfMemory;

/// The blocks of a region, by the region's pointer, in any holder of a graph. The region must be live in the graph.
pub trait RegionParts: Sized {
    ghost use Rattle.irtext_graph.specs.declared.arena.Ptr.{Ptr};
    ghost use Rattle.irtext_graph.specs.declared.object.Region.{Region};

    // the pointer
    ghost pointer: { Self → Ptr Region };

    /// Returns the number of blocks in the region.
    fn num_blocks<C: HasGraph>(self, ctx: &C) -> usize
        requires { IsLive (C.graph ctx.now) (TheRegion (pointer self)) }
        ensures { result ≡ length (blocks (C.graph ctx.now) (pointer self)) };

    /// Returns the block of the region at an index, which must be below their number.
    fn get_block<C: HasGraph>(self, ctx: &C, index: usize) -> Ptr<BasicBlock>
        requires { index < length (blocks (C.graph ctx.now) (pointer self)) }
        ensures { slice_get (blocks (C.graph ctx.now) (pointer self)) index ≡ Some result };

    /// Returns the blocks of the region, in order. Fails only when out of memory.
    fn blocks<C: HasGraph>(self, ctx: &C) -> Result<Vec<Ptr<BasicBlock>>, OutOfMemory>
        requires { IsLive (C.graph ctx.now) (TheRegion (pointer self)) }
        ensures { IfOk result (λ all. all.items ≡ blocks (C.graph ctx.now) (pointer self)) };

    /// Returns the first block of the region, or `None` if it has no block.
    fn get_entry_block<C: HasGraph>(self, ctx: &C) -> Option<Ptr<BasicBlock>>
        requires { IsLive (C.graph ctx.now) (TheRegion (pointer self)) }
        ensures { result ≡ slice_get (blocks (C.graph ctx.now) (pointer self)) 0 };
}

/// Returns the block of a region at an index.
fn block_at<C: HasGraph>(region: Ptr<Region>, ctx: &C, index: usize) -> Ptr<BasicBlock>
    requires { index < length (blocks (C.graph ctx.now) region) }
    ensures { slice_get (blocks (C.graph ctx.now) region) index ≡ Some result }
{
    match ctx.graph().get_child(Object::TheRegion(region), index) {
        Object::TheBlock(child) => child,
        _ => unreachable!(),
    }
}

impl RegionParts for Ptr<Region> {
    ghost pointer = { λ p. p };

    fn num_blocks<C: HasGraph>(self, ctx: &C) -> usize {
        ctx.graph().num_children(Object::TheRegion(self))
    }

    fn get_block<C: HasGraph>(self, ctx: &C, index: usize) -> Ptr<BasicBlock> {
        block_at(self, ctx, index)
    }

    fn blocks<C: HasGraph>(self, ctx: &C) -> Result<Vec<Ptr<BasicBlock>>, OutOfMemory> {
        let alloc = ctx.graph().allocator();
        let count = self.num_blocks(ctx);
        listed(alloc, self, ctx, count, block_at)
    }

    fn get_entry_block<C: HasGraph>(self, ctx: &C) -> Option<Ptr<BasicBlock>> {
        if self.num_blocks(ctx) == 0 {
            return None;
        }
        Some(self.get_block(ctx, 0))
    }
}
