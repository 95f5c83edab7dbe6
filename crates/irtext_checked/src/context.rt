//! Properties that every context has, because the types of its parts ensure them. The functions here have no effect: each looks at the
//! parts, so that the checker knows the properties of their values. They allocate nothing and do not recurse over nested regions.
ghost use Rattle.std.specs.Prelude.{◌≡◌, ◌<◌, ◌^◌, ℕ, Some, IsSome, IfSome, length};
ghost use Rattle.irtext_base.specs.Own.{texts_of};
ghost use Rattle.irtext_context.specs.Context.{OperationView, BlockView, operation, block};
ghost use Rattle.irtext_graph.specs.Places.{pointer_at};
ghost use Rattle.irtext_graph.specs.declared.arena.Ptr.{Ptr};
ghost use Rattle.irtext_graph.specs.declared.object.Operation.{Operation};
ghost use Rattle.irtext_grammar.specs.Contexts.Formats.{isolated};
ghost use Rattle.irtext_grammar.specs.Contexts.Nested.{printing_over, seen_root};
ghost use Rattle.irtext_grammar.specs.Graphs.Graph as seen;
ghost use Rattle.irtext_grammar.specs.ContextParts.{KeepsCounters, KeepsOperationAt, KeepsBlockAt, IsKeptBlock, KeepsAll};
ghost use Rattle.irtext_grammar.specs.RootParts.{KeptRoot};
ghost use Rattle.irtext_grammar.specs.Promises.KeptRoot.{IsKept};
ghost use Rattle.irtext_tokens.specs.AttrTexts.{attr_at};

use crate::parts::{entries_kept, id_kept, label_kept, location_kept};
use irtext_base::text::{AttrText, IrText};
use irtext_context::base::{BasicBlock, BlockAccess, Context, Operation, OperationAccess, Ptr};
use irtext_graph::graph::Graph;
use irtext_graph::held::HasGraph;

/// The parts of an operation have the properties that their types ensure.
fn operation_kept<T: IrText<A>, A: AttrText<A>>(ctx: &Context<T, A>, op: Ptr<Operation>)
    requires live { IsSome (operation ctx.now op) }
    ensures kept { (view : OperationView T A) → operation ctx.now op ≡ Some view → IsKept ctx.now view }
{
    let id = op.get_opid(ctx);
    let attributes = op.attributes(ctx);
    id_kept(id);
    let _info = ctx.op_info(id);
    entries_kept(attributes);
    attributes.keeps_keys();
    location_kept(op.loc(ctx), ctx);
}

/// The same of the operation at a place of the arena, if there is one and it is no placeholder.
fn operation_kept_at<T: IrText<A>, A: AttrText<A>>(ctx: &Context<T, A>, place: u32)
    ensures { KeepsOperationAt ctx.now place }
{
    if let Some(op) = ctx.graph().operation_in(place) {
        if ctx.contains_operation(op) {
            operation_kept(ctx, op);
        }
    }
}

/// The parts of a block have the properties that their types ensure.
fn block_kept<T: IrText<A>, A: AttrText<A>>(ctx: &Context<T, A>, at: Ptr<BasicBlock>)
    requires live { IsSome (block ctx.now at) }
    ensures kept { (view : BlockView T A) → block ctx.now at ≡ Some view → IsKeptBlock ctx.now view }
{
    let attributes = at.attributes(ctx);
    label_kept(at.label(ctx));
    entries_kept(attributes);
    attributes.keeps_keys();
    location_kept(at.loc(ctx), ctx);
}

/// The place and the generation of a pointer fit 32 bits.
fn pointer_kept(at: Ptr<BasicBlock>)
    ensures place { at.index < 2 ^ 32 }
    ensures generation { at.generation < 2 ^ 32 }
{
    let _place = at.place();
    let _generation = at.generation();
}

/// The same of the block at a place of the arena, if there is one.
fn block_kept_at<T: IrText<A>, A: AttrText<A>>(ctx: &Context<T, A>, place: u32)
    ensures { KeepsBlockAt ctx.now place }
{
    if let Some(at) = ctx.graph().block_in(place) {
        pointer_kept(at);
        if ctx.contains_block(at) {
            block_kept(ctx, at);
        }
    }
}

/// The parts of all operations of a context have the properties that their types ensure.
fn operations_kept<T: IrText<A>, A: AttrText<A>>(ctx: &Context<T, A>)
    ensures { (place : ℕ) → place < length ctx.now.graph.operations.cells → KeepsOperationAt ctx.now place }
{
    let count = ctx.graph().operation_places();
    for place in 0..count {
        operation_kept_at(ctx, place);
    }
}

/// The same of all blocks of a context.
fn blocks_kept<T: IrText<A>, A: AttrText<A>>(ctx: &Context<T, A>)
    ensures { (place : ℕ) → place < length ctx.now.graph.blocks.cells → KeepsBlockAt ctx.now place }
{
    let count = ctx.graph().block_places();
    for place in 0..count {
        block_kept_at(ctx, place);
    }
}

/// The counters of a graph fit their types, parents and children agree, what is used is live, and no two values have the same number.
fn counters_kept<O: Drop, B: Drop, T: Drop>(graph: &Graph<O, B, T>)
    ensures { KeepsCounters graph.now }
{
    let _number = graph.next_number();
    let _place = graph.first_place();
    graph.keeps_numbers();
    graph.keeps_nesting();
}

/// All properties that the types of its parts ensure of a context.
fn all_kept<T: IrText<A>, A: AttrText<A>>(ctx: &Context<T, A>)
    ensures { KeepsAll ctx.now }
{
    counters_kept(ctx.graph());
    operations_kept(ctx);
    blocks_kept(ctx);
}

/// Ensures that every root of a context has what the laws of the round trip require besides being closed: its names are identifiers, its
/// numbers and places fit, its locations can be parsed back, its dictionaries follow the rule of the reserved keys, and its values and
/// blocks are distinct. Also ensures the other properties of `KeepsAll`. Visits all places of the arenas for operations and blocks;
/// allocates nothing.
pub fn keeps_parts<T: IrText<A>, A: AttrText<A>>(ctx: &Context<T, A>)
    ensures all { KeepsAll ctx.now }
    ensures kept { (p : Ptr Operation) (g : seen.Graph T A) → seen_root A.written ctx.now p ≡ Some g →
        KeptRoot (attr_at A.reading) A.written (printing_over ctx.now A.outlined A.print_once A.eq)
        (isolated ctx.now.dialects) g }
{
    all_kept(ctx);
}
