//! Erasing the locations of operations and blocks.
ghost use Rattle.std.specs.Prelude.{◌≡◌, ℕ, None, IsSome, option_map};
ghost use Rattle.irtext_base.specs.declared.location.Location.{Unknown};
ghost use Rattle.irtext_graph.specs.Graph.{IsLive};
ghost use Rattle.irtext_graph.specs.Throughout.{EditsObject, EditsInside, HoldsNoBlocks, IsNewInside};
ghost use Rattle.irtext_graph.specs.declared.object.Object.TheVariants.{TheOperation};
ghost use Rattle.irtext_context.specs.Context.{operation, with_loc, with_block_loc, EditsOperation, KeepsOlder};
ghost use Rattle.irtext_context.specs.Locations.{ErasesLocations};

use crate::base::{BlockData, Context, Operation, OperationData, Ptr};
use irtext_base::location::Location;
use irtext_base::text::{AttrText, IrText};
use irtext_graph::graph::Graph;
use irtext_graph::object::Object;

/// Sets the location of an operation that is no placeholder, or of a block, to `Unknown`. Does nothing to a region, which has no
/// location.
fn erase_object<T: IrText<A>, A: AttrText<A>>(
    graph: &mut Graph<Option<OperationData<A>>, BlockData<A>, Option<T>>,
    o: Object,
)
    requires { IsLive graph.old o }
    ensures { EditsObject graph.old graph.new o (option_map (with_loc Unknown)) (with_block_loc Unknown) }
{
    match o {
        Object::TheOperation(p) => erase_held(graph.operation_mut(p)),
        Object::TheBlock(p) => graph.block_mut(p).loc = Location::Unknown,
        Object::TheRegion(_) => (),
    }
}

/// Sets the location in an operation's data to `Unknown`. A placeholder has no data.
fn erase_held<A: AttrText<A>>(held: &mut Option<OperationData<A>>)
    ensures { held.new ≡ option_map (with_loc Unknown) held.old }
{
    if let Some(held) = held {
        held.loc = Location::Unknown;
    }
}

/// Sets the locations of an object and of all operations and blocks nested in it to `Unknown`.
fn erase_inside<T: IrText<A>, A: AttrText<A>>(
    graph: &mut Graph<Option<OperationData<A>>, BlockData<A>, Option<T>>,
    o: Object,
)
    requires { IsLive graph.old o }
    ensures { EditsInside graph.old graph.new o (option_map (with_loc Unknown)) (with_block_loc Unknown) }
{
    graph.keeps_nesting();
    let mut at = Some(o);
    while let Some(q) = at {
        at = graph.next_inside(o, q);
        erase_object(graph, q);
    }
}

/// Sets the locations of an operation and of all operations and blocks nested in it, at any depth, to `Unknown`. Nothing else changes. If
/// no block is nested in the operation, only the operation changes. It allocates nothing and does not recurse.
pub fn erase_locations<T: IrText<A>, A: AttrText<A>>(ctx: &mut Context<T, A>, op: Ptr<Operation>)
    requires { IsSome (operation ctx.old op) }
    ensures erased { ErasesLocations ctx.old ctx.new op }
    ensures alone { HoldsNoBlocks ctx.old.graph (TheOperation op) → EditsOperation ctx.old ctx.new op
        (with_loc Unknown) }
    ensures kept { (mark : ℕ) → IsNewInside mark ctx.old.graph (TheOperation op)
        → KeepsOlder mark ctx.old ctx.new }
{
    ctx.graph.keeps_nesting();
    erase_inside(&mut ctx.graph, Object::TheOperation(op));
}
