//! The objects of a context: how they are made, kept and erased.
ghost use Rattle.std.specs.Prelude.{◌≤◌, ℕ};
ghost use Rattle.irtext_context.specs.Context.{KeepsOlder};

use crate::tests::checks::{Check, alone, counting};
use crate::tests::must::{must, same};
use irtext_base::location::Location;
use irtext_context::base::context::making::Making;
use irtext_context::base::{AttributeDict, Operation, OperationAccess, Ptr, Region};
use irtext_graph::graph::Graph;
use irtext_graph::held::HasGraph;
use irtext_graph::object::Object;
use irtext_memory::NoRoom;
use irtext_tests_common::building::id;
use irtext_tests_common::contexts::Ctx;
use std::alloc::Global;
use std::process::Abort;

/// Makes a module without attributes, if there is a place for it.
fn try_make(rt: &impl Abort, alloc: Global, ctx: &mut Ctx) -> Result<Ptr<Operation>, NoRoom>
    ensures kept { (mark : ℕ) → mark ≤ ctx.old.graph.made → KeepsOlder mark ctx.old ctx.new }
{
    let id = must(rt, id(alloc, ("builtin", "module")));
    ctx.make_operation(id, AttributeDict::new(alloc), Location::Unknown)
}

/// Makes a module without attributes.
fn make(rt: &impl Abort, alloc: Global, ctx: &mut Ctx) -> Ptr<Operation>
    ensures kept { (mark : ℕ) → mark ≤ ctx.old.graph.made → KeepsOlder mark ctx.old ctx.new }
{
    try_make(rt, alloc, ctx).expect(rt, "out of memory")
}

/// The text of a module without attributes: its id, its regions, and whether its location is unknown.
fn shown(rt: &impl Abort, alloc: Global, ctx: &Ctx, op: Ptr<Operation>) -> String {
    assert!(rt; ctx.contains_operation(op));
    assert!(rt; op.attributes(ctx).len() == 0);
    let unknown = op.loc(ctx).is_unknown();
    let regions = ctx.graph().num_children(Object::TheOperation(op));
    format!(in alloc; "{} {regions} {unknown}", op.get_opid(ctx)).expect(rt, "out of memory")
}

/// Makes an operation, counts the live objects, and rolls back.
fn passes(rt: &impl Abort, alloc: Global, ctx: &mut Ctx) -> (Ptr<Operation>, u64) {
    let made = ctx.made();
    let op = make(rt, alloc, ctx);
    let live = ctx.num_live();
    ctx.roll_back(made);
    (op, live)
}

/// Whether a region is in an operation.
fn is_in<O: Drop, B: Drop, T: Drop>(
    graph: &Graph<O, B, T>,
    region: Ptr<Region>,
    op: Ptr<Operation>,
) -> bool {
    let region = Object::TheRegion(region);
    graph.contains(region) && graph.get_parent(region) == Some(Object::TheOperation(op))
}

/// Makes a module with a region, and another after a mark to which the context is then rolled back; checks what is live.
pub(crate) fn rolls_back(rt: &impl Abort, alloc: Global, ctx: &mut Ctx) {
    let first = make(rt, alloc, ctx);
    assert!(rt; ctx.contains_operation(first));
    let region = ctx.add_region(first).expect(rt, "out of memory");
    assert!(rt; is_in(ctx.graph(), region, first));
    let (second, before) = passes(rt, alloc, ctx);
    assert!(rt; is_in(ctx.graph(), region, first) & !ctx.contains_operation(second));
    assert!(rt; (before == 3) & (ctx.num_live() == 2));
    let third = make(rt, alloc, ctx);
    assert!(rt; (second.place() == 2) & (third.place() == 2) & (third.generation() == 2));
    same(rt, shown(rt, alloc, ctx, first), "builtin.module 1 true");
}

#[test]
fn objects_are_made_kept_and_given_back(rt: HostRuntime) {
    alone(&rt, rt.alloc(), Check::Objects);
}

/// Checks that one operation is made, and not another one.
pub(crate) fn fill(rt: &impl Abort, alloc: Global, ctx: &mut Ctx) {
    assert!(rt; try_make(rt, alloc, ctx).is_ok());
    assert!(rt; try_make(rt, alloc, ctx).is_err());
    assert!(rt; ctx.num_live() == 1);
}

#[test]
fn places_end_below_the_greatest_number(rt: HostRuntime) {
    counting(&rt, rt.alloc(), 0, u32::MAX - 1, Check::LastPlaces);
}
