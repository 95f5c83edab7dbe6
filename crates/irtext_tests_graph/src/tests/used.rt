//! The calls on pointers and values that return uses, and those that return lists, over a type that holds a graph: each once.
ghost use Rattle.std.specs.Prelude.{IsTrue};
ghost use Rattle.irtext_graph.specs.Graph.{IsLive};
ghost use Rattle.irtext_graph.specs.declared.object.Object.TheVariants.{TheOperation, TheBlock, TheRegion};

use crate::tests::checks::Numbers;
use crate::tests::held::Holder;
use crate::tests::nesting::{make_operation, put};
use crate::tests::script::make_using;
use irtext_few::Few;
use irtext_graph::arena::Ptr;
use irtext_graph::object::{BasicBlock, Object, Operation, Region, Site, Value};
use irtext_graph_queries::ancestors::Ancestors;
use irtext_graph_queries::block::BlockParts;
use irtext_graph_queries::edits::ObjectEdits;
use irtext_graph_queries::operation::OperationParts;
use irtext_graph_queries::region::RegionParts;
use irtext_graph_queries::types::GraphTypes;
use irtext_graph_queries::value::{UseSite, ValueUses};
use irtext_memory::OutOfMemory;
use std::process::Abort;

/// An operation with a region of two blocks, the first of which has two arguments and two operations: one with two results, and
/// one that uses the first of these twice, an argument, and the second block.
#[derive(Clone, Copy)]
struct Scene {
    root: Ptr<Operation>,
    region: Ptr<Region>,
    first: Ptr<BasicBlock>,
    second: Ptr<BasicBlock>,
    maker: Ptr<Operation>,
    user: Ptr<Operation>,
}

/// An operation that uses the first result of another twice, an argument of a block, and a block.
fn make_user(
    rt: &impl Abort,
    graph: &mut Numbers,
    maker: Ptr<Operation>,
    first: Ptr<BasicBlock>,
    second: Ptr<BasicBlock>,
) -> Ptr<Operation> {
    let result = Value::Result(maker, 0);
    let argument = Value::Argument(first, 1);
    make_using(
        rt,
        graph,
        3,
        Few::none(),
        &[result, argument, result],
        &[second],
    )
}

/// Makes all of a scene and puts it together.
fn make_scene(rt: &impl Abort, graph: &mut Numbers) -> Scene {
    let root = make_operation(rt, graph, 1);
    let region = graph.make_region().expect(rt, "out of memory");
    let first = graph
        .make_block(4, Few::two(10, 11))
        .expect(rt, "out of memory");
    let second = graph.make_block(5, Few::none()).expect(rt, "out of memory");
    let maker = graph
        .make_operation(2, Few::two(12, 13), &[], &[])
        .expect(rt, "out of memory");
    let user = make_user(rt, graph, maker, first, second);
    let scene = Scene {
        root,
        region,
        first,
        second,
        maker,
        user,
    };
    put_together(rt, graph, scene);
    scene
}

/// Puts the objects of a scene into one another.
fn put_together(rt: &impl Abort, graph: &mut Numbers, s: Scene) {
    let (region, first) = (Object::TheRegion(s.region), Object::TheBlock(s.first));
    put(
        rt,
        graph,
        Object::TheOperation(s.root),
        Object::TheRegion(s.region),
    );
    put(rt, graph, region, Object::TheBlock(s.first));
    put(rt, graph, region, Object::TheBlock(s.second));
    put(rt, graph, first, Object::TheOperation(s.maker));
    put(rt, graph, first, Object::TheOperation(s.user));
}

/// Whether all of a scene is live.
fn alive(holder: &Holder, s: Scene) -> bool
    ensures root { IsTrue result → IsLive holder.now.graph (TheOperation s.root) }
    ensures region { IsTrue result → IsLive holder.now.graph (TheRegion s.region) }
    ensures first { IsTrue result → IsLive holder.now.graph (TheBlock s.first) }
    ensures second { IsTrue result → IsLive holder.now.graph (TheBlock s.second) }
    ensures maker { IsTrue result → IsLive holder.now.graph (TheOperation s.maker) }
    ensures user { IsTrue result → IsLive holder.now.graph (TheOperation s.user) }
{
    let graph = &holder.graph;
    graph.contains(Object::TheOperation(s.root))
        && graph.contains(Object::TheRegion(s.region))
        && graph.contains(Object::TheBlock(s.first))
        && graph.contains(Object::TheBlock(s.second))
        && graph.contains(Object::TheOperation(s.maker))
        && graph.contains(Object::TheOperation(s.user))
}

/// Whether these are the items of a list.
pub(crate) fn are<X: PartialEq + Drop>(
    rt: &impl Abort,
    list: Result<Vec<X>, OutOfMemory>,
    items: &[X],
) -> bool {
    list.expect(rt, "out of memory").as_slice() == items
}

/// The children of each object, as lists.
fn lists_children(rt: &impl Abort, holder: &Holder, s: Scene) -> bool {
    if !alive(holder, s) {
        return false;
    }
    let regions = are(rt, s.root.regions(holder), &[s.region]);
    let blocks = are(rt, s.region.blocks(holder), &[s.first, s.second]);
    let operations = are(rt, s.first.operations(holder), &[s.maker, s.user]);
    let entry = s.region.get_entry_block(holder) == Some(s.first);
    entry & regions & blocks & operations
}

/// The index of an object in its parent, if it is in one.
fn index_of(holder: &Holder, o: Object) -> Option<usize> {
    if !holder.graph.contains(o) || holder.graph.get_parent(o).is_none() {
        return None;
    }
    Some(match o {
        Object::TheRegion(region) => region.find_index_in_parent(holder),
        Object::TheBlock(block) => block.find_index_in_parent(holder),
        Object::TheOperation(op) => op.find_index_in_parent(holder),
    })
}

/// The object so many levels around another, if that one is live.
fn live_ancestor(holder: &Holder, o: Object, levels: usize) -> Option<Object> {
    if !holder.graph.contains(o) {
        return None;
    }
    holder.graph.ancestor(o, levels)
}

/// The index of each object, and the objects around it.
fn finds(holder: &Holder, s: Scene) -> bool {
    let (user, root) = (Object::TheOperation(s.user), Object::TheOperation(s.root));
    let indices = [
        index_of(holder, Object::TheRegion(s.region)),
        index_of(holder, Object::TheBlock(s.second)),
        index_of(holder, user),
        index_of(holder, root),
    ];
    let around = [
        live_ancestor(holder, user, 3),
        live_ancestor(holder, user, 4),
    ];
    (indices.as_slice() == [Some(0), Some(1), Some(1), None].as_slice())
        & (around.as_slice() == [Some(root), None].as_slice())
}

/// The operands and the successors, one by one and as lists.
fn lists_uses(rt: &impl Abort, holder: &Holder, s: Scene) -> bool {
    if !alive(holder, s) {
        return false;
    }
    let result = Value::Result(s.maker, 0);
    let argument = Value::Argument(s.first, 1);
    let operands = are(rt, s.user.operands(holder), &[result, argument, result]);
    let successors = are(rt, s.user.successors(holder), &[s.second]);
    if s.user.get_num_operands(holder) != 3 || s.user.get_num_successors(holder) != 1 {
        return false;
    }
    (s.user.get_operand(holder, 2) == result)
        & (s.user.get_successor(holder, 0) == s.second)
        & operands
        & successors
}

/// The results with their types, one by one and as lists.
fn lists_results(rt: &impl Abort, holder: &Holder, s: Scene) -> bool {
    if !alive(holder, s) || s.maker.get_num_results(holder) != 2 {
        return false;
    }
    let second = s.maker.get_result(holder, 1);
    let typed = *holder.graph.type_of(second) == 13;
    are(
        rt,
        s.maker.results(holder),
        &[Value::Result(s.maker, 0), second],
    ) & are(rt, s.maker.result_types(holder), &[&12, &13])
        & typed
}

/// The arguments, one by one and as a list, and the predecessors of a block.
fn lists_arguments(rt: &impl Abort, holder: &Holder, s: Scene) -> bool {
    if !alive(holder, s) || s.first.get_num_arguments(holder) != 2 {
        return false;
    }
    let one = s.first.get_argument(holder, 0);
    let arguments = are(
        rt,
        s.first.arguments(holder),
        &[one, Value::Argument(s.first, 1)],
    );
    let preds = are(rt, s.second.preds(holder), &[s.first]);
    let counted = s.second.has_pred(holder)
        & (s.second.num_preds(holder) == 1)
        & !s.first.has_pred(holder);
    counted & preds & arguments
}

/// Whether these uses are by one operation.
fn are_by(uses: &[Site], user: Ptr<Operation>) -> bool {
    for u in uses {
        if u.user() != user {
            return false;
        }
    }
    true
}

/// Whether a value is live and has so many uses, all by one operation.
fn is_used(rt: &impl Abort, holder: &Holder, v: Value, count: usize, user: Ptr<Operation>) -> bool {
    if !holder.graph.contains_value(v) {
        return false;
    }
    let counted = v.num_uses(holder) == count && v.has_use(holder) == (count > 0);
    let uses = v.uses(holder).expect(rt, "out of memory");
    counted && uses.len() == count && are_by(&uses, user)
}

/// Whether one value has so many uses, and another so many, all by one operation.
fn are_used(
    rt: &impl Abort,
    holder: &Holder,
    one: (Value, usize),
    two: (Value, usize),
    user: Ptr<Operation>,
) -> bool {
    let first = is_used(rt, holder, one.0, one.1, user);
    is_used(rt, holder, two.0, two.1, user) & first
}

/// Replaces one value by another, if both are live.
fn replace(holder: &mut Holder, v: Value, w: Value) -> bool {
    if !holder.graph.contains_value(v) || !holder.graph.contains_value(w) {
        return false;
    }
    v.replace_all_uses(holder, w);
    true
}

/// The uses of a result before and after the other replaces it.
fn changes_hands(rt: &impl Abort, holder: &mut Holder, s: Scene) -> bool {
    let (one, two) = (Value::Result(s.maker, 0), Value::Result(s.maker, 1));
    let before = are_used(rt, holder, (one, 2), (two, 0), s.user);
    let done = replace(holder, one, two);
    let after = are_used(rt, holder, (one, 0), (two, 2), s.user);
    before & done & after
}

/// Erases an operation if that is allowed, and returns whether it was.
fn erases(holder: &mut Holder, op: Ptr<Operation>) -> bool {
    if !holder.graph.contains(Object::TheOperation(op)) || !op.can_erase(holder) {
        return false;
    }
    op.erase(holder);
    true
}

/// An object that is used cannot be erased before its uses are dropped; then everything is erased.
fn goes(holder: &mut Holder, s: Scene) -> bool {
    let early = erases(holder, s.maker);
    if holder.graph.contains(Object::TheOperation(s.user)) {
        s.user.drop_all_uses(holder);
    }
    let late = erases(holder, s.maker);
    let root = erases(holder, s.root);
    !early & late & root & (holder.graph.num_live() == 0)
}

/// All lists.
fn lists_all(rt: &impl Abort, holder: &Holder, s: Scene) -> bool {
    let parts = lists_uses(rt, holder, s) & lists_results(rt, holder, s);
    lists_children(rt, holder, s) & lists_arguments(rt, holder, s) & parts
}

/// All of it, over one scene.
pub(crate) fn uses_and_lists(rt: &impl Abort, holder: &mut Holder) -> bool {
    let s = make_scene(rt, &mut holder.graph);
    let listed = lists_all(rt, holder, s) & finds(holder, s);
    let changed = changes_hands(rt, holder, s);
    goes(holder, s) & listed & changed
}
