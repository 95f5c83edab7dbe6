//! The uses of an operation's results, and the types of its operands, over a type that holds a graph: each call once.
use crate::tests::held::Holder;
use crate::tests::script::make_using;
use crate::tests::used::are;
use irtext_few::Few;
use irtext_graph::arena::Ptr;
use irtext_graph::object::{Object, Operation, Site, Value};
use irtext_graph_queries::operation::OperationParts;
use irtext_graph_queries::types::GraphTypes;
use std::process::Abort;

/// Whether the operation is live, and uses values of these types in this order.
fn has_operand_types(rt: &impl Abort, holder: &Holder, op: Ptr<Operation>, types: &[&u8]) -> bool {
    if !holder.graph.contains(Object::TheOperation(op)) {
        return false;
    }
    are(rt, op.operand_types(holder), types)
}

/// Whether the operation is live, and its results are used at these places and nowhere else, by each of the three calls.
fn has_uses(rt: &impl Abort, holder: &Holder, op: Ptr<Operation>, places: &[Site]) -> bool {
    if !holder.graph.contains(Object::TheOperation(op)) {
        return false;
    }
    let uses = op.uses(holder).expect(rt, "out of memory");
    let mut all = uses.len() == places.len();
    for place in places {
        all = all & uses.contains(place);
    }
    let count = op.num_uses(holder);
    all & (count == places.len()) & (op.has_use(holder) == (count > 0))
}

/// Whether the results of one operation are used by two others, which have operands of these types.
fn are_used(
    rt: &impl Abort,
    holder: &Holder,
    maker: Ptr<Operation>,
    one: Ptr<Operation>,
    two: Ptr<Operation>,
) -> bool {
    let places = [
        Site::AtOperand(one, 0),
        Site::AtOperand(one, 1),
        Site::AtOperand(one, 2),
        Site::AtOperand(two, 0),
    ];
    let used = has_uses(rt, holder, maker, &places) & has_uses(rt, holder, one, &[]);
    let typed = has_operand_types(rt, holder, one, &[&7, &8, &7])
        & has_operand_types(rt, holder, two, &[&8])
        & has_operand_types(rt, holder, maker, &[]);
    used & typed
}

/// Two results, the first used twice by one operation, and the second once by that and once by another.
pub(crate) fn uses_of_results(rt: &impl Abort, holder: &mut Holder) -> bool {
    let graph = &mut holder.graph;
    let maker = make_using(rt, graph, 0, Few::two(7, 8), &[], &[]);
    let unused = has_uses(rt, holder, maker, &[]);
    let (first, second) = (Value::Result(maker, 0), Value::Result(maker, 1));
    let graph = &mut holder.graph;
    let one = make_using(rt, graph, 0, Few::none(), &[first, second, first], &[]);
    let two = make_using(rt, graph, 0, Few::none(), &[second], &[]);
    are_used(rt, holder, maker, one, two) & unused
}
