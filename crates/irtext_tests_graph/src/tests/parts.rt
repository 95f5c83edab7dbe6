//! The view of one object: data, operands, successors, results and arguments.
use crate::tests::checks::Numbers;
use irtext_graph::arena::Ptr;
use irtext_graph::object::{BasicBlock, Object, Operation, Value};

/// Whether the value is live, with this type and this number.
pub(crate) fn is_value(graph: &Numbers, v: Value, of_type: u8, number: u64) -> bool {
    graph.contains_value(v) && *graph.type_of(v) == of_type && graph.number_of(v) == number
}

/// Whether the object is live, with this data and so many results or arguments; a region has none.
pub(crate) fn has_own(graph: &Numbers, object: Object, value: u32, count: usize) -> bool {
    if !graph.contains(object) {
        return false;
    }
    match object {
        Object::TheOperation(p) => *graph.operation(p) == value && graph.num_results(p) == count,
        Object::TheBlock(b) => *graph.block(b) == value && graph.num_arguments(b) == count,
        Object::TheRegion(_) => count == 0,
    }
}

/// Writes the data of an object, if it is live and no region, and returns whether it is.
pub(crate) fn writes(graph: &mut Numbers, object: Object, value: u32) -> bool {
    if !graph.contains(object) {
        return false;
    }
    match object {
        Object::TheOperation(p) => *graph.operation_mut(p) = value,
        Object::TheBlock(b) => *graph.block_mut(b) = value,
        Object::TheRegion(_) => return false,
    }
    true
}

/// Whether the operation is live, and uses these values and these blocks.
pub(crate) fn uses(
    graph: &Numbers,
    op: Ptr<Operation>,
    operands: &[Value],
    successors: &[Ptr<BasicBlock>],
) -> bool {
    if !graph.contains(Object::TheOperation(op)) {
        return false;
    }
    if graph.num_operands(op) != operands.len() || graph.num_successors(op) != successors.len() {
        return false;
    }
    let mut all = true;
    for (i, v) in operands.iter().enumerate() {
        all = all & (graph.get_operand(op, i) == *v);
    }
    for (i, b) in successors.iter().enumerate() {
        all = all & (graph.get_successor(op, i) == *b);
    }
    all
}
