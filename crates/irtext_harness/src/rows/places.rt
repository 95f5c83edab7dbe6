//! Places in a root: a path is a list of indices, of a region, a block, an operation, a region and so on, with dots between them.
use irtext_graph::graph::Graph;
use irtext_graph::object::Object;
use pliron_text::base::{BasicBlock, Operation, Ptr, Region, Value};
use std::test::Fail;

/// The number of a word.
pub(crate) fn number(word: &str) -> Result<usize, Fail> {
    match word.parse::<usize>() {
        Ok(number) => Ok(number),
        Err(_) => Err(Fail::from("no number")),
    }
}

/// How many regions an operation has, blocks a region, or operations a block.
pub(crate) fn num_parts<O: Drop, B: Drop, T: Drop>(
    graph: &Graph<O, B, T>,
    whole: Object,
) -> Result<usize, Fail> {
    if !graph.contains(whole) {
        return Err(Fail::from("no such object"));
    }
    Ok(graph.num_children(whole))
}

/// Says whether a region is the last of an operation.
pub(crate) fn place_of<O: Drop, B: Drop, T: Drop>(
    graph: &Graph<O, B, T>,
    op: Ptr<Operation>,
    region: Ptr<Region>,
) -> &'static str {
    let whole = Object::TheOperation(op);
    if !graph.contains(whole) {
        return "nowhere";
    }
    let last = graph.num_children(whole).saturating_sub(1);
    if last < graph.num_children(whole)
        && graph.get_child(whole, last) == Object::TheRegion(region)
    {
        "last"
    } else {
        "elsewhere"
    }
}

/// The part of an index: the region of an operation, the block of a region, or the operation of a block.
fn part<O: Drop, B: Drop, T: Drop>(
    graph: &Graph<O, B, T>,
    whole: Object,
    index: usize,
) -> Result<Object, Fail> {
    if !graph.contains(whole) || index >= graph.num_children(whole) {
        return Err(Fail::from("no such part"));
    }
    Ok(graph.get_child(whole, index))
}

/// What a path from a root leads to.
pub(crate) fn at<O: Drop, B: Drop, T: Drop>(
    graph: &Graph<O, B, T>,
    root: Ptr<Operation>,
    path: &str,
) -> Result<Object, Fail> {
    let mut found = Object::TheOperation(root);
    for word in path.split('.') {
        if !word.is_empty() {
            found = part(graph, found, number(word)?)?;
        }
    }
    Ok(found)
}

/// The operation at a path.
pub(crate) fn operation_at<O: Drop, B: Drop, T: Drop>(
    graph: &Graph<O, B, T>,
    root: Ptr<Operation>,
    path: &str,
) -> Result<Ptr<Operation>, Fail> {
    match at(graph, root, path)? {
        Object::TheOperation(op) => Ok(op),
        _ => Err(Fail::from("this is no path of an operation")),
    }
}

/// The value of an index: a result of the operation at a path, or an argument of the block there.
pub(crate) fn value_at<O: Drop, B: Drop, T: Drop>(
    graph: &Graph<O, B, T>,
    root: Ptr<Operation>,
    path: &str,
    index: usize,
) -> Result<Value, Fail> {
    match at(graph, root, path)? {
        Object::TheOperation(op) => Ok(Value::Result(op, index)),
        Object::TheBlock(block) => Ok(Value::Argument(block, index)),
        Object::TheRegion(_) => Err(Fail::from("a region has no values")),
    }
}

/// The operand of an index.
pub(crate) fn operand<O: Drop, B: Drop, T: Drop>(
    graph: &Graph<O, B, T>,
    op: Ptr<Operation>,
    index: usize,
) -> Result<Value, Fail> {
    if !graph.contains(Object::TheOperation(op)) || index >= graph.num_operands(op) {
        return Err(Fail::from("no such operand"));
    }
    Ok(graph.get_operand(op, index))
}

/// The successor of an index.
pub(crate) fn successor<O: Drop, B: Drop, T: Drop>(
    graph: &Graph<O, B, T>,
    op: Ptr<Operation>,
    index: usize,
) -> Result<Ptr<BasicBlock>, Fail> {
    if !graph.contains(Object::TheOperation(op)) || index >= graph.num_successors(op) {
        return Err(Fail::from("no such successor"));
    }
    Ok(graph.get_successor(op, index))
}
