//! Calls on graphs.

use irtext_few::Few;
use irtext_graph::graph::Graph;
use irtext_graph::object::{Defined, Object, Value};
use std::alloc::{AllocError, Global};

type Measured = Graph<u32, u32, u8>;

/// What is done. `Make`: in a graph of so many operations an operation with one result and one operand is created and erased, so many times.
/// `Replace`: so many uses of a value are moved to another value and back, so many times. `Fill`: so many blocks of so many operations are
/// created. `Erase`: the same, and then each is erased.
#[derive(Clone, Copy)]
pub enum Way {
    Make,
    Replace,
    Fill,
    Erase,
}

/// Creates an operation with one result, which uses the value if there is one.
fn make_one(graph: &mut Measured, operand: Option<Value>) -> Result<Value, AllocError> {
    let types = Few::one(1);
    if let Some(v) = operand {
        if graph.contains_value(v) {
            return Ok(Value::Result(graph.make_operation(0, types, &[v], &[])?, 0));
        }
    }
    Ok(Value::Result(graph.make_operation(0, types, &[], &[])?, 0))
}

/// Returns the operation or the block of a value.
fn owner(v: Value) -> Object {
    match v {
        Value::Result(p, _) => Object::TheOperation(p),
        Value::Argument(b, _) => Object::TheBlock(b),
    }
}

/// Erases an object if that is possible. Returns whether it was.
fn erase_one(graph: &mut Measured, o: Object) -> bool {
    if !graph.contains(o) || !graph.can_erase(o) {
        return false;
    }
    graph.erase(o);
    true
}

/// Creates so many operations, and then, so many times, one that uses the last of them, which is erased.
fn make(graph: &mut Measured, size: usize, times: usize) -> Result<bool, AllocError> {
    let mut last = None;
    for _ in 0..size {
        last = Some(make_one(graph, None)?);
    }
    let mut all = true;
    for _ in 0..times {
        let v = make_one(graph, last)?;
        all = erase_one(graph, owner(v)) && all;
    }
    Ok(all)
}

/// Turns each use of a value into a use of another, if both are live.
fn replace_all(graph: &mut Measured, v: Value, w: Value) -> bool {
    if !graph.contains_value(v) || !graph.contains_value(w) {
        return false;
    }
    graph.replace_all_uses(Defined::OfValue(v), Defined::OfValue(w));
    true
}

/// Creates so many uses of a value, and moves them to another value and back, so many times.
fn replace(graph: &mut Measured, size: usize, times: usize) -> Result<bool, AllocError> {
    let first = make_one(graph, None)?;
    let second = make_one(graph, None)?;
    for _ in 0..size {
        make_one(graph, Some(first))?;
    }
    let mut all = true;
    for _ in 0..times {
        all = replace_all(graph, first, second) && replace_all(graph, second, first) && all;
    }
    Ok(all)
}

/// Creates a block that contains so many operations, each of which uses the one before.
fn make_block(graph: &mut Measured, size: usize) -> Result<Option<Object>, AllocError> {
    let block = graph.make_block(0, Few::none())?;
    let mut last = None;
    for _ in 0..size {
        let v = make_one(graph, last)?;
        let Value::Result(p, _) = v else {
            return Ok(None);
        };
        let (k, c) = (Object::TheBlock(block), Object::TheOperation(p));
        if !graph.contains(k) || !graph.contains(c) || !graph.can_insert_at_back(k, c) {
            return Ok(None);
        }
        graph.insert_at_back(k, c)?;
        last = Some(v);
    }
    Ok(Some(Object::TheBlock(block)))
}

/// Creates so many blocks of so many operations, and appends them.
fn push_blocks(
    graph: &mut Measured,
    size: usize,
    times: usize,
    blocks: &mut Vec<Object>,
) -> Result<bool, AllocError> {
    for _ in 0..times {
        if let Some(block) = make_block(graph, size)? {
            blocks.push(block)?;
        }
    }
    Ok(blocks.len() == times)
}

/// Erases these objects. Returns whether each could be erased.
fn erase_all(graph: &mut Measured, objects: &[Object]) -> bool {
    let mut all = true;
    for object in objects {
        all = erase_one(graph, *object) && all;
    }
    all
}

/// Creates so many blocks of so many operations, and then, if `erases`, erases each.
fn fill(
    alloc: Global,
    graph: &mut Measured,
    size: usize,
    times: usize,
    erases: bool,
) -> Result<bool, AllocError> {
    let mut blocks = Vec::new(alloc);
    let made = push_blocks(graph, size, times, &mut blocks);
    let erased = !erases || erase_all(graph, blocks.as_slice());
    drop(blocks);
    Ok(made? && erased)
}

/// Does this in an empty graph.
pub fn counted(alloc: Global, way: Way, size: usize, times: usize) -> Result<bool, AllocError> {
    let mut graph = Graph::new(alloc);
    let all = match way {
        Way::Make => make(&mut graph, size, times),
        Way::Replace => replace(&mut graph, size, times),
        Way::Fill => fill(alloc, &mut graph, size, times, false),
        Way::Erase => fill(alloc, &mut graph, size, times, true),
    };
    drop(graph);
    all
}
