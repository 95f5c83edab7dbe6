//! The uses in a root that was parsed: which value an operand is, and which block a successor is.
use crate::fault::written;
use crate::roots::{Ctx, root};
use crate::rows::places::{at, number, operand, operation_at, successor, value_at};
use crate::rows::row::Row;
use irtext_graph::graph::Graph;
use irtext_graph::held::HasGraph;
use irtext_graph::object::{Defined, Object};
use pliron_text::base::{Operation, Ptr, UniqueName, Value};
use std::fmt::Write;
use std::test::Fail;

/// The value that an operand of a root is, if it is the value that it has to be.
fn value_of<O: Drop, B: Drop, T: Drop>(
    graph: &Graph<O, B, T>,
    root: Ptr<Operation>,
    row: &Row,
) -> Result<Value, Fail> {
    let value = value_at(graph, root, row.text(3), number(row.text(4))?)?;
    let user = operation_at(graph, root, row.text(1))?;
    if operand(graph, user, number(row.text(2))?)? == value {
        Ok(value)
    } else {
        Err(Fail::from("it is another value"))
    }
}

/// Says the name of a value that is used, and the number of operands that are this value.
fn used(ctx: &Ctx, value: Value, said: &mut String) -> Result<(), Fail> {
    let graph = ctx.graph();
    if !graph.contains_value(value) {
        return Err(Fail::from("no such value"));
    }
    let uses = graph.num_uses(Defined::OfValue(value));
    let name = value.unique_name(ctx)?;
    written(write!(said, "{name}, {uses}"))
}

/// Says the name and the number of uses of the value that an operand is. The texts of the row are a root, the path and the index of the
/// operand, and the path and the index of the value.
pub(crate) fn of_operand(ctx: &mut Ctx, row: &Row, said: &mut String) -> Result<(), Fail> {
    let root = root(ctx, row.text(0))?;
    let value = value_of(ctx.graph(), root, row)?;
    used(ctx, value, said)
}

/// The number of uses of a block that is a successor in a root, if it is the block that it has to be.
fn num_taken<O: Drop, B: Drop, T: Drop>(
    graph: &Graph<O, B, T>,
    root: Ptr<Operation>,
    row: &Row,
) -> Result<usize, Fail> {
    let user = operation_at(graph, root, row.text(1))?;
    let block = successor(graph, user, number(row.text(2))?)?;
    let is_wanted = at(graph, root, row.text(3))? == Object::TheBlock(block);
    if is_wanted && graph.contains(Object::TheBlock(block)) {
        Ok(graph.num_uses(Defined::OfBlock(block)))
    } else {
        Err(Fail::from("it is another block"))
    }
}

/// Says the number of uses of the block that a successor is. The texts of the row are a root, the path and the index of the successor, and
/// the path of the block.
pub(crate) fn of_successor(ctx: &mut Ctx, row: &Row, said: &mut String) -> Result<(), Fail> {
    let root = root(ctx, row.text(0))?;
    let uses = num_taken(ctx.graph(), root, row)?;
    written(write!(said, "{uses}"))
}
