//! A pass that writes the data of each operation while a walk is at it.
ghost use Rattle.irtext_graph.specs.declared.object.Object.TheVariants.{TheOperation};
ghost use Rattle.irtext_graph.specs.Graph.{IsLive};
ghost use Rattle.irtext_walks.specs.Walks.{KeepsWalks};

use crate::tests::made::{Holder, Row, Scene, Shape};
use crate::tests::orders::number_of;
use irtext_graph::arena::Ptr;
use irtext_graph::object::{Object, Operation};
use irtext_walks::iter::Walk;
use irtext_walks::laws::data_edits_keep_walks;
use irtext_walks::walks::OperationWalks;

/// Writes a number as the data of an operation.
fn write_one(holder: &mut Holder, op: Ptr<Operation>, number: u32)
    requires { IsLive holder.old.graph (TheOperation op) }
    ensures { KeepsWalks holder.old.graph holder.new.graph }
{
    data_edits_keep_walks::<u32, u32, u8>();
    *holder.graph.operation_mut(op) = number;
}

/// Numbers the operations in an operation in the order of the text, and returns how many they are.
fn number_all(holder: &mut Holder, root: Ptr<Operation>) -> u32
    requires { IsLive holder.old.graph (TheOperation root) }
{
    let mut number = 0u32;
    let mut at = root.first_operation(holder);
    while let Some(op) = at {
        write_one(holder, op, number);
        number = number.wrapping_add(1);
        at = root.next_operation(holder, op);
    }
    number
}

/// Whether the operations in an operation have the numbers from 0 on as their data.
fn are_numbered(holder: &Holder, root: Ptr<Operation>) -> bool {
    if !holder.graph.contains(Object::TheOperation(root)) {
        return false;
    }
    let mut number = 0u32;
    for op in root.walk(holder) {
        if !holder.graph.contains(Object::TheOperation(op))
            || *holder.graph.operation(op) != number
        {
            return false;
        }
        number = number.wrapping_add(1);
    }
    true
}

/// Whether all operations in an operation of a row are numbered.
pub(crate) fn written(scene: &mut Scene, row: Row, index: usize) -> bool {
    let Some(Object::TheOperation(root)) = scene.object(index) else {
        return true;
    };
    if !scene.holder.graph.contains(Object::TheOperation(root)) {
        return false;
    }
    let count = number_all(&mut scene.holder, root);
    count as usize == number_of(row, index, Shape::Op) && are_numbered(&scene.holder, root)
}
