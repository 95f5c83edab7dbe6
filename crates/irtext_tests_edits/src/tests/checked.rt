//! The calls that test first: each row is a call, one after the other in one context, and the text of its error.
use irtext_base::result::{Cause, Result as Answer};
use irtext_checked::insert::TryInsert;
use irtext_checked::moves::TryMove;
use irtext_checked::uses::TrySetUses;
use irtext_context::base::{BasicBlock, Operation, Ptr, Value};
use irtext_demo::DemoAttr;
use irtext_few::Few;
use irtext_graph::graph::Graph;
use irtext_graph::held::HasGraph;
use irtext_graph::object::Object;
use irtext_tests_common::building::{block, id, into_block, operation, types};
use irtext_tests_common::contexts::{Ctx, with_demo};
use std::alloc::Global;
use std::test::Fail;

/// A call. Operations and blocks are named by numbers: 1 and 2 are in the block 8 at first, 3 and 7 in none; 4 and the block 9 are gone; 5
/// has an operand and a successor, and 6 a result.
#[derive(Clone, Copy)]
enum Call {
    At(usize),
    Front,
    Before,
    After,
    MoveBefore,
    MoveAfter,
    ToEnd,
    Operand(usize),
    Successor(usize),
}

/// A call of an operation with an operation, a block, or a result of operation 6, and the text of its error, or none if it has to succeed.
type Row = (Call, u32, u32, &'static str);

const ROWS: &[Row] = &[
    (Call::At(3), 3, 8, "the holder has fewer children"),
    (Call::At(1), 3, 8, ""),
    (Call::Front, 3, 8, "the object has a parent already"),
    (Call::Front, 5, 8, ""),
    (Call::Before, 4, 1, "the object is not in the context"),
    (
        Call::After,
        1,
        4,
        "the object beside it is not in the context",
    ),
    (Call::MoveAfter, 1, 6, "the object beside it has no parent"),
    (Call::Before, 6, 1, ""),
    (Call::After, 6, 1, "the object has a parent already"),
    (
        Call::MoveBefore,
        1,
        1,
        "the object would be nested in itself",
    ),
    (Call::MoveAfter, 5, 2, ""),
    (Call::MoveBefore, 2, 6, ""),
    (Call::ToEnd, 2, 9, "the holder is not in the context"),
    (Call::ToEnd, 2, 8, ""),
    (Call::After, 7, 2, ""),
    (Call::Operand(1), 5, 0, "the operation has no such operand"),
    (Call::Operand(0), 5, 1, "the value is not in the context"),
    (Call::Operand(0), 5, 0, ""),
    (
        Call::Successor(1),
        5,
        8,
        "the operation has no such successor",
    ),
    (Call::Successor(0), 5, 9, "the block is not in the context"),
    (Call::Successor(0), 5, 8, ""),
];

/// The operations in the block 8 after these calls.
const ORDER: &[u32] = &[6, 1, 3, 5, 2, 7];

/// The operations and the blocks.
#[derive(Clone, Copy)]
struct Scene {
    low: (Ptr<Operation>, Ptr<Operation>, Ptr<Operation>),
    high: (Ptr<Operation>, Ptr<Operation>, Ptr<Operation>),
    gone: Ptr<Operation>,
    blocks: (Ptr<BasicBlock>, Ptr<BasicBlock>),
}

/// The operation with a number.
fn op_of(s: Scene, number: u32) -> Ptr<Operation> {
    match number {
        1 => s.low.0,
        2 => s.low.1,
        3 => s.low.2,
        5 => s.high.0,
        6 => s.high.1,
        7 => s.high.2,
        _ => s.gone,
    }
}

/// The block with a number.
fn block_of(s: Scene, number: u32) -> Ptr<BasicBlock> {
    if number == 8 { s.blocks.0 } else { s.blocks.1 }
}

/// Makes an operation that has nothing.
fn nop(alloc: Global, ctx: &mut Ctx) -> Result<Ptr<Operation>, Fail> {
    let id = id(alloc, ("test", "nop"))?;
    operation(ctx, id, Few::none(), &[], &[], 0)
}

/// Makes an operation that has nothing, and puts it last into a block.
fn nop_in(alloc: Global, ctx: &mut Ctx, holder: Ptr<BasicBlock>) -> Result<Ptr<Operation>, Fail> {
    let op = nop(alloc, ctx)?;
    into_block(ctx, op, holder)?;
    Ok(op)
}

/// Makes an operation with a result, and another one that uses it and a block.
fn user(
    alloc: Global,
    ctx: &mut Ctx,
    target: Ptr<BasicBlock>,
) -> Result<(Ptr<Operation>, Ptr<Operation>), Fail> {
    let maker = maker(alloc, ctx)?;
    let id = id(alloc, ("test", "use"))?;
    let value = Value::Result(maker, 0);
    let op = operation(ctx, id, Few::none(), &[value], &[target], 0)?;
    Ok((op, maker))
}

/// Makes an operation with a result.
fn maker(alloc: Global, ctx: &mut Ctx) -> Result<Ptr<Operation>, Fail> {
    let id = id(alloc, ("test", "make"))?;
    operation(ctx, id, types(alloc, "p")?, &[], &[], 0)
}

/// Erases an object that nothing outside of it uses.
fn erase<O: Drop, B: Drop, T: Drop>(
    graph: &mut Graph<O, B, T>,
    object: Object,
) -> Result<(), Fail> {
    if !graph.contains(object) || !graph.can_erase(object) {
        return Err(Fail::from("not to be erased"));
    }
    graph.erase(object);
    Ok(())
}

/// Makes the operations and the blocks.
fn make_scene(alloc: Global, ctx: &mut Ctx) -> Result<Scene, Fail> {
    let blocks = (
        block(alloc, ctx, "", Few::none())?,
        block(alloc, ctx, "", Few::none())?,
    );
    let first = nop_in(alloc, ctx, blocks.0)?;
    let second = nop_in(alloc, ctx, blocks.0)?;
    let low = (first, second, nop(alloc, ctx)?);
    let (user, maker) = user(alloc, ctx, blocks.0)?;
    let high = (user, maker, nop(alloc, ctx)?);
    let gone = nop(alloc, ctx)?;
    erase(ctx.graph_mut(), Object::TheOperation(gone))?;
    erase(ctx.graph_mut(), Object::TheBlock(blocks.1))?;
    Ok(Scene {
        low,
        high,
        gone,
        blocks,
    })
}

/// The result of the call of a row.
fn tried(ctx: &mut Ctx, s: Scene, call: Call, number: u32, place: u32) -> Answer<(), DemoAttr> {
    let op = op_of(s, number);
    let (mark, holder) = (op_of(s, place), block_of(s, place));
    match call {
        Call::At(index) => op.try_insert_at(holder, index, ctx),
        Call::Front => op.try_insert_at_front(holder, ctx),
        Call::Before => op.try_insert_before(mark, ctx),
        Call::After => op.try_insert_after(mark, ctx),
        Call::MoveBefore => op.try_move_before(mark, ctx),
        Call::MoveAfter => op.try_move_after(mark, ctx),
        Call::ToEnd => op.try_move_to_end(holder, ctx),
        Call::Operand(index) => {
            let value = Value::Result(s.high.1, place as usize);
            op.try_set_operand(ctx, index, value)
        }
        Call::Successor(index) => op.try_set_successor(ctx, index, holder),
    }
}

/// Whether a result is this error, or none if the text is empty.
fn says(answer: &Answer<(), DemoAttr>, text: &str) -> bool {
    match answer {
        Ok(()) => text.is_empty(),
        Err(error) => match &error.err {
            Cause::Text(said) => said.0.as_str() == text,
            _ => false,
        },
    }
}

/// Whether these operations are in a block.
fn are_in<O: Drop, B: Drop, T: Drop>(graph: &Graph<O, B, T>, s: Scene, numbers: &[u32]) -> bool {
    let holder = Object::TheBlock(s.blocks.0);
    if !graph.contains(holder) || graph.num_children(holder) != numbers.len() {
        return false;
    }
    for i in 0..graph.num_children(holder) {
        if graph.get_child(holder, i) != Object::TheOperation(op_of(s, numbers[i])) {
            return false;
        }
    }
    true
}

/// Makes the calls of the rows.
fn check_rows(alloc: Global, ctx: &mut Ctx) -> Result<(), Fail> {
    let s = make_scene(alloc, ctx)?;
    for (call, number, place, text) in ROWS {
        let answer = tried(ctx, s, *call, *number, *place);
        if !says(&answer, text) {
            return Err(Fail::from(*text));
        }
    }
    if !are_in(ctx.graph(), s, ORDER) {
        return Err(Fail::from("another order"));
    }
    Ok(())
}

#[test]
fn calls_say_which_condition_fails(rt: HostRuntime) -> Result<(), Fail> {
    with_demo(rt.alloc(), check_rows)
}
