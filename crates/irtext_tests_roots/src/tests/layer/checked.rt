//! Calls that test what other calls require, the types of values, and the list of all operations in a root, by the names of this layer.
use crate::tests::checks::{Check, alone};
use crate::tests::value::{held, id_of, same, to_text, value_of};
use irtext_demo::{DemoAttr, DemoType};
use irtext_graph::graph::Graph;
use irtext_graph::held::HasGraph;
use irtext_graph::object::Object;
use irtext_tests_common::building::types;
use irtext_tests_common::contexts::Ctx;
use pliron_text::base::{
    BasicBlock, ContainsParts, Few, NestedOperations, NewBlock, Operation, OperationTypes, Ptr,
    TryInsert, TryNewOperation, Value, ValueType,
};
use pliron_text::result;
use std::alloc::Global;
use std::process::Abort;

/// The result of a call.
type Answer<X> = result::Result<X, DemoAttr>;

/// Tries to make `test.NAME` with these operands.
fn tried(
    rt: &impl Abort,
    alloc: Global,
    ctx: &mut Ctx,
    name: &str,
    operands: &[Value],
) -> Answer<Ptr<Operation>> {
    let id = id_of(rt, alloc, ("test", name));
    let types: Few<DemoType> = Few::none();
    Operation::try_new(ctx, id, types, operands, &[], 0)
}

/// An operation `test.nop` without a parent.
fn nop(rt: &impl Abort, alloc: Global, ctx: &mut Ctx) -> Ptr<Operation> {
    tried(rt, alloc, ctx, "nop", &[]).expect(rt, "refused")
}

/// A block without a parent.
fn block(rt: &impl Abort, ctx: &mut Ctx) -> Ptr<BasicBlock> {
    let types: Few<DemoType> = Few::none();
    BasicBlock::new(ctx, None, types).expect(rt, "refused")
}

/// The text of a result, which ends here: `ok`, or the error.
fn answered<X: Drop>(rt: &impl Abort, alloc: Global, answer: Answer<X>) -> String {
    match answer {
        Ok(value) => {
            drop(value);
            held(rt, alloc, "ok")
        }
        Err(error) => to_text(rt, alloc, error),
    }
}

/// What the context contains of a block: as many operations as were put into it, the value that is its argument, that value in a list, and
/// the block.
fn contained(rt: &impl Abort, alloc: Global, ctx: &mut Ctx) -> String {
    let holder = block(rt, ctx);
    for _operation in 0..2 {
        let op = nop(rt, alloc, ctx);
        op.try_insert_at_back(holder, ctx).expect(rt, "refused");
    }
    let value = Value::Argument(holder, 0);
    let defines = ctx.contains_value(value);
    let all = ctx.contains_values(&[value]);
    let live = ctx.contains_blocks(&[holder]);
    if !ctx.contains_block(holder) {
        rt.panic("no such block");
    }
    let inside = holder.all_operations(ctx).expect(rt, "out of memory");
    let count = inside.len();
    drop(inside);
    format!(in alloc; "{count} {defines} {all} {live}").expect(rt, "out of memory")
}

/// Makes an operation with two results, a pointer and a byte.
fn make_two(rt: &impl Abort, alloc: Global, ctx: &mut Ctx) -> Ptr<Operation> {
    let id = id_of(rt, alloc, ("test", "make"));
    let types = value_of(rt, types(alloc, "pb"), "no types");
    Operation::try_new(ctx, id, types, &[], &[], 0).expect(rt, "refused")
}

/// Whether these are two types, and only the second is a pointer.
fn are_types(listed: &[&DemoType]) -> bool {
    listed.len() == 2 && *listed[0] != DemoType::Pointer && *listed[1] == DemoType::Pointer
}

/// Whether an operation's results are a pointer and a byte, and another's operands a byte and a pointer, as lists and one by one.
fn has_types(rt: &impl Abort, ctx: &Ctx, maker: Ptr<Operation>, user: Ptr<Operation>) -> bool {
    let first = Value::Result(maker, 0);
    let live = ctx.contains_operation(maker) && ctx.contains_operation(user);
    if !live || !ctx.contains_value(first) {
        return false;
    }
    let mut results = maker.result_types(ctx).expect(rt, "out of memory");
    results.reverse();
    let operands = user.operand_types(ctx).expect(rt, "out of memory");
    let single = *first.get_type(ctx) == DemoType::Pointer;
    let indexed = *maker.get_type(ctx, 0) == DemoType::Pointer;
    let are_types = are_types(&results) & are_types(&operands);
    drop(results);
    drop(operands);
    single & indexed & are_types
}

/// Erases an object that nothing outside of it uses, and returns whether it is one.
fn erases<O: Drop, B: Drop, T: Drop>(graph: &mut Graph<O, B, T>, object: Object) -> bool {
    if !graph.contains(object) || !graph.can_erase(object) {
        return false;
    }
    graph.erase(object);
    true
}

/// Whether an operation is erased, after which its first result is not in the context any more.
fn is_erased(ctx: &mut Ctx, op: Ptr<Operation>) -> bool {
    let value = Value::Result(op, 0);
    let was_there = ctx.contains_value(value);
    was_there & erases(ctx.graph_mut(), Object::TheOperation(op)) & !ctx.contains_value(value)
}

/// Whether values have the types with which they were made, and whether an operation is erased whose result is used, and one whose result
/// is not.
fn typed(rt: &impl Abort, alloc: Global, ctx: &mut Ctx) -> String {
    let (maker, other) = (make_two(rt, alloc, ctx), make_two(rt, alloc, ctx));
    let values = [Value::Result(maker, 1), Value::Result(maker, 0)];
    let user = tried(rt, alloc, ctx, "use", &values).expect(rt, "refused");
    let types = has_types(rt, ctx, maker, user);
    let (used, unused) = (is_erased(ctx, maker), is_erased(ctx, other));
    format!(in alloc; "{types} {used} {unused}").expect(rt, "out of memory")
}

/// The results of an insertion, and of the same once more.
fn inserted(rt: &impl Abort, alloc: Global, ctx: &mut Ctx) -> String {
    let holder = block(rt, ctx);
    let op = nop(rt, alloc, ctx);
    let first = answered(rt, alloc, op.try_insert_at_back(holder, ctx));
    let second = answered(rt, alloc, op.try_insert_at_back(holder, ctx));
    let text = format!(in alloc; "{first}; {second}");
    drop(first);
    drop(second);
    text.expect(rt, "out of memory")
}

/// What is said of an operation that uses a value which is not in the context, and of one that is not registered.
const REFUSED: (&str, &str) = (
    "Compilation error: invalid argument.\nan operand or a successor is not in the context",
    "Compilation error: invalid argument.\nUnregistered Op test.none",
);

/// Checks that operations are refused.
fn check_refused(rt: &impl Abort, alloc: Global, ctx: &mut Ctx) {
    let op = nop(rt, alloc, ctx);
    let unknown = tried(rt, alloc, ctx, "use", &[Value::Result(op, 0)]);
    same(rt, answered(rt, alloc, unknown), REFUSED.0);
    let unregistered = tried(rt, alloc, ctx, "none", &[]);
    same(rt, answered(rt, alloc, unregistered), REFUSED.1);
}

/// What is said of two insertions of one operation.
const INSERTED: &str =
    "ok; Compilation error: invalid argument.\nthe object cannot be inserted there";

/// Checks what each call says.
pub(crate) fn check(rt: &impl Abort, alloc: Global, ctx: &mut Ctx) {
    same(rt, contained(rt, alloc, ctx), "2 false false true");
    same(rt, inserted(rt, alloc, ctx), INSERTED);
    same(rt, typed(rt, alloc, ctx), "true false true");
    check_refused(rt, alloc, ctx);
}

#[test]
fn calls_test_what_others_require(rt: HostRuntime) {
    alone(&rt, rt.alloc(), Check::Calls);
}
