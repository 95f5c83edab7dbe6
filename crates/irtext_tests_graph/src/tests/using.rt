//! Uses, and how they are replaced.
use crate::tests::checks::Numbers;
use crate::tests::nesting::erased;
use crate::tests::script::make_using;
use irtext_few::Few;
use irtext_graph::arena::Ptr;
use irtext_graph::object::{BasicBlock, Defined, Object, Operation, Site, Value};
use std::alloc::Global;
use std::process::Abort;

/// Whether a value is live and has so many uses, by each of the three calls.
pub(crate) fn has_uses(rt: &impl Abort, graph: &Numbers, v: Value, count: usize) -> bool {
    if !graph.contains_value(v) {
        return false;
    }
    let d = Defined::OfValue(v);
    let listed = graph.uses(d).expect(rt, "out of memory");
    (graph.num_uses(d) == count) & (listed.len() == count) & (graph.has_use(d) == (count > 0))
}

/// Whether the first successor of an operation is the only one in the list of a block's uses.
pub(crate) fn is_only_use(
    rt: &impl Abort,
    graph: &Numbers,
    b: Ptr<BasicBlock>,
    op: Ptr<Operation>,
) -> bool {
    if !graph.contains(Object::TheBlock(b)) {
        return false;
    }
    let listed = graph.uses(Defined::OfBlock(b)).expect(rt, "out of memory");
    listed.as_slice() == [Site::AtSuccessor(op, 0)].as_slice()
}

/// Makes each use of a value one of another, if both are live.
pub(crate) fn replace(graph: &mut Numbers, v: Value, w: Value) -> bool {
    if !graph.contains_value(v) || !graph.contains_value(w) {
        return false;
    }
    graph.replace_all_uses(Defined::OfValue(v), Defined::OfValue(w));
    true
}

/// Whether the two results of an operation are live and have so many uses.
fn are_used(
    rt: &impl Abort,
    graph: &Numbers,
    op: Ptr<Operation>,
    first: usize,
    second: usize,
) -> bool {
    let one = has_uses(rt, graph, Value::Result(op, 0), first);
    has_uses(rt, graph, Value::Result(op, 1), second) & one
}

/// Makes so many operations that use a value.
fn make_users(
    rt: &impl Abort,
    graph: &mut Numbers,
    alloc: Global,
    v: Value,
    count: usize,
) -> Vec<Ptr<Operation>> {
    let mut users = Vec::new(alloc);
    for _ in 0..count {
        let user = make_using(rt, graph, 0, Few::none(), &[v], &[]);
        users.push(user).expect(rt, "out of memory");
    }
    users
}

/// Erases operations, and returns whether each can be erased.
fn erases_all(graph: &mut Numbers, users: &[Ptr<Operation>]) -> bool {
    let mut gone = true;
    for user in users {
        gone = erased(graph, Object::TheOperation(*user)) & gone;
    }
    gone
}

/// A result that so many operations use, then the other result in its place, and then none, since all of them are erased.
pub(crate) fn uses_often(
    rt: &impl Abort,
    graph: &mut Numbers,
    alloc: Global,
    count: usize,
) -> bool {
    let op = make_using(rt, graph, 0, Few::two(7, 8), &[], &[]);
    let users = make_users(rt, graph, alloc, Value::Result(op, 0), count);
    changes_users(rt, graph, op, &users) & (users.len() == count)
}

/// The same for these operations, which use the first result.
fn changes_users(
    rt: &impl Abort,
    graph: &mut Numbers,
    op: Ptr<Operation>,
    users: &[Ptr<Operation>],
) -> bool {
    let before = are_used(rt, graph, op, users.len(), 0);
    let done = replace(graph, Value::Result(op, 0), Value::Result(op, 1));
    let after = are_used(rt, graph, op, 0, users.len());
    let gone = erases_all(graph, users);
    let unused = are_used(rt, graph, op, 0, 0);
    before & done & after & gone & unused & (graph.num_live() == 1)
}
