//! The uses of a value and of a block are removed in every order.
use crate::tests::compared::has_uses;
use crate::tests::model::Parts;
use crate::tests::script::{Kind, Script};
use irtext_graph::object::{Defined, Object, Value};
use std::process::Abort;

const USERS: usize = 5;

// the number of orders in which five users can be removed
const ORDERS: usize = 120;

/// A value and a block.
#[derive(Clone, Copy)]
struct Both {
    value: Defined,
    block: Defined,
}

/// Makes an operation with a result, and a block.
fn make_both(rt: &impl Abort, script: &mut Script) -> Both {
    let op = script.make(rt, Kind::Operation, &Parts::new(script.alloc, 1, 1));
    let block = script.make(rt, Kind::Block, &Parts::new(script.alloc, 2, 0));
    Both {
        value: defined_by(rt, op),
        block: defined_by(rt, block),
    }
}

/// The first result of an operation, or the block.
fn defined_by(rt: &impl Abort, o: Object) -> Defined {
    match o {
        Object::TheOperation(p) => Defined::OfValue(Value::Result(p, 0)),
        Object::TheBlock(b) => Defined::OfBlock(b),
        Object::TheRegion(_) => rt.panic("a region defines nothing"),
    }
}

/// Makes five operations that use the value once and the block twice.
fn make_users(rt: &impl Abort, script: &mut Script, both: Both) -> Vec<Object> {
    let mut parts = Parts::new(script.alloc, 3, 0);
    parts.add(rt, both.value);
    parts.add(rt, both.block);
    parts.add(rt, both.block);
    let mut users = Vec::new(script.alloc);
    for _ in 0..USERS {
        let user = script.make(rt, Kind::Operation, &parts);
        users.push(user).expect(rt, "out of memory");
    }
    users
}

/// Erases a user, or drops its uses, and returns whether the uses are those of the others after that.
fn goes(rt: &impl Abort, script: &mut Script, both: Both, user: Object, drops: bool) -> bool {
    let gone = if drops {
        script.loosen(rt, user, true)
    } else {
        script.erase(rt, user)
    };
    let values = has_uses(rt, &script.graph, &script.model, both.value);
    has_uses(rt, &script.graph, &script.model, both.block) & gone & values
}

/// Makes five users, which are erased in the order of a number, or drop their uses, and returns whether the uses are those of the others
/// after each.
fn go_in_order(
    rt: &impl Abort,
    script: &mut Script,
    both: Both,
    order: usize,
    drops: bool,
) -> bool {
    let mut users = make_users(rt, script, both);
    let mut code = order;
    let mut all = true;
    for _ in 0..USERS {
        let left = users.len();
        if left == 0 {
            return false;
        }
        let user = users.remove(code % left);
        code /= left;
        all = goes(rt, script, both, user, drops) & all;
    }
    all
}

/// The number of the first order with a wrong result.
pub(crate) fn differing_order(rt: &impl Abort, script: &mut Script) -> Option<usize> {
    let both = make_both(rt, script);
    for order in 0..ORDERS {
        let erased = go_in_order(rt, script, both, order, false);
        if !(go_in_order(rt, script, both, order, true) & erased) {
            return Some(order);
        }
    }
    None
}
