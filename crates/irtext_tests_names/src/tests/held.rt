//! The values and blocks that the operations using names hold.
use crate::tests::steps::{Kind, Tested};
use irtext_graph::arena::Ptr;
use irtext_graph::object::{Defined, Object, Operation, Value};

/// What a use holds: the definition of this number, or the placeholder that the use of this number made.
#[derive(Clone, Copy, PartialEq, Eq)]
pub(crate) enum Held {
    Definition(usize),
    Waits(usize),
}

/// The one value or block that an operation uses.
fn used_by(graph: &Tested, user: Ptr<Operation>) -> Option<Defined> {
    if !graph.contains(Object::TheOperation(user)) {
        return None;
    }
    match (graph.num_operands(user), graph.num_successors(user)) {
        (1, 0) => Some(Defined::OfValue(graph.get_operand(user, 0))),
        (0, 1) => Some(Defined::OfBlock(graph.get_successor(user, 0))),
        _ => None,
    }
}

/// Whether this is live and a placeholder that waits for a definition.
fn is_placeholder(graph: &Tested, d: Defined) -> bool {
    match d {
        Defined::OfValue(Value::Result(p, _)) => {
            graph.contains(Object::TheOperation(p)) && graph.operation(p).is_none()
        }
        Defined::OfValue(Value::Argument(_, _)) => false,
        Defined::OfBlock(b) => graph.contains(Object::TheBlock(b)) && *graph.block(b) == 0,
    }
}

/// Whether a user holds the definition, which is live.
fn holds_definition(made: &Kind, used: Defined, number: usize) -> bool {
    match made.definitions.get(number) {
        Some(definition) => *definition == used,
        None => false,
    }
}

/// Whether a user holds a placeholder, and the first user holds the same one.
fn holds_placeholder(graph: &Tested, made: &Kind, used: Defined, first: usize) -> bool {
    match made.users.get(first) {
        Some(user) => used_by(graph, *user) == Some(used) && is_placeholder(graph, used),
        None => false,
    }
}

/// Whether the use of this number holds the expected definition or placeholder.
pub(crate) fn holds(graph: &Tested, made: &Kind, number: usize, held: Held) -> bool {
    let Some(user) = made.users.get(number) else {
        return false;
    };
    let Some(used) = used_by(graph, *user) else {
        return false;
    };
    match held {
        Held::Definition(definition) => holds_definition(made, used, definition),
        Held::Waits(first) => holds_placeholder(graph, made, used, first),
    }
}

/// Whether there are so many uses, and each holds what is expected.
pub(crate) fn holds_all(graph: &Tested, made: &Kind, helds: &[Held]) -> bool {
    for (number, held) in helds.iter().enumerate() {
        if !holds(graph, made, number, *held) {
            return false;
        }
    }
    made.users.len() == helds.len()
}
