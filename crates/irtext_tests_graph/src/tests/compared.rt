//! Whether a graph and its model agree: on one object, on the uses of one value or block, and on which edits each allows.
ghost use Rattle.std.specs.Prelude.{◌↔◌, IsTrue};
ghost use Rattle.irtext_graph.specs.Used.{IsDefined};

use crate::random::Random;
use crate::tests::checks::Numbers;
use crate::tests::model::{Item, Model};
use crate::tests::nesting::is_child_at;
use crate::tests::parts::{has_own, is_value};
use irtext_graph::object::{Defined, Object, Site, Value};
use std::process::Abort;

/// The type of the value of a number.
pub(crate) fn type_of(number: u64) -> u8 {
    (number % 251) as u8
}

/// Whether the value or the block is live.
pub(crate) fn is_defined(graph: &Numbers, d: Defined) -> bool
    ensures { IsTrue result ↔ IsDefined graph.now d }
{
    match d {
        Defined::OfValue(v) => graph.contains_value(v),
        Defined::OfBlock(b) => graph.contains(Object::TheBlock(b)),
    }
}

/// Whether an object and its children are where the model has them.
fn is_placed(graph: &Numbers, model: &Model, item: &Item) -> bool {
    let o = item.object;
    if !graph.contains(o)
        || graph.get_parent(o) != item.parent
        || graph.num_children(o) != model.num_children(o)
    {
        return false;
    }
    for c in &model.items {
        if c.parent == Some(o) && !is_child_at(graph, o, c.object, model.index_of(c)) {
            return false;
        }
    }
    true
}

/// What is used at a place, if the operation is live and has the place.
fn used_at(graph: &Numbers, site: Site) -> Option<Defined> {
    match site {
        Site::AtOperand(p, i) => {
            if !graph.contains(Object::TheOperation(p)) || i >= graph.num_operands(p) {
                return None;
            }
            Some(Defined::OfValue(graph.get_operand(p, i)))
        }
        Site::AtSuccessor(p, i) => {
            if !graph.contains(Object::TheOperation(p)) || i >= graph.num_successors(p) {
                return None;
            }
            Some(Defined::OfBlock(graph.get_successor(p, i)))
        }
    }
}

/// How many operands and successors an object has.
fn num_used(graph: &Numbers, o: Object) -> usize {
    let Object::TheOperation(p) = o else {
        return 0;
    };
    if !graph.contains(Object::TheOperation(p)) {
        return 0;
    }
    graph.num_operands(p).wrapping_add(graph.num_successors(p))
}

/// Whether an object has the operands and successors that the model has, and no others.
fn uses_alike(graph: &Numbers, model: &Model, o: Object) -> bool {
    let mut count: usize = 0;
    for u in &model.uses {
        if u.user == o {
            count = count.wrapping_add(1);
            if used_at(graph, u.site) != Some(u.used) {
                return false;
            }
        }
    }
    num_used(graph, o) == count
}

/// Whether the results or the arguments of an object have their types and numbers.
fn has_values(graph: &Numbers, item: &Item) -> bool {
    for i in 0..item.count {
        let number = item.first.wrapping_add(i as u64);
        let alive = match item.object {
            Object::TheOperation(p) => is_value(
                graph,
                Value::Result(p, i),
                type_of(number),
                number,
            ),
            Object::TheBlock(b) => is_value(graph, Value::Argument(b, i), type_of(number), number),
            Object::TheRegion(_) => false,
        };
        if !alive {
            return false;
        }
    }
    true
}

/// Whether the uses of d are those that the model finds, each once.
pub(crate) fn has_uses(rt: &impl Abort, graph: &Numbers, model: &Model, d: Defined) -> bool {
    if !is_defined(graph, d) {
        return false;
    }
    let listed = graph.uses(d).expect(rt, "out of memory");
    let counted = graph.num_uses(d) == listed.len() && graph.has_use(d) == !listed.is_empty();
    counted && model.has_uses(d, &listed)
}

/// Whether the graph allows what the model allows: that k is erased, and that c is put into k.
fn allows(rt: &impl Abort, graph: &Numbers, model: &Model, k: Object, c: Object) -> bool {
    if !graph.contains(k) || !graph.contains(c) {
        return false;
    }
    let nested = graph.is_inside(k, c) == model.is_inside(rt, k, c);
    let erased = graph.can_erase(k) == model.can_erase(rt, k);
    let put = graph.can_insert_at_back(k, c) == model.can_insert(rt, k, c);
    nested & erased & put
}

/// Whether an object is the same in both.
fn is_alike(graph: &Numbers, model: &Model, item: &Item) -> bool {
    is_placed(graph, model, item)
        && uses_alike(graph, model, item.object)
        && has_own(graph, item.object, item.value, item.count)
        && has_values(graph, item)
}

/// Whether both have as many objects, and made as many, and an object that was erased stays erased.
fn has_as_many(graph: &Numbers, model: &Model, random: &mut Random) -> bool {
    if let Some(o) = model.gone.get(random.below(model.gone.len())) {
        if graph.contains(*o) {
            return false;
        }
    }
    graph.num_live() == model.items.len() as u64 && graph.made() == model.made
}

/// Whether the two agree at objects that the random numbers choose.
pub(crate) fn agree(rt: &impl Abort, graph: &Numbers, model: &Model, random: &mut Random) -> bool {
    if !has_as_many(graph, model, random) {
        return false;
    }
    if model.items.is_empty() {
        return true;
    }
    let item = model.any(rt, random);
    let other = model.any(rt, random);
    let alike = is_alike(graph, model, &item);
    let used = match model.any_defined(rt, random) {
        Some(d) => has_uses(rt, graph, model, d),
        None => true,
    };
    allows(rt, graph, model, item.object, other.object) & alike & used
}
