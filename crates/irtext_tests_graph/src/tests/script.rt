//! A random script: a graph and its model are changed by the same calls, and compared after each.
ghost use Rattle.std.specs.Prelude.{◌≤◌, ◌↔◌, ℕ, IsTrue};
ghost use Rattle.irtext_graph.specs.Graph.{KeepsOlder};
ghost use Rattle.irtext_graph.specs.Objects.{Fits};
ghost use Rattle.irtext_graph.specs.Used.{AreAlike};

use crate::random::Random;
use crate::tests::checks::Numbers;
use crate::tests::compared::{agree, is_defined, type_of};
use crate::tests::model::{Model, Parts};
use crate::tests::nesting::{erases, put};
use irtext_few::Few;
use irtext_graph::arena::Ptr;
use irtext_graph::object::{BasicBlock, Defined, Object, Operation, Value};
use irtext_graph_queries::contained::{contains_blocks, contains_values};
use std::alloc::Global;
use std::process::Abort;

// the number of calls
const STEPS: usize = 10000;

// from this number of objects on no more are made
const MOST: usize = 200;

/// A graph, its model, and the random numbers that choose the next call.
#[derive(Drop)]
pub(crate) struct Script {
    pub(crate) alloc: Global,
    random: Random,
    pub(crate) model: Model,
    pub(crate) graph: Numbers,
}

/// Whether an object of k's kind can hold one of c's kind.
pub(crate) fn fits(k: Object, c: Object) -> bool
    ensures { IsTrue result ↔ Fits k c }
{
    match k {
        Object::TheOperation(_) => matches!(c, Object::TheRegion(_)),
        Object::TheRegion(_) => matches!(c, Object::TheBlock(_)),
        Object::TheBlock(_) => matches!(c, Object::TheOperation(_)),
    }
}

/// Whether both are values, or both are blocks.
fn are_alike(d: Defined, e: Defined) -> bool
    ensures { IsTrue result ↔ AreAlike d e }
{
    match d {
        Defined::OfValue(_) => matches!(e, Defined::OfValue(_)),
        Defined::OfBlock(_) => matches!(e, Defined::OfBlock(_)),
    }
}

/// The types of so many values, by their numbers.
pub(crate) fn types(rt: &impl Abort, alloc: Global, first: u64, count: usize) -> Few<u8> {
    let mut types = Vec::new(alloc);
    for i in 0..count {
        types
            .push(type_of(first.wrapping_add(i as u64)))
            .expect(rt, "out of memory");
    }
    Few::from_vec(types)
}

/// The kinds of objects.
#[derive(Clone, Copy)]
pub(crate) enum Kind {
    Operation,
    Block,
    Region,
}

/// One of the kinds.
fn any_kind(random: &mut Random) -> Kind {
    match random.below(5) {
        0 => Kind::Region,
        1 => Kind::Block,
        _ => Kind::Operation,
    }
}

/// Up to three results or arguments; a region has none.
fn any_count(random: &mut Random, kind: Kind) -> usize {
    match kind {
        Kind::Region => 0,
        _ => random.below(4),
    }
}

/// Adds some of the live values and blocks as uses to the parts of an operation.
fn use_some(rt: &impl Abort, model: &Model, random: &mut Random, kind: Kind, parts: &mut Parts) {
    if !matches!(kind, Kind::Operation) {
        return;
    }
    for _ in 0..random.below(6) {
        if let Some(used) = model.any_defined(rt, random) {
            parts.add(rt, used);
        }
    }
}

/// Makes an operation that uses these values and blocks, which have to be live.
pub(crate) fn make_using(
    rt: &impl Abort,
    graph: &mut Numbers,
    value: u32,
    types: Few<u8>,
    operands: &[Value],
    successors: &[Ptr<BasicBlock>],
) -> Ptr<Operation>
    ensures kept { (m : ℕ) → m ≤ graph.old.made → KeepsOlder m graph.old graph.new }
{
    assert!(rt; contains_values(graph, operands) && contains_blocks(graph, successors));
    graph
        .make_operation(value, types, operands, successors)
        .expect(rt, "out of memory")
}

/// Makes an object of these parts. Everything that it uses has to be live.
pub(crate) fn make(
    rt: &impl Abort,
    graph: &mut Numbers,
    kind: Kind,
    parts: &Parts,
    types: Few<u8>,
) -> Object
    ensures kept { (m : ℕ) → m ≤ graph.old.made → KeepsOlder m graph.old graph.new }
{
    let (value, operands, successors) = (parts.value, &parts.operands, &parts.successors);
    match kind {
        Kind::Region => Object::TheRegion(graph.make_region().expect(rt, "out of memory")),
        Kind::Block => Object::TheBlock(graph.make_block(value, types).expect(rt, "out of memory")),
        Kind::Operation => {
            Object::TheOperation(make_using(rt, graph, value, types, operands, successors))
        }
    }
}

/// Rolls all objects back.
pub(crate) fn clears(graph: &mut Numbers) -> bool {
    graph.roll_back(0);
    graph.num_live() == 0
}

impl Script {
    /// A graph without objects, and its model.
    pub(crate) fn new(alloc: Global, graph: Numbers) -> Script {
        Script {
            alloc,
            random: Random::new(),
            model: Model::new(alloc),
            graph,
        }
    }

    /// Makes an object of these parts. Everything that it uses has to be live.
    pub(crate) fn make(&mut self, rt: &impl Abort, kind: Kind, parts: &Parts) -> Object
        ensures kept { (m : ℕ) → m ≤ self.old.graph.made → KeepsOlder m self.old.graph self.new.graph }
    {
        let types = types(rt, self.alloc, self.model.values, parts.count);
        let object = make(rt, &mut self.graph, kind, parts, types);
        self.model.add(rt, object, parts);
        object
    }

    /// Makes an object of up to three results or arguments.
    fn make_one(&mut self, rt: &impl Abort)
        ensures kept { (m : ℕ) → m ≤ self.old.graph.made → KeepsOlder m self.old.graph self.new.graph }
    {
        let kind = any_kind(&mut self.random);
        let count = any_count(&mut self.random, kind);
        let mut parts = Parts::new(self.alloc, (self.model.made % 1000) as u32, count);
        use_some(rt, &self.model, &mut self.random, kind, &mut parts);
        self.make(rt, kind, &parts);
    }

    /// Makes three objects.
    fn make_three(&mut self, rt: &impl Abort)
        ensures kept { (m : ℕ) → m ≤ self.old.graph.made → KeepsOlder m self.old.graph self.new.graph }
    {
        self.make_one(rt);
        self.make_one(rt);
        self.make_one(rt);
    }

    /// Makes nine objects.
    fn make_nine(&mut self, rt: &impl Abort)
        ensures kept { (m : ℕ) → m ≤ self.old.graph.made → KeepsOlder m self.old.graph self.new.graph }
    {
        self.make_three(rt);
        self.make_three(rt);
        self.make_three(rt);
    }

    /// Makes nine objects, compares, and rolls them back.
    fn make_and_give_back(&mut self, rt: &impl Abort) -> bool {
        let mark = self.graph.made();
        self.make_nine(rt);
        let same = agree(rt, &self.graph, &self.model, &mut self.random);
        self.graph.roll_back(mark);
        self.model.roll_back(rt, mark);
        same
    }

    /// Rolls all objects back.
    fn clear(&mut self, rt: &impl Abort) -> bool {
        self.model.roll_back(rt, 0);
        clears(&mut self.graph)
    }

    /// Puts an object into another if their kinds fit, and returns whether the graph allows it exactly if the model does.
    fn insert(&mut self, rt: &impl Abort, k: Object, c: Object) -> bool {
        if !fits(k, c) {
            return true;
        }
        let can = self.model.can_insert(rt, k, c);
        let done = put(rt, &mut self.graph, k, c);
        if done {
            self.model.place(c, Some(k));
        }
        done == can
    }

    /// Makes each use of one value or block one of another.
    fn replace(&mut self, rt: &impl Abort) -> bool {
        let Some(d) = self.model.any_defined(rt, &mut self.random) else {
            return true;
        };
        let Some(e) = self.model.any_defined(rt, &mut self.random) else {
            return true;
        };
        if !is_defined(&self.graph, d) || !is_defined(&self.graph, e) {
            return false;
        }
        if are_alike(d, e) {
            self.graph.replace_all_uses(d, e);
            self.model.replace(d, e);
        }
        true
    }

    /// Erases an object with everything nested in it, and returns whether the graph allows it exactly if the model does.
    pub(crate) fn erase(&mut self, rt: &impl Abort, o: Object) -> bool {
        let can = self.model.can_erase(rt, o);
        if !self.graph.contains(o) {
            return false;
        }
        if erases(&mut self.graph, o) {
            self.model.erase(rt, o);
            return can;
        }
        !can
    }

    /// Detaches an object from its parent, or drops the uses by the operations nested in it.
    pub(crate) fn loosen(&mut self, rt: &impl Abort, o: Object, drops: bool) -> bool {
        if !self.graph.contains(o) {
            return false;
        }
        if drops {
            self.graph.drop_all_uses(o);
            self.model.drop_inside(rt, o);
        } else {
            self.graph.unlink(o);
            self.model.place(o, None);
        }
        true
    }

    /// Changes the graph at one or two objects.
    fn change(&mut self, rt: &impl Abort, o: Object, p: Object) -> bool {
        match self.random.below(24) {
            0..=10 => self.insert(rt, o, p),
            11..=13 => self.replace(rt),
            14 => self.loosen(rt, o, true),
            15 => self.loosen(rt, o, false),
            _ => self.erase(rt, o),
        }
    }

    /// Makes the next call.
    fn step(&mut self, rt: &impl Abort) -> bool {
        if self.model.items.is_empty() {
            self.make_one(rt);
            return true;
        }
        let one = self.model.any(rt, &mut self.random).object;
        let other = self.model.any(rt, &mut self.random).object;
        match self.random.below(2000) {
            0 => self.clear(rt),
            1..=20 => self.make_and_give_back(rt),
            21..=800 if self.model.items.len() < MOST => {
                self.make_one(rt);
                true
            }
            _ => self.change(rt, one, other),
        }
    }
}

/// The number of the first call after which the graph and its model differ. To look at the call, let the script end there.
pub(crate) fn differing_call(rt: &impl Abort, script: &mut Script) -> Option<usize> {
    for number in 0..STEPS {
        let done = script.step(rt);
        if !done || !agree(rt, &script.graph, &script.model, &mut script.random) {
            return Some(number);
        }
    }
    None
}
