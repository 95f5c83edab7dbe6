//! Worked rows: a call on a graph and its result, or what can be seen of the graph then.
use crate::tests::checks::Numbers;
use crate::tests::counters::{live_apart, refuses};
use crate::tests::model::Parts;
use crate::tests::nesting::{erased, is_child_at, put};
use crate::tests::parts::{has_own, is_value, uses, writes};
use crate::tests::rows::Row::*;
use crate::tests::script::{Kind, clears, fits, make, types};
use crate::tests::using::{has_uses, is_only_use, replace};
use crate::tests::walks::{meets, overwritten};
use irtext_graph::arena::Ptr;
use irtext_graph::object::{BasicBlock, Defined, Object, Operation, Value};
use std::alloc::Global;
use std::process::Abort;

/// A value: an object and an index.
type Valued = (usize, usize);

/// A call, or what can be seen. Objects are their numbers in the order in which they are made.
#[derive(Clone, Copy)]
pub(crate) enum Row {
    /// Makes an object with this data, and so many results or arguments, of types from the second number on.
    Make(Kind, u32, u64, usize),
    /// Makes an object of the table's kind, which gets this place and generation.
    Next(u64, u32),
    /// No object of this kind can be made.
    Refuse(Kind),
    /// The values of an object from one index up to another are the next operands, of an object to be made or to be compared.
    Operands(usize, usize, usize),
    /// A block is the next successor.
    Successor(usize),
    /// Puts the second object last into the first, which is allowed or not.
    Put(usize, usize, bool),
    Unlink(usize),
    /// Erases an object, which is allowed or not.
    Erase(usize, bool),
    /// Makes each use of a value one of another.
    Replace(Valued, Valued),
    Write(usize, u32),
    /// Writes 7 to all data inside an object.
    Overwrite(usize),
    /// Rolls all objects back.
    Clear,
    /// The second object is in the first at this index, or is not.
    Child(usize, usize, usize, bool),
    /// The second object is nested in the first, or is not.
    Inside(usize, usize, bool),
    /// The object is live, with this data and so many results or arguments.
    Own(usize, u32, usize),
    Gone(usize),
    /// The object has this place and generation.
    At(usize, u64, u32),
    /// So many values of an object have types and numbers from these on.
    Values(usize, usize, u8, u64),
    NoValue(Valued),
    /// An operation uses the next operands and successors.
    Uses(usize),
    /// A value has so many uses.
    Used(Valued, usize),
    /// The first successor of an operation is the only use of a block.
    OnlyUse(usize, usize),
    /// Two values have different numbers, or are the same.
    Apart(Valued, Valued, bool),
    /// The walk from an object visits these data in this order, so many.
    Walk(usize, u64, u64),
    /// So many objects are live, and so many were made.
    Live(u64, u64),
}

/// A graph whose places count from the first, its objects, and the next operands and successors.
#[derive(Drop)]
pub(crate) struct Worked {
    alloc: Global,
    graph: Numbers,
    first: u64,
    objects: Vec<Object>,
    next: Parts,
}

/// Whether a pointer has this place, as it is printed and counted from the first place of the graph, and this generation.
fn is_at<K>(graph: &Numbers, first: u64, p: Ptr<K>, place: u64, generation: u32) -> bool {
    (graph.number_of_place(p) == place)
        & (p.place().wrapping_add(first) == place.wrapping_add(1))
        & (p.generation() == generation)
}

impl Worked {
    /// A graph without objects, whose places count from the first.
    pub(crate) fn new(alloc: Global, graph: Numbers, first: u64) -> Worked {
        Worked {
            alloc,
            graph,
            first,
            objects: Vec::new(alloc),
            next: Parts::new(alloc, 0, 0),
        }
    }

    fn object(&self, rt: &impl Abort, number: usize) -> Object {
        *self.objects.get(number).expect(rt, "no such object")
    }

    fn operation(&self, rt: &impl Abort, number: usize) -> Ptr<Operation> {
        match self.object(rt, number) {
            Object::TheOperation(p) => p,
            _ => rt.panic("no operation"),
        }
    }

    fn block(&self, rt: &impl Abort, number: usize) -> Ptr<BasicBlock> {
        match self.object(rt, number) {
            Object::TheBlock(b) => b,
            _ => rt.panic("no block"),
        }
    }

    fn value(&self, rt: &impl Abort, at: Valued) -> Value {
        match self.object(rt, at.0) {
            Object::TheOperation(p) => Value::Result(p, at.1),
            Object::TheBlock(b) => Value::Argument(b, at.1),
            Object::TheRegion(_) => rt.panic("no value"),
        }
    }

    /// Makes an object that uses the next operands and successors.
    fn makes(&mut self, rt: &impl Abort, kind: Kind, value: u32, of_type: u64, count: usize) {
        let types = types(rt, self.alloc, of_type, count);
        self.next.value = value;
        let object = make(rt, &mut self.graph, kind, &self.next, types);
        self.objects.push(object).expect(rt, "out of memory");
        self.next = Parts::new(self.alloc, 0, 0);
    }

    /// Whether an object has this place and generation.
    fn is_at(&self, o: Object, place: u64, generation: u32) -> bool {
        match o {
            Object::TheOperation(p) => is_at(&self.graph, self.first, p, place, generation),
            Object::TheBlock(p) => is_at(&self.graph, self.first, p, place, generation),
            Object::TheRegion(p) => is_at(&self.graph, self.first, p, place, generation),
        }
    }

    /// Whether an object that is made gets this place and generation.
    fn places(&mut self, rt: &impl Abort, kind: Kind, place: u64, generation: u32) -> bool {
        let number = self.objects.len();
        self.makes(rt, kind, 0, 0, 0);
        self.is_at(self.object(rt, number), place, generation)
    }

    fn add_operands(&mut self, rt: &impl Abort, number: usize, first: usize, end: usize) {
        for index in first..end {
            let used = Defined::OfValue(self.value(rt, (number, index)));
            self.next.add(rt, used);
        }
    }

    /// Whether an object is put into another.
    fn puts(&mut self, rt: &impl Abort, k: Object, c: Object) -> bool {
        fits(k, c) && put(rt, &mut self.graph, k, c)
    }

    fn unlinks(&mut self, o: Object) -> bool {
        if !self.graph.contains(o) {
            return false;
        }
        self.graph.unlink(o);
        true
    }

    /// Whether an operation uses the next operands and successors.
    fn uses_next(&mut self, op: Ptr<Operation>) -> bool {
        let all = uses(&self.graph, op, &self.next.operands, &self.next.successors);
        self.next = Parts::new(self.alloc, 0, 0);
        all
    }

    fn is_inside(&self, k: Object, c: Object) -> bool {
        self.graph.contains(k) && self.graph.contains(c) && self.graph.is_inside(k, c)
    }

    fn has_values(&self, rt: &impl Abort, number: usize, count: usize, row: (u8, u64)) -> bool {
        let mut all = true;
        for index in 0..count {
            let value = self.value(rt, (number, index));
            let (of_type, at) = (
                row.0.wrapping_add((index % 256) as u8),
                row.1.wrapping_add(index as u64),
            );
            all = is_value(&self.graph, value, of_type, at) & all;
        }
        all
    }

    /// The number of the first row that does not hold, where objects are of this kind.
    pub(crate) fn failing(&mut self, rt: &impl Abort, kind: Kind, rows: &[Row]) -> Option<usize> {
        self.objects = Vec::new(self.alloc);
        for (number, row) in rows.iter().enumerate() {
            if !self.holds(rt, kind, *row) {
                return Some(number);
            }
        }
        None
    }

    /// Makes the call of a row, if it is one, and returns whether the row holds.
    fn holds(&mut self, rt: &impl Abort, kind: Kind, row: Row) -> bool {
        match row {
            Make(kind, value, of_type, count) => self.makes(rt, kind, value, of_type, count),
            Operands(o, first, end) => self.add_operands(rt, o, first, end),
            Successor(b) => {
                let used = Defined::OfBlock(self.block(rt, b));
                self.next.add(rt, used)
            }
            Next(place, generation) => return self.places(rt, kind, place, generation),
            Refuse(kind) => return refuses(&mut self.graph, kind),
            Clear => return clears(&mut self.graph),
            _ => return self.changes(rt, row),
        }
        true
    }

    /// The same for a row that changes objects that there are.
    fn changes(&mut self, rt: &impl Abort, row: Row) -> bool {
        match row {
            Put(k, c, done) => self.puts(rt, self.object(rt, k), self.object(rt, c)) == done,
            Unlink(o) => self.unlinks(self.object(rt, o)),
            Erase(o, done) => {
                let o = self.object(rt, o);
                erased(&mut self.graph, o) == done
            }
            Replace(v, w) => {
                let (v, w) = (self.value(rt, v), self.value(rt, w));
                replace(&mut self.graph, v, w)
            }
            Write(o, value) => {
                let o = self.object(rt, o);
                writes(&mut self.graph, o, value)
            }
            Overwrite(o) => {
                let o = self.object(rt, o);
                overwritten(&mut self.graph, o)
            }
            Uses(p) => self.uses_next(self.operation(rt, p)),
            _ => self.sees(rt, row),
        }
    }

    /// The same for a row that only looks.
    fn sees(&self, rt: &impl Abort, row: Row) -> bool {
        let graph = &self.graph;
        match row {
            Child(k, c, index, is) => {
                is_child_at(graph, self.object(rt, k), self.object(rt, c), index) == is
            }
            Inside(k, c, is) => self.is_inside(self.object(rt, k), self.object(rt, c)) == is,
            Own(o, value, count) => has_own(graph, self.object(rt, o), value, count),
            Gone(o) => !graph.contains(self.object(rt, o)),
            At(o, place, generation) => self.is_at(self.object(rt, o), place, generation),
            Values(o, count, of_type, number) => self.has_values(rt, o, count, (of_type, number)),
            NoValue(v) => !graph.contains_value(self.value(rt, v)),
            Used(v, count) => has_uses(rt, graph, self.value(rt, v), count),
            OnlyUse(b, p) => is_only_use(rt, graph, self.block(rt, b), self.operation(rt, p)),
            Apart(v, w, are) => live_apart(graph, self.value(rt, v), self.value(rt, w)) == are,
            Walk(o, digits, count) => meets(graph, self.object(rt, o), digits, count),
            Live(live, made) => (graph.num_live() == live) & (graph.made() == made),
            _ => false,
        }
    }
}
