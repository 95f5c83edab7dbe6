//! A plain model of a graph: its objects in one vector, in the order in which they were made, and its uses in another. Everything is
//! found by searching these two; objects have no lists of their children or of their uses.
use crate::random::Random;
use irtext_graph::arena::Ptr;
use irtext_graph::object::{BasicBlock, Defined, Object, Operation, Site, Value};
use std::alloc::Global;
use std::process::Abort;

/// What an object is made of: its data, how many results or arguments it has, and what it uses. Parts that its kind does not have are
/// empty.
#[derive(Drop)]
pub(crate) struct Parts {
    pub(crate) value: u32,
    pub(crate) count: usize,
    pub(crate) operands: Vec<Value>,
    pub(crate) successors: Vec<Ptr<BasicBlock>>,
}

/// An object in the model.
#[derive(Clone, Copy)]
pub(crate) struct Item {
    pub(crate) object: Object,
    // how many objects were made before it
    pub(crate) born: u64,
    pub(crate) value: u32,
    pub(crate) count: usize,
    // the number of its first result or argument
    pub(crate) first: u64,
    pub(crate) parent: Option<Object>,
    // how many objects were put into others before it was put into its parent
    pub(crate) seat: u64,
}

/// A use in the model.
#[derive(Clone, Copy)]
pub(crate) struct Use {
    pub(crate) user: Object,
    pub(crate) site: Site,
    pub(crate) used: Defined,
}

/// The live objects, their uses, the erased objects, and how many objects and values were made and how many objects were put into others.
#[derive(Drop)]
pub(crate) struct Model {
    pub(crate) alloc: Global,
    pub(crate) items: Vec<Item>,
    pub(crate) uses: Vec<Use>,
    pub(crate) gone: Vec<Object>,
    pub(crate) made: u64,
    pub(crate) values: u64,
    pub(crate) seats: u64,
}

/// The operation or the block that defines something, or is it.
fn owner(d: Defined) -> Object {
    match d {
        Defined::OfValue(Value::Result(p, _)) => Object::TheOperation(p),
        Defined::OfValue(Value::Argument(b, _)) => Object::TheBlock(b),
        Defined::OfBlock(b) => Object::TheBlock(b),
    }
}

impl Parts {
    /// Parts that use nothing.
    pub(crate) fn new(alloc: Global, value: u32, count: usize) -> Parts {
        Parts {
            value,
            count,
            operands: Vec::new(alloc),
            successors: Vec::new(alloc),
        }
    }

    /// Adds a value or a block that is used.
    pub(crate) fn add(&mut self, rt: &impl Abort, used: Defined) {
        match used {
            Defined::OfValue(v) => self.operands.push(v).expect(rt, "out of memory"),
            Defined::OfBlock(b) => self.successors.push(b).expect(rt, "out of memory"),
        }
    }
}

impl Item {
    /// A value that the object defines, or the block that it is, if it defines any.
    fn defined(&self, random: &mut Random) -> Option<Defined> {
        let index = random.below(self.count);
        match self.object {
            Object::TheOperation(p) if self.count > 0 => Some(Defined::OfValue(Value::Result(
                p, index,
            ))),
            Object::TheBlock(b) if self.count > 0 && random.below(2) == 0 => Some(Defined::OfValue(
                Value::Argument(b, index),
            )),
            Object::TheBlock(b) => Some(Defined::OfBlock(b)),
            Object::TheOperation(_) | Object::TheRegion(_) => None,
        }
    }
}

impl Model {
    /// No object was made.
    pub(crate) fn new(alloc: Global) -> Model {
        Model {
            alloc,
            items: Vec::new(alloc),
            uses: Vec::new(alloc),
            gone: Vec::new(alloc),
            made: 0,
            values: 0,
            seats: 0,
        }
    }

    /// The object with what the model knows of it, if it is live.
    pub(crate) fn find(&self, o: Object) -> Option<Item> {
        for item in &self.items {
            if item.object == o {
                return Some(*item);
            }
        }
        None
    }

    /// One of the objects, if there are any.
    pub(crate) fn any(&self, rt: &impl Abort, random: &mut Random) -> Item {
        *self
            .items
            .get(random.below(self.items.len()))
            .expect(rt, "no object")
    }

    /// A value or a block that one of the objects defines, if it defines any.
    pub(crate) fn any_defined(&self, rt: &impl Abort, random: &mut Random) -> Option<Defined> {
        if self.items.is_empty() {
            return None;
        }
        self.any(rt, random).defined(random)
    }

    /// Adds an object that was made of these parts.
    pub(crate) fn add(&mut self, rt: &impl Abort, object: Object, parts: &Parts) {
        let (born, first) = (self.made, self.values);
        self.made = born.wrapping_add(1);
        self.values = first.wrapping_add(parts.count as u64);
        self.items
            .push(Item {
                object,
                born,
                value: parts.value,
                count: parts.count,
                first,
                parent: None,
                seat: 0,
            })
            .expect(rt, "out of memory");
        if let Object::TheOperation(p) = object {
            self.add_uses(rt, p, parts);
        }
    }

    /// Adds the uses by an operation that was made of these parts.
    fn add_uses(&mut self, rt: &impl Abort, p: Ptr<Operation>, parts: &Parts) {
        let user = Object::TheOperation(p);
        for (i, v) in parts.operands.iter().enumerate() {
            self.add_use(rt, user, Site::AtOperand(p, i), Defined::OfValue(*v));
        }
        for (i, b) in parts.successors.iter().enumerate() {
            self.add_use(rt, user, Site::AtSuccessor(p, i), Defined::OfBlock(*b));
        }
    }

    fn add_use(&mut self, rt: &impl Abort, user: Object, site: Site, used: Defined) {
        self.uses
            .push(Use { user, site, used })
            .expect(rt, "out of memory");
    }

    /// How many objects are in one.
    pub(crate) fn num_children(&self, o: Object) -> usize {
        let mut count: usize = 0;
        for item in &self.items {
            if item.parent == Some(o) {
                count = count.wrapping_add(1);
            }
        }
        count
    }

    /// How many objects were put before this one into its parent, and are still there.
    pub(crate) fn index_of(&self, child: &Item) -> usize {
        let mut count: usize = 0;
        for item in &self.items {
            if item.parent == child.parent && item.seat < child.seat {
                count = count.wrapping_add(1);
            }
        }
        count
    }

    /// An object and everything nested in it.
    pub(crate) fn inside(&self, rt: &impl Abort, o: Object) -> Vec<Object> {
        let mut found = Vec::new(self.alloc);
        found.push(o).expect(rt, "out of memory");
        for i in 0..self.items.len() {
            let Some(q) = found.get(i).copied() else {
                break;
            };
            self.add_children(rt, q, &mut found);
        }
        found
    }

    /// Adds the objects that are in one to a list.
    fn add_children(&self, rt: &impl Abort, o: Object, found: &mut Vec<Object>) {
        for item in &self.items {
            if item.parent == Some(o) {
                found.push(item.object).expect(rt, "out of memory");
            }
        }
    }

    /// Whether nothing outside of an object uses it or anything nested in it.
    pub(crate) fn can_erase(&self, rt: &impl Abort, o: Object) -> bool {
        let inside = self.inside(rt, o);
        for u in &self.uses {
            if inside.contains(&owner(u.used)) && !inside.contains(&u.user) {
                return false;
            }
        }
        true
    }

    /// Whether an object is nested in another, or is it.
    pub(crate) fn is_inside(&self, rt: &impl Abort, o: Object, q: Object) -> bool {
        self.inside(rt, o).contains(&q)
    }

    /// Whether the operands and the successors that are d are at these places and nowhere else.
    pub(crate) fn has_uses(&self, d: Defined, sites: &[Site]) -> bool {
        let mut count: usize = 0;
        for u in &self.uses {
            if u.used == d {
                count = count.wrapping_add(1);
                if !sites.contains(&u.site) {
                    return false;
                }
            }
        }
        count == sites.len()
    }

    /// Whether c is detached and k is not nested in it.
    pub(crate) fn can_insert(&self, rt: &impl Abort, k: Object, c: Object) -> bool {
        let detached = match self.find(c) {
            Some(item) => item.parent.is_none(),
            None => false,
        };
        detached & !self.is_inside(rt, c, k)
    }

    /// Puts an object last into another, or detaches it.
    pub(crate) fn place(&mut self, c: Object, parent: Option<Object>) {
        let seat = self.seats;
        self.seats = seat.wrapping_add(1);
        for item in self.items.iter_mut() {
            if item.object == c {
                item.parent = parent;
                item.seat = seat;
            }
        }
    }

    /// Makes each use of d one of e.
    pub(crate) fn replace(&mut self, d: Defined, e: Defined) {
        for u in self.uses.iter_mut() {
            if u.used == d {
                u.used = e;
            }
        }
    }

    /// Drops the uses by these objects.
    fn drop_uses(&mut self, rt: &impl Abort, users: &[Object]) {
        let mut left = Vec::new(self.alloc);
        for u in &self.uses {
            if !users.contains(&u.user) {
                left.push(*u).expect(rt, "out of memory");
            }
        }
        self.uses = left;
    }

    /// Drops the uses by an object and by the operations nested in it.
    pub(crate) fn drop_inside(&mut self, rt: &impl Abort, o: Object) {
        let users = self.inside(rt, o);
        self.drop_uses(rt, &users)
    }

    /// Removes these objects, and their uses.
    fn take_out(&mut self, rt: &impl Abort, objects: &[Object]) {
        self.drop_uses(rt, objects);
        let mut left = Vec::new(self.alloc);
        for item in &self.items {
            if objects.contains(&item.object) {
                self.gone.push(item.object).expect(rt, "out of memory");
            } else {
                left.push(*item).expect(rt, "out of memory");
            }
        }
        self.items = left;
    }

    /// Removes an object and everything nested in it.
    pub(crate) fn erase(&mut self, rt: &impl Abort, o: Object) {
        let inside = self.inside(rt, o);
        self.take_out(rt, &inside)
    }

    /// Removes the objects before which at least this many were made.
    pub(crate) fn roll_back(&mut self, rt: &impl Abort, mark: u64) {
        let mut newer = Vec::new(self.alloc);
        for item in &self.items {
            if item.born >= mark {
                newer.push(item.object).expect(rt, "out of memory");
            }
        }
        self.take_out(rt, &newer)
    }
}
