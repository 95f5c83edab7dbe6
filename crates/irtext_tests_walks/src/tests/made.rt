//! Rows, and the graphs that are made of them.
ghost use Rattle.std.specs.Prelude.{refl, IsTrue};
ghost use Rattle.irtext_walks.specs.Walks.{IsLiveInside};

use irtext_few::Few;
use irtext_graph::arena::Ptr;
use irtext_graph::graph::Graph;
use irtext_graph::held::HasGraph;
use irtext_graph::object::{BasicBlock, Object, Operation};
use irtext_memory::vec;
use std::alloc::Global;
use std::process::Abort;

/// A graph.
#[derive(Drop)]
pub(crate) struct Holder {
    pub(crate) graph: Graph<u32, u32, u8>,
}

impl HasGraph for Holder {
    type O = u32;

    type B = u32;

    type T = u8;

    ghost graph = { λ h. h.graph };

    ghost with_graph = { λ h g. record h { graph = g } };

    ghost with_own = { λ h. refl };

    ghost graph_with = { λ h g. refl };

    fn graph(&self) -> &Graph<u32, u32, u8> {
        &self.graph
    }

    fn graph_mut(&mut self) -> &mut Graph<u32, u32, u8> {
        &mut self.graph
    }
}

/// The kind of an object of a row.
#[derive(Clone, Copy, PartialEq, Eq)]
pub(crate) enum Shape {
    Op,
    Block,
    Region,
}

/// A graph: its objects in the order of the text, each with its depth, and the order in which they come after what is nested in them. Objects
/// are named by their indices.
#[derive(Clone, Copy)]
pub(crate) struct Row {
    pub(crate) tree: &'static [(Shape, usize)],
    pub(crate) post: &'static [usize],
}

/// The graph of a row, and its objects by their indices.
#[derive(Drop)]
pub(crate) struct Scene {
    pub(crate) holder: Holder,
    pub(crate) made: Vec<Object>,
}

impl Row {
    /// The index after an object of the row and everything nested in it.
    pub(crate) fn end(self, index: usize) -> usize {
        let depth = self.depth(index);
        for after in 0..self.tree.len() {
            if after > index && self.tree[after].1 <= depth {
                return after;
            }
        }
        self.tree.len()
    }

    /// The depth of an object of the row.
    pub(crate) fn depth(self, index: usize) -> usize {
        if index < self.tree.len() {
            self.tree[index].1
        } else {
            0
        }
    }

    /// Whether an object of the row is of a kind, or of any kind for none.
    pub(crate) fn is(self, index: usize, shape: Option<Shape>) -> bool {
        match shape {
            Some(shape) => index < self.tree.len() && self.tree[index].0 == shape,
            None => index < self.tree.len(),
        }
    }

    /// The object of the row in which one is.
    pub(crate) fn holder(self, index: usize) -> Option<usize> {
        let depth = self.depth(index);
        let mut found = None;
        for at in 0..index {
            if self.depth(at) < depth {
                found = Some(at);
            }
        }
        found
    }
}

impl Scene {
    /// The object with an index.
    pub(crate) fn object(&self, index: usize) -> Option<Object> {
        self.made.get(index).copied()
    }

    /// Whether an object is the one with an index, or both are none.
    pub(crate) fn is(&self, o: Option<Object>, index: Option<usize>) -> bool {
        match index {
            Some(index) => o.is_some() && self.object(index) == o,
            None => o.is_none(),
        }
    }

    /// The same for an operation.
    pub(crate) fn is_op(&self, op: Option<Ptr<Operation>>, index: Option<usize>) -> bool {
        match op {
            Some(op) => self.is(Some(Object::TheOperation(op)), index),
            None => index.is_none(),
        }
    }

    /// The same for a block.
    pub(crate) fn is_block(&self, block: Option<Ptr<BasicBlock>>, index: Option<usize>) -> bool {
        match block {
            Some(block) => self.is(Some(Object::TheBlock(block)), index),
            None => index.is_none(),
        }
    }

    /// Whether an object is live, and it is the root or nested in it.
    pub(crate) fn is_inside(&self, root: Object, o: Object) -> bool
        ensures { IsTrue result → IsLiveInside self.now.holder.graph root o }
    {
        self.holder.graph.contains(o) && self.holder.graph.is_inside(root, o)
    }
}

/// Makes an object without parts.
fn make(rt: &impl Abort, graph: &mut Graph<u32, u32, u8>, shape: Shape) -> Object {
    match shape {
        Shape::Op => Object::TheOperation(
            graph
                .make_operation(0, Few::none(), &[], &[])
                .expect(rt, "out of memory"),
        ),
        Shape::Block => {
            Object::TheBlock(graph.make_block(0, Few::none()).expect(rt, "out of memory"))
        }
        Shape::Region => Object::TheRegion(graph.make_region().expect(rt, "out of memory")),
    }
}

/// Puts one object last into another, if it can be a child of it.
pub(crate) fn put(
    rt: &impl Abort,
    graph: &mut Graph<u32, u32, u8>,
    holder: Object,
    o: Object,
) -> bool {
    if !graph.contains(holder) || !graph.contains(o) || !graph.can_insert_at_back(holder, o) {
        return false;
    }
    let done = match (holder, o) {
        (Object::TheOperation(_), Object::TheRegion(_)) => graph.insert_at_back(holder, o),
        (Object::TheRegion(_), Object::TheBlock(_)) => graph.insert_at_back(holder, o),
        (Object::TheBlock(_), Object::TheOperation(_)) => graph.insert_at_back(holder, o),
        _ => return false,
    };
    done.expect(rt, "out of memory");
    true
}

/// Makes the graph of a row.
pub(crate) fn make_scene(rt: &impl Abort, alloc: Global, row: Row) -> Option<Scene> {
    let mut scene = Scene {
        holder: Holder {
            graph: Graph::new(alloc),
        },
        made: Vec::new(alloc),
    };
    for index in 0..row.tree.len() {
        let o = make(rt, &mut scene.holder.graph, row.tree[index].0);
        if let Some(holder) = row.holder(index) {
            let holder = scene.object(holder)?;
            if !put(rt, &mut scene.holder.graph, holder, o) {
                return None;
            }
        }
        if vec::push(&mut scene.made, o).is_err() {
            return None;
        }
    }
    Some(scene)
}
