//! Walks in both orders, one step and past what is nested in an object, from each object of a row in each root.
use crate::tests::made::{Row, Scene, Shape};
use irtext_graph::arena::Ptr;
use irtext_graph::object::{BasicBlock, Object, Operation};
use irtext_walks::iter::Walk;
use irtext_walks::postorder::{PostOrder, first_in_postorder, next_in_postorder};
use irtext_walks::preorder::{PreOrder, after_nested};
use irtext_walks::walks::{BlockWalks, OperationWalks};

/// A root and an object in it, with their indices.
#[derive(Clone, Copy)]
pub(crate) struct Spot {
    pub(crate) root: Object,
    pub(crate) root_index: usize,
    pub(crate) at: Object,
    pub(crate) index: usize,
}

/// The object of a row that comes in a root from an index on, if it is of the kind; any kind for none.
fn from(row: Row, root: usize, index: usize, shape: Option<Shape>) -> Option<usize> {
    for at in index..row.end(root) {
        if row.is(at, shape) {
            return Some(at);
        }
    }
    None
}

/// The same in postorder: what comes in a root from a place of the row's postorder on.
fn post_from(row: Row, root: usize, place: usize, shape: Option<Shape>) -> Option<usize> {
    for at in place..row.post.len() {
        let index = row.post[at];
        if root <= index && index < row.end(root) && row.is(index, shape) {
            return Some(index);
        }
    }
    None
}

/// The place after an object in the row's postorder.
fn place_after(row: Row, index: usize) -> usize {
    for at in 0..row.post.len() {
        if row.post[at] == index {
            return at + 1;
        }
    }
    0
}

/// Whether a walk goes from an object to the ones that the row says, in both orders, and past what is nested in the object.
fn goes_on(scene: &Scene, row: Row, spot: Spot) -> bool {
    if !scene.is_inside(spot.root, spot.at) {
        return false;
    }
    let mut next = PreOrder {
        root: spot.root,
        at: Some(spot.at),
    };
    let mut past = next;
    let mut post = PostOrder {
        root: spot.root,
        at: Some(spot.at),
    };
    let root = spot.root_index;
    let stepped = next.next(&scene.holder);
    let skipped = past.skip(&scene.holder);
    let turned = post.next(&scene.holder);
    let graph = &scene.holder.graph;
    if after_nested(graph, spot.root, spot.at) != skipped
        || next_in_postorder(graph, spot.root, spot.at) != turned
    {
        return false;
    }
    scene.is(stepped, from(row, root, spot.index.saturating_add(1), None))
        && scene.is(skipped, from(row, root, row.end(spot.index), None))
        && scene.is(
            turned,
            post_from(row, root, place_after(row, spot.index), None),
        )
}

/// The same for the steps from an operation to operations.
fn goes_on_to_ops(scene: &Scene, row: Row, spot: Spot) -> bool {
    let (Object::TheOperation(root), Object::TheOperation(op)) = (spot.root, spot.at) else {
        return true;
    };
    if !scene.is_inside(spot.root, spot.at) {
        return false;
    }
    let place = place_after(row, spot.index);
    let shape = Some(Shape::Op);
    let next = root.next_operation(&scene.holder, op);
    let past = root.after_nested(&scene.holder, op);
    let post = root.next_operation_in_postorder(&scene.holder, op);
    scene.is_op(
        next,
        from(row, spot.root_index, spot.index.saturating_add(1), shape),
    ) && scene.is_op(past, from(row, spot.root_index, row.end(spot.index), shape))
        && scene.is_op(post, post_from(row, spot.root_index, place, shape))
}

/// The same for the steps from a block to blocks, in an operation.
fn goes_on_to_blocks(scene: &Scene, row: Row, spot: Spot) -> bool {
    let (Object::TheOperation(root), Object::TheBlock(block)) = (spot.root, spot.at) else {
        return true;
    };
    if !scene.is_inside(spot.root, spot.at) {
        return false;
    }
    let place = place_after(row, spot.index);
    let shape = Some(Shape::Block);
    let next = root.next_block_inside(&scene.holder, block);
    let past = root.block_after_nested(&scene.holder, block);
    let post = root.next_block_in_postorder(&scene.holder, block);
    scene.is_block(
        next,
        from(row, spot.root_index, spot.index.saturating_add(1), shape),
    ) && scene.is_block(past, from(row, spot.root_index, row.end(spot.index), shape))
        && scene.is_block(post, post_from(row, spot.root_index, place, shape))
}

/// Whether walks over a root begin with the objects that the row says.
fn begins(scene: &Scene, row: Row, root: Object, index: usize) -> bool {
    if !scene.holder.graph.contains(root) {
        return false;
    }
    let first = PreOrder::new(root);
    let post = PostOrder::new(&scene.holder, root);
    if post.at != Some(first_in_postorder(&scene.holder.graph, root)) {
        return false;
    }
    scene.is(first.at, Some(index)) && scene.is(post.at, post_from(row, index, 0, None))
}

/// The same for the operations and the blocks in an operation.
fn begins_with_kinds(scene: &Scene, row: Row, root: Object, index: usize) -> bool {
    let Object::TheOperation(op) = root else {
        return true;
    };
    if !scene.holder.graph.contains(root) {
        return false;
    }
    let holder = &scene.holder;
    let (ops, blocks) = (Some(Shape::Op), Some(Shape::Block));
    scene.is_op(op.first_operation(holder), from(row, index, index, ops))
        && scene.is_op(
            op.first_operation_in_postorder(holder),
            post_from(row, index, 0, ops),
        )
        && scene.is_block(
            op.first_block_inside(holder),
            from(row, index, index, blocks),
        )
        && scene.is_block(
            op.first_block_in_postorder(holder),
            post_from(row, index, 0, blocks),
        )
}

/// Whether the iterators over an operation give as many operations and blocks as the row has.
fn counts(scene: &Scene, row: Row, root: Object, index: usize) -> bool {
    let Object::TheOperation(op) = root else {
        return true;
    };
    if !scene.holder.graph.contains(root) {
        return false;
    }
    let (mut ops, mut post_ops, mut blocks, mut post_blocks) = (0usize, 0usize, 0usize, 0usize);
    for _ in op.walk(&scene.holder) {
        ops = ops.saturating_add(1);
    }
    for _ in op.walk_postorder(&scene.holder) {
        post_ops = post_ops.saturating_add(1);
    }
    for _ in op.walk_blocks(&scene.holder) {
        blocks = blocks.saturating_add(1);
    }
    for _ in op.walk_blocks_postorder(&scene.holder) {
        post_blocks = post_blocks.saturating_add(1);
    }
    let wanted = (
        number_of(row, index, Shape::Op),
        number_of(row, index, Shape::Block),
    );
    wanted == (ops, blocks) && wanted == (post_ops, post_blocks)
}

/// How many objects of a kind the row has in one of its objects.
pub(crate) fn number_of(row: Row, index: usize, shape: Shape) -> usize {
    let mut count = 0usize;
    for at in index..row.end(index) {
        if row.is(at, Some(shape)) {
            count = count.saturating_add(1);
        }
    }
    count
}

/// Whether walks over a root come to what the row says.
pub(crate) fn walks(scene: &Scene, row: Row, index: usize) -> bool {
    let Some(root) = scene.object(index) else {
        return false;
    };
    for at_index in index..row.end(index) {
        let Some(at) = scene.object(at_index) else {
            return false;
        };
        let spot = Spot {
            root,
            root_index: index,
            at,
            index: at_index,
        };
        if !goes_on(scene, row, spot)
            || !goes_on_to_ops(scene, row, spot)
            || !goes_on_to_blocks(scene, row, spot)
        {
            return false;
        }
    }
    begins(scene, row, root, index)
        && begins_with_kinds(scene, row, root, index)
        && counts(scene, row, root, index)
}
