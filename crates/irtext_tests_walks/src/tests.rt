//! The rows. Each is a graph, and the order in which its objects come if each comes after what is nested in it. What else is expected of a
//! walk is read off the row: its objects are in the order of the text, each with its depth.

mod made;
mod orders;
mod sides;
mod written;

use crate::tests::made::{Row, Shape, make_scene};
use crate::tests::orders::walks;
use crate::tests::sides::{sides, successors};
use crate::tests::written::written;
use irtext_walks::laws::{use_edits_keep_walks, walks_come_to_all};
use std::alloc::Global;
use std::process::Abort;

const ROWS: &[Row] = &[
    Row {
        tree: &[(Shape::Op, 0)],
        post: &[0],
    },
    Row {
        tree: &[(Shape::Region, 0)],
        post: &[0],
    },
    Row {
        tree: &[
            (Shape::Block, 0),
            (Shape::Op, 1),
            (Shape::Op, 1),
            (Shape::Op, 1),
        ],
        post: &[1, 2, 3, 0],
    },
    Row {
        tree: &[
            (Shape::Op, 0),
            (Shape::Region, 1),
            (Shape::Region, 1),
            (Shape::Block, 2),
            (Shape::Block, 2),
            (Shape::Op, 3),
            (Shape::Region, 1),
        ],
        post: &[1, 3, 5, 4, 2, 6, 0],
    },
    Row {
        tree: &[
            (Shape::Op, 0),
            (Shape::Region, 1),
            (Shape::Block, 2),
            (Shape::Op, 3),
            (Shape::Region, 4),
            (Shape::Block, 5),
            (Shape::Op, 6),
            (Shape::Op, 6),
            (Shape::Block, 5),
            (Shape::Region, 4),
            (Shape::Op, 3),
            (Shape::Block, 2),
            (Shape::Op, 3),
            (Shape::Region, 1),
            (Shape::Block, 2),
        ],
        post: &[6, 7, 5, 8, 4, 9, 3, 10, 2, 12, 11, 1, 14, 13, 0],
    },
];

/// Whether all that is said of a row holds.
fn holds(rt: &impl Abort, alloc: Global, row: Row) -> bool {
    let Some(mut scene) = make_scene(rt, alloc, row) else {
        return false;
    };
    for root in 0..row.tree.len() {
        if !walks(&scene, row, root) || !sides(&scene, row, root) {
            return false;
        }
        if !written(&mut scene, row, root) {
            return false;
        }
    }
    walks_come_to_all(&scene.holder.graph);
    use_edits_keep_walks::<u32, u32, u8>();
    true
}

#[test]
fn walks_come_to_what_rows_say(rt: HostRuntime) {
    for row in ROWS {
        assert!(rt; holds(&rt, rt.alloc(), *row));
    }
}

#[test]
fn successors_are_those_of_the_last_operation(rt: HostRuntime) {
    assert!(rt; successors(&rt, rt.alloc()));
}
