//! Tables of worked rows, each over a graph of its own, and the graphs.
use crate::tests::checks::{Numbers, ends};
use crate::tests::rows::Row::*;
use crate::tests::rows::{Row, Worked};
use crate::tests::script::Kind;
use crate::tests::script::Kind::{Block, Operation, Region};
use irtext_graph::graph::Graph;
use std::alloc::Global;
use std::process::Abort;

/// An operation with a region with a block with two operations: an object around the block cannot be put into it, nor one that is in it
/// already. The first operation is detached, and left when the block is erased.
const NESTS: &[Row] = &[
    Make(Operation, 1, 0, 0),
    Make(Region, 0, 0, 0),
    Make(Block, 2, 0, 0),
    Make(Operation, 3, 0, 0),
    Make(Operation, 4, 0, 0),
    At(2, 1, 1),
    At(4, 3, 1),
    Put(1, 2, true),
    Put(0, 1, true),
    Put(2, 3, true),
    Put(2, 4, true),
    Put(2, 0, false),
    Put(2, 3, false),
    Child(2, 3, 0, true),
    Child(2, 4, 1, true),
    Inside(0, 4, true),
    Inside(3, 4, false),
    Unlink(3),
    Child(2, 4, 0, true),
    Child(2, 3, 0, false),
    Live(5, 5),
    Erase(2, true),
    Gone(4),
    Own(3, 3, 0),
    Live(3, 5),
];

/// A block with two arguments, an operation with a result, and one that uses all of these, and the block twice.
const PARTS: &[Row] = &[
    Make(Block, 7, 10, 2),
    Make(Operation, 8, 12, 1),
    Operands(0, 1, 2),
    Operands(1, 0, 1),
    Operands(0, 1, 2),
    Successor(0),
    Successor(0),
    Make(Operation, 9, 0, 0),
    Values(0, 2, 10, 0),
    Values(1, 1, 12, 2),
    NoValue((0, 2)),
    NoValue((2, 0)),
    Own(0, 7, 2),
    Own(1, 8, 1),
    Uses(1),
    Operands(0, 1, 2),
    Operands(1, 0, 1),
    Operands(0, 1, 2),
    Successor(0),
    Successor(0),
    Uses(2),
];

/// How many results an operation has, and the number of the first, if those of all rows are made one after the other in one graph.
const LENGTHS: &[(usize, u64)] = &[(1, 0), (2, 1), (3, 3), (4, 6)];

/// An operation with so many results, of numbers from this one on, and one that uses them all: the first is erased after the second, and not
/// before it.
fn with_results(count: usize, first: u64) -> [Row; 10] {
    [
        Make(Operation, 0, 0, count),
        Operands(0, 0, count),
        Make(Operation, 0, 0, 0),
        Own(0, 0, count),
        Values(0, count, 0, first),
        Operands(0, 0, count),
        Uses(1),
        Erase(0, false),
        Erase(1, true),
        Erase(0, true),
    ]
}

/// An operation without results, and one that uses nothing: they are erased in either order.
const NO_RESULTS: &[Row] = &[
    Make(Operation, 0, 0, 0),
    Make(Operation, 0, 0, 0),
    Own(0, 0, 0),
    Uses(1),
    Erase(1, true),
    Erase(0, true),
];

/// The data of an operation and of a block are written, and everything else is unchanged.
const WRITES: &[Row] = &[
    Make(Block, 1, 10, 1),
    Operands(0, 0, 1),
    Successor(0),
    Make(Operation, 2, 11, 1),
    Write(1, 20),
    Write(0, 10),
    Own(1, 20, 1),
    Own(0, 10, 1),
    Operands(0, 0, 1),
    Successor(0),
    Uses(1),
];

/// Two uses of a result and one of a block, and then the other result in place of the first.
const USES: &[Row] = &[
    Make(Operation, 0, 7, 2),
    Make(Block, 0, 0, 0),
    Operands(0, 0, 1),
    Make(Operation, 0, 0, 0),
    Operands(0, 0, 1),
    Make(Operation, 0, 0, 0),
    Successor(1),
    Make(Operation, 0, 0, 0),
    OnlyUse(1, 4),
    Used((0, 0), 2),
    Used((0, 1), 0),
    Replace((0, 0), (0, 1)),
    Replace((0, 1), (0, 1)),
    Used((0, 0), 0),
    Used((0, 1), 2),
];

/// The walks over two levels, one in the other, with an operation before the inner one, one in it, and one after it; and again after the
/// data of the inner level are written.
const WALKS: &[Row] = &[
    Make(Operation, 1, 0, 0),
    Make(Region, 0, 0, 0),
    Make(Block, 2, 0, 0),
    Put(0, 1, true),
    Put(1, 2, true),
    Make(Operation, 4, 0, 0),
    Make(Region, 0, 0, 0),
    Make(Block, 5, 0, 0),
    Put(3, 4, true),
    Put(4, 5, true),
    Make(Operation, 3, 0, 0),
    Put(2, 6, true),
    Put(2, 3, true),
    Make(Operation, 6, 0, 0),
    Put(5, 7, true),
    Make(Operation, 8, 0, 0),
    Put(2, 8, true),
    Walk(0, 102340568, 9),
    Walk(2, 2340568, 7),
    Walk(3, 4056, 4),
    Overwrite(3),
    Walk(0, 102370778, 9),
];

/// Values that are made together, and those of an operation and of a block, have different numbers.
const NUMBERS: &[Row] = &[
    Make(Operation, 1, 5, 2),
    Make(Block, 2, 7, 1),
    Apart((0, 0), (0, 1), true),
    Apart((0, 1), (1, 0), true),
    Apart((1, 0), (0, 0), true),
    Apart((0, 0), (0, 0), false),
];

/// The last number of a value is used, the next value fails and nothing changes, and an object that needs none is made.
const LAST_NUMBER: &[Row] = &[
    Make(Operation, 1, 5, 1),
    Values(0, 1, 5, 18446744073709551614),
    Refuse(Block),
    Make(Block, 3, 0, 0),
    Live(2, 2),
];

/// The last place is used, the next object fails and nothing changes, and a place that is freed is used again.
const LAST_PLACE: &[Row] = &[
    Next(4294967294, 1),
    Refuse(Region),
    Erase(0, true),
    Next(4294967294, 2),
];

// the place that was freed last is used next, with its next generation
const PLACES: &[Row] = &[
    Next(1, 1),
    Next(2, 1),
    Next(3, 1),
    Erase(1, true),
    Next(2, 2),
    Erase(0, true),
    Erase(2, true),
    Next(3, 2),
    Next(1, 2),
    Next(4, 1),
    Erase(3, true),
    Erase(6, true),
    Erase(4, true),
    Next(3, 3),
    Next(4, 2),
    Next(2, 3),
    Next(5, 1),
    Clear,
    Next(5, 2),
    Next(2, 4),
    Next(4, 3),
    Next(3, 4),
    Next(1, 3),
    Next(6, 1),
];

// places of regions, of which some are erased in between
const REGIONS: &[Row] = &[
    Next(1, 1),
    Next(2, 1),
    Erase(0, true),
    Next(1, 2),
    Next(3, 1),
    Erase(2, true),
    Erase(1, true),
    Next(2, 2),
    Next(1, 3),
    Next(4, 1),
];

/// The tables that begin with an empty graph, and the kind of their objects.
const TABLES: &[(Kind, &[Row])] = &[
    (Operation, NESTS),
    (Operation, PARTS),
    (Operation, WRITES),
    (Operation, USES),
    (Operation, WALKS),
    (Operation, NUMBERS),
    (Region, REGIONS),
];

/// The number of the first row of a table that does not hold for this graph.
fn failing(
    rt: &impl Abort,
    alloc: Global,
    graph: Numbers,
    first: u64,
    table: (Kind, &[Row]),
) -> Option<usize> {
    let mut worked = Worked::new(alloc, graph, first);
    worked.failing(rt, table.0, table.1)
}

/// The same for places of each kind in one graph.
fn failing_place(rt: &impl Abort, alloc: Global, graph: Numbers) -> Option<usize> {
    let mut worked = Worked::new(alloc, graph, 1);
    let operations = worked.failing(rt, Operation, PLACES);
    let blocks = worked.failing(rt, Block, PLACES);
    let regions = worked.failing(rt, Region, PLACES);
    operations.or(blocks).or(regions)
}

/// The same for operations of every length in one graph.
fn failing_length(rt: &impl Abort, alloc: Global, graph: Numbers) -> Option<usize> {
    let mut worked = Worked::new(alloc, graph, 1);
    let mut differing = worked.failing(rt, Operation, NO_RESULTS);
    for length in LENGTHS {
        let rows = with_results(length.0, length.1);
        differing = differing.or(worked.failing(rt, Operation, &rows));
    }
    differing
}

#[test]
fn rows_hold(rt: HostRuntime) {
    for table in TABLES {
        ends(
            &rt,
            failing(&rt, rt.alloc(), Graph::new(rt.alloc()), 1, *table),
        );
    }
    ends(&rt, failing_place(&rt, rt.alloc(), Graph::new(rt.alloc())));
    ends(&rt, failing_length(&rt, rt.alloc(), Graph::new(rt.alloc())));
}

#[test]
fn counters_are_full(rt: HostRuntime) {
    let graph = Graph::with_counters(rt.alloc(), u64::MAX - 1, 1);
    ends(
        &rt,
        failing(&rt, rt.alloc(), graph, 1, (Block, LAST_NUMBER)),
    );
    let graph = Graph::with_counters(rt.alloc(), 0, u32::MAX - 1);
    ends(
        &rt,
        failing(&rt, rt.alloc(), graph, 4294967294, (Region, LAST_PLACE)),
    );
}
