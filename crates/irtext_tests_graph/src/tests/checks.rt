//! The checks of a graph whose data and types are numbers: each looks at a graph of its own.
use crate::tests::back::{gives_back, gives_regions_back};
use crate::tests::nesting::{holds_many, nests_deep};
use crate::tests::using::uses_often;
use crate::tests::walks::goes_deep;
use irtext_graph::graph::Graph;
use std::alloc::Global;
use std::process::Abort;

/// A graph with a number for each operation, each block and each type.
pub(crate) type Numbers = Graph<u32, u32, u8>;

/// A check of a graph that is empty at first.
#[derive(Clone, Copy)]
enum Check {
    GivesBack,
    GivesRegionsBack,
    HoldsMany,
    UsesOften,
    GoesDeep,
    NestsDeep,
}

/// The checks of a few objects.
const FEW: &[Check] = &[Check::GivesBack, Check::GivesRegionsBack];

/// The checks of a hundred thousand objects.
const MANY: &[Check] = &[Check::HoldsMany, Check::UsesOften];

/// The result of a check.
fn result(rt: &impl Abort, graph: &mut Numbers, alloc: Global, check: Check) -> bool {
    match check {
        Check::GivesBack => gives_back(rt, graph),
        Check::GivesRegionsBack => gives_regions_back(rt, graph),
        Check::HoldsMany => holds_many(rt, graph),
        Check::UsesOften => uses_often(rt, graph, alloc, 100000),
        Check::GoesDeep => goes_deep(rt, graph),
        Check::NestsDeep => nests_deep(rt, graph),
    }
}

/// Whether a check of this graph succeeds.
fn holds(rt: &impl Abort, mut graph: Numbers, alloc: Global, check: Check) -> bool {
    result(rt, &mut graph, alloc, check)
}

/// The number of the first check that does not succeed with an empty graph of its own.
fn failing(rt: &impl Abort, alloc: Global, checks: &[Check]) -> Option<usize> {
    for (number, check) in checks.iter().enumerate() {
        if !holds(rt, Graph::new(alloc), alloc, *check) {
            return Some(number);
        }
    }
    None
}

/// Ends the test if something differs, which has this number.
pub(crate) fn ends(rt: &impl Abort, differing: Option<usize>) {
    assert_eq!(rt; differing, None);
}

#[test]
fn few_objects(rt: HostRuntime) {
    ends(&rt, failing(&rt, rt.alloc(), FEW));
}

#[test]
fn a_hundred_thousand_objects(rt: HostRuntime) {
    ends(&rt, failing(&rt, rt.alloc(), MANY));
}

#[test]
fn a_million_are_met(rt: HostRuntime) {
    ends(&rt, failing(&rt, rt.alloc(), &[Check::GoesDeep]));
}

#[test]
fn a_million_levels(rt: HostRuntime) {
    ends(&rt, failing(&rt, rt.alloc(), &[Check::NestsDeep]));
}
