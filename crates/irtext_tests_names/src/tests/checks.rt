//! The checks of names over a graph: each begins with a graph that has no objects, and without names.
ghost use Rattle.irtext_names.specs.Tied.{MatchesGraph};

use crate::tests::memory::{accepts_all, numbers_end, places_end};
use crate::tests::rowed::goes_in_rows;
use crate::tests::rows::{differing_script, placeholder_is_numbered};
use crate::tests::script::goes_alike;
use crate::tests::steps::{Made, Names, Tested};
use irtext_graph::graph::Graph;
use irtext_names::regions::no_names;
use std::alloc::Global;
use std::test::Fail;

/// What is checked.
#[derive(Clone, Copy)]
enum Check {
    PlaceholderIsNumbered,
    GoesInRows,
    GoesAlike,
    AcceptsAll,
    NumbersEnd,
    PlacesEnd,
}

/// The checks of a graph whose counters begin at their first numbers.
const CHECKS: &[Check] = &[
    Check::PlaceholderIsNumbered,
    Check::GoesInRows,
    Check::GoesAlike,
    Check::AcceptsAll,
];

/// Whether a check succeeds.
fn succeeds(names: &mut Names, graph: &mut Tested, alloc: Global, check: Check) -> bool
    requires { MatchesGraph names.old.values names.old.labels graph.old }
{
    match check {
        Check::PlaceholderIsNumbered => placeholder_is_numbered(names, graph, alloc).unwrap_or(
            false,
        ),
        Check::GoesInRows => goes_in_rows(names, graph, alloc).unwrap_or(false),
        Check::GoesAlike => goes_alike(names, graph, alloc),
        Check::AcceptsAll => accepts_all(names, graph) == Some(true),
        Check::NumbersEnd => numbers_end(names, graph) == Some(true),
        Check::PlacesEnd => places_end(names, graph) == Some(true),
    }
}

/// Whether a check of this graph succeeds.
fn holds(mut graph: Tested, alloc: Global, check: Check) -> bool {
    let mut names = no_names(alloc, &graph);
    let holds = succeeds(&mut names, &mut graph, alloc, check);
    drop(names);
    drop(graph);
    holds
}

/// The number of the first check that does not succeed with a graph of its own.
fn failing(alloc: Global) -> Option<usize> {
    for (number, check) in CHECKS.iter().enumerate() {
        if !holds(Graph::new(alloc), alloc, *check) {
            return Some(number);
        }
    }
    None
}

#[test]
fn names_over_a_graph(rt: HostRuntime) -> Result<(), Fail> {
    assert_eq!(rt; failing(rt.alloc()), None);
    Ok(())
}

#[test]
fn scripts_have_their_results(rt: HostRuntime) -> Result<(), Fail> {
    assert_eq!(rt; differing_script(rt.alloc()), None);
    Ok(())
}

#[test]
fn numbers_and_places_are_used_up(rt: HostRuntime) -> Result<(), Fail> {
    let alloc = rt.alloc();
    assert!(rt;
        holds(
            Graph::with_counters(alloc, u64::MAX, 1),
            alloc,
            Check::NumbersEnd
        )
    );
    assert!(rt;
        holds(
            Graph::with_counters(alloc, 0, u32::MAX - 1),
            alloc,
            Check::PlacesEnd
        )
    );
    Ok(())
}
