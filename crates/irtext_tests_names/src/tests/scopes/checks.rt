//! The checks of a tracker: each begins with a tracker without names and scopes.
use crate::tests::scopes::script::goes_alike;
use crate::tests::scopes::sizes::holds_all_sizes;
use crate::tests::scopes::steps::Tracker;
use crate::tests::scopes::tracking::has_numbers;
use irtext_scopes::tracker::NameTracker;
use std::alloc::{AllocError, Global};
use std::test::Fail;

/// What is checked.
#[derive(Clone, Copy)]
enum Check {
    Numbers,
    Random,
    Sizes,
}

/// The result of a check.
fn result(tracker: &mut Tracker, alloc: Global, check: Check) -> Result<bool, AllocError> {
    match check {
        Check::Numbers => has_numbers(tracker),
        Check::Random => Ok(goes_alike(tracker, alloc)),
        Check::Sizes => holds_all_sizes(tracker, alloc),
    }
}

/// Whether a check of a new tracker succeeds.
fn holds(alloc: Global, check: Check) -> bool {
    let mut tracker: Tracker = NameTracker::new(alloc);
    let holds = result(&mut tracker, alloc, check).unwrap_or(false);
    drop(tracker);
    holds
}

#[test]
fn names_have_numbers_and_random_calls_their_results(rt: HostRuntime) -> Result<(), Fail> {
    assert!(rt; holds(rt.alloc(), Check::Numbers));
    assert!(rt; holds(rt.alloc(), Check::Random));
    Ok(())
}

#[test]
fn many_names_uses_and_scopes(rt: HostRuntime) -> Result<(), Fail> {
    assert!(rt; holds(rt.alloc(), Check::Sizes));
    Ok(())
}
