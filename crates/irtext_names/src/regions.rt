//! Entering and leaving regions. The graph is unchanged, and waiting names stay tied to their placeholders. Each call is a step of the
//! machine that processes events (`Names.History`).
ghost use Rattle.std.specs.Prelude.{◌≡◌, ◌<◌, ℕ, List, [], length, slice_get, Some, None, Err, OnOk, IfSome, IfNone};
ghost use Rattle.irtext_base.specs.Text.{Text};
ghost use Rattle.irtext_grammar.specs.Names.History as history;
ghost use Rattle.irtext_grammar.specs.Names.History.{enter, leave, start};
ghost use Rattle.irtext_grammar.specs.Names.Script.{NotIsolated, UnresolvedReference};
ghost use Rattle.irtext_graph.specs.declared.arena.Ptr.{Ptr};
ghost use Rattle.irtext_graph.specs.declared.object.BasicBlock.{BasicBlock};
ghost use Rattle.irtext_scopes.specs.Scopes.{outer};
ghost use Rattle.irtext_scopes.specs.Tracker.{EntersRegion, left, unresolved};
ghost use Rattle.irtext_scopes.specs.declared.tracker.EnterFault.{EnterFault};
ghost use Rattle.irtext_names.specs.Linked.{NamesAgree, Takes, FailsBy, nothing_made};
ghost use Rattle.irtext_names.specs.Tied.{MatchesGraph, ArePending, NoneIsLeft, StaysPending};

use irtext_graph::arena::Ptr;
use irtext_graph::graph::Graph;
use irtext_graph::object::{BasicBlock, Value};
use irtext_scopes::tracker::{EnterFault, NameTracker};
use std::alloc::Global;

/// Returns a tracker without names and with no region open, for a parse over this graph that begins now: no name waits for a definition,
/// and no object has been created for this parse. Allocates nothing.
pub fn no_names<O: Drop, B: Drop, T: Drop>(
    alloc: Global,
    graph: &Graph<Option<O>, B, Option<T>>,
) -> NameTracker<Value, Ptr<BasicBlock>>
    ensures names { result.names ≡ [] }
    ensures values { result.values ≡ [] }
    ensures labels { result.labels ≡ [] }
    ensures tied { MatchesGraph result.values result.labels graph.now }
    ensures waiting { ArePending graph.now.made [] result.values result.labels graph.now }
    ensures agreed { NamesAgree result graph.now nothing_made [] start }
{
    let _made = graph.made();
    NameTracker::new(alloc)
}

/// Enters a region: opens a scope of labels, and one of values if the region's operation is isolated. Fails with
/// `TopLevelOpRegionNotIsolatedFromAbove` if the operation is not isolated and no scope of values is open, and with `Memory` if an
/// allocation fails. On an error the scopes are unchanged.
pub fn enter_region<O: Drop, B: Drop, T: Drop>(
    names: &mut NameTracker<Value, Ptr<BasicBlock>>,
    graph: &Graph<Option<O>, B, Option<T>>,
    isolated: bool,
) -> Result<(), EnterFault>
    requires { MatchesGraph names.old.values names.old.labels graph.now }
    ensures region { EntersRegion isolated result names.old.values names.new.values names.old.labels
        names.new.labels }
    ensures names { names.new.names ≡ names.old.names }
    ensures tied { MatchesGraph names.new.values names.new.labels graph.now }
    ensures waiting { StaysPending names.old names.new graph.now graph.now }
    ensures enters { OnOk result (Takes (enter isolated) (history.entered isolated) names.old names.new
        graph.now) }
    ensures shut { result ≡ Err EnterFault.TopLevelOpRegionNotIsolatedFromAbove
        → FailsBy (enter isolated) names.old graph.now (record { cause = NotIsolated; at = None }) }
{
    let _graph = graph;
    names.enter_region(isolated)
}

/// Leaves a region: closes its scope of values, if the region's operation is isolated, and its scope of labels. Returns the number of the
/// first name without a definition: of the values that are closed, then of the labels, each in the order of first mention. The scopes are
/// closed also in this case. If it returns `None`, no placeholder of the region is left, and none at all if no scope is open any more.
/// Allocates nothing.
pub fn exit_region<O: Drop, B: Drop, T: Drop>(
    names: &mut NameTracker<Value, Ptr<BasicBlock>>,
    graph: &Graph<Option<O>, B, Option<T>>,
    isolated: bool,
) -> Option<usize>
    requires { MatchesGraph names.old.values names.old.labels graph.now }
    ensures first { result ≡ unresolved isolated names.old.values names.old.labels }
    ensures known { IfSome result (λ n. n < length names.old.names) }
    ensures values { names.new.values ≡ left isolated names.old.values }
    ensures labels { names.new.labels ≡ outer names.old.labels }
    ensures names { names.new.names ≡ names.old.names }
    ensures tied { MatchesGraph names.new.values names.new.labels graph.now }
    ensures waiting { IfNone result (StaysPending names.old names.new graph.now graph.now) }
    ensures none_left { IfNone result ((m : ℕ) (own : List (Ptr BasicBlock)) → ArePending m own
        names.old.values names.old.labels graph.now
        → names.new.values ≡ [] → names.new.labels ≡ [] → NoneIsLeft m own graph.now) }
    ensures leaves { IfNone result ((a : ℕ) → Takes (leave isolated a) (history.left isolated) names.old
        names.new graph.now) }
    ensures unresolved { IfSome result (λ n. (a : ℕ) → (t : Text) × (slice_get names.old.names n ≡ Some t)
        × FailsBy (leave isolated a) names.old graph.now
        (record { cause = UnresolvedReference t; at = Some a })) }
{
    let _graph = graph;
    names.exit_region(isolated)
}
