//! Which condition of an insertion or a move of an object does not hold, if there is one.
ghost use Rattle.std.specs.Prelude.{◌≤◌, ◌≡◌, ℕ, IfSome, IfNone, None, length};
ghost use Rattle.irtext_checked.specs.Placing.{CanHold, CanStandBeside, FailsToHold, FailsToInsert, FailsToInsertAt, FailsToMoveBeside, FailsToInsertBeside};
ghost use Rattle.irtext_graph.specs.Graph.{parent, children};

use crate::unmet::Unmet;
use irtext_graph::graph::Graph;
use irtext_graph::object::Object;

/// The first condition under which an object cannot be moved into another one.
pub(crate) fn unmet_to_hold<O: Drop, B: Drop, T: Drop>(
    graph: &Graph<O, B, T>,
    holder: Object,
    item: Object,
) -> Option<Unmet>
    ensures some { IfSome result (FailsToHold graph.now holder item) }
    ensures none { IfNone result (CanHold graph.now holder item) }
{
    if !graph.contains(holder) {
        return Some(Unmet::HolderGone);
    }
    if !graph.contains(item) {
        return Some(Unmet::ObjectGone);
    }
    if graph.is_inside(item, holder) {
        return Some(Unmet::InItself);
    }
    None
}

/// The first condition under which an object cannot be inserted into another one.
#[tactic(auto, using(crate::proofs::Unmets::no_insertion))]
pub(crate) fn unmet_to_insert<O: Drop, B: Drop, T: Drop>(
    graph: &Graph<O, B, T>,
    holder: Object,
    item: Object,
) -> Option<Unmet>
    ensures some { IfSome result (FailsToInsert graph.now holder item) }
    ensures none { IfNone result (CanHold graph.now holder item) }
    ensures free { IfNone result (parent graph.now item ≡ None) }
{
    if let Some(unmet) = unmet_to_hold(graph, holder, item) {
        return Some(unmet);
    }
    if graph.get_parent(item).is_some() {
        return Some(Unmet::HasParent);
    }
    None
}

/// The first condition under which an object cannot be inserted into another one at an index.
#[tactic(auto, using(crate::proofs::Unmets::no_insertion_at))]
pub(crate) fn unmet_to_insert_at<O: Drop, B: Drop, T: Drop>(
    graph: &Graph<O, B, T>,
    holder: Object,
    index: usize,
    item: Object,
) -> Option<Unmet>
    ensures some { IfSome result (FailsToInsertAt graph.now holder index item) }
    ensures none { IfNone result (CanHold graph.now holder item) }
    ensures free { IfNone result (parent graph.now item ≡ None) }
    ensures within { IfNone result (index ≤ length (children graph.now holder)) }
{
    if let Some(unmet) = unmet_to_insert(graph, holder, item) {
        return Some(unmet);
    }
    if index > graph.num_children(holder) {
        return Some(Unmet::NoIndex);
    }
    None
}

/// The first condition under which an object cannot be moved to beside another one.
pub(crate) fn unmet_to_move_beside<O: Drop, B: Drop, T: Drop>(
    graph: &Graph<O, B, T>,
    mark: Object,
    item: Object,
) -> Option<Unmet>
    ensures some { IfSome result (FailsToMoveBeside graph.now mark item) }
    ensures none { IfNone result (CanStandBeside graph.now mark item) }
{
    if !graph.contains(mark) {
        return Some(Unmet::MarkGone);
    }
    if !graph.contains(item) {
        return Some(Unmet::ObjectGone);
    }
    if graph.get_parent(mark).is_none() {
        return Some(Unmet::MarkAlone);
    }
    if graph.is_inside(item, mark) {
        return Some(Unmet::InItself);
    }
    None
}

/// The first condition under which an object cannot be inserted beside another one.
#[tactic(auto, using(crate::proofs::Unmets::no_insertion_beside))]
pub(crate) fn unmet_to_insert_beside<O: Drop, B: Drop, T: Drop>(
    graph: &Graph<O, B, T>,
    mark: Object,
    item: Object,
) -> Option<Unmet>
    ensures some { IfSome result (FailsToInsertBeside graph.now mark item) }
    ensures none { IfNone result (CanStandBeside graph.now mark item) }
    ensures free { IfNone result (parent graph.now item ≡ None) }
{
    if let Some(unmet) = unmet_to_move_beside(graph, mark, item) {
        return Some(unmet);
    }
    if graph.get_parent(item).is_some() {
        return Some(Unmet::HasParent);
    }
    None
}
