//! Inserting and moving an object beside another one, or behind all other children of an object.
ghost use Rattle.std.specs.Prelude.{◌≡◌, ◌≢◌, ◌↔◌, ℕ, Some, IsSome, IsTrue, OnOk, OnErr, length, slice_get};
ghost use Rattle.irtext_graph.specs.Edits.{without};
ghost use Rattle.irtext_graph.specs.Graph.{IsLive, IsInside, IsNew, CanInsert, KeepsOlder, parent, children};
ghost use Rattle.irtext_graph.specs.Objects.{Fits};
ghost use Rattle.irtext_graph_queries.specs.Edits.{InsertsBefore, InsertsAfter, MovesBefore, MovesAfter, MovesToEnd, IsNewAround};

use irtext_graph::graph::Graph;
use irtext_graph::object::Object;
use irtext_memory::OutOfMemory;

/// Whether k is the parent of c.
fn is_child<O: Drop, B: Drop, T: Drop>(graph: &Graph<O, B, T>, k: Object, c: Object) -> bool
    requires { IsLive graph.now c }
    ensures { IsTrue result ↔ parent graph.now c ≡ Some k }
{
    match graph.get_parent(c) {
        Some(p) => p == k,
        None => false,
    }
}

/// Returns the index of a child of k among the children of k other than c.
fn index_without<O: Drop, B: Drop, T: Drop>(
    graph: &Graph<O, B, T>,
    k: Object,
    mark: Object,
    c: Object,
) -> usize
    requires child { parent graph.now mark ≡ Some k }
    requires alive { IsLive graph.now c }
    requires apart { mark ≢ c }
    ensures { slice_get (without c (children graph.now k)) result ≡ Some mark }
{
    graph.keeps_nesting();
    let i = graph.find_index_in_parent(k, mark);
    if !is_child(graph, k, c) {
        return i;
    }
    let j = graph.find_index_in_parent(k, c);
    if j < i {
        return i - 1;
    }
    i
}

/// Returns how many children other than c an object has.
fn count_without<O: Drop, B: Drop, T: Drop>(graph: &Graph<O, B, T>, k: Object, c: Object) -> usize
    requires holder { IsLive graph.now k }
    requires alive { IsLive graph.now c }
    ensures { result ≡ length (without c (children graph.now k)) }
{
    graph.keeps_nesting();
    let count = graph.num_children(k);
    if !is_child(graph, k, c) {
        return count;
    }
    let _index = graph.find_index_in_parent(k, c);
    count - 1
}

/// Makes c, which has no parent, a child of the parent of `mark`, just before `mark`. Fails only when out of memory, and then the graph is
/// unchanged. Its time grows with the children after c.
pub fn insert_before<O: Drop, B: Drop, T: Drop>(
    graph: &mut Graph<O, B, T>,
    mark: Object,
    c: Object,
) -> Result<(), OutOfMemory>
    requires there { IsLive graph.old mark }
    requires inside { IsSome (parent graph.old mark) }
    requires alive { IsLive graph.old c }
    requires alike { (k : _) → Fits k mark → Fits k c }
    requires can { CanInsert graph.old mark c }
    ensures ok { OnOk result (InsertsBefore graph.old graph.new mark c) }
    ensures err { OnErr result (graph.new ≡ graph.old) }
    ensures kept { (m : ℕ) → IsNewAround m graph.old mark → IsNew m graph.old c
        → KeepsOlder m graph.old graph.new }
{
    let Some(k) = graph.get_parent(mark) else {
        unreachable!();
    };
    graph.keeps_nesting();
    let i = graph.find_index_in_parent(k, mark);
    graph.insert_at(k, i, c)
}

/// Makes c, which has no parent, a child of the parent of `mark`, just after `mark`. Fails only when out of memory, and then the graph is
/// unchanged. Its time grows with the children after c.
pub fn insert_after<O: Drop, B: Drop, T: Drop>(
    graph: &mut Graph<O, B, T>,
    mark: Object,
    c: Object,
) -> Result<(), OutOfMemory>
    requires there { IsLive graph.old mark }
    requires inside { IsSome (parent graph.old mark) }
    requires alive { IsLive graph.old c }
    requires alike { (k : _) → Fits k mark → Fits k c }
    requires can { CanInsert graph.old mark c }
    ensures ok { OnOk result (InsertsAfter graph.old graph.new mark c) }
    ensures err { OnErr result (graph.new ≡ graph.old) }
    ensures kept { (m : ℕ) → IsNewAround m graph.old mark → IsNew m graph.old c
        → KeepsOlder m graph.old graph.new }
{
    let Some(k) = graph.get_parent(mark) else {
        unreachable!();
    };
    graph.keeps_nesting();
    let _count = graph.num_children(k);
    let i = graph.find_index_in_parent(k, mark);
    graph.insert_at(k, i + 1, c)
}

/// Removes c from its parent, if it has one, and makes it a child of the parent of `mark`, just before `mark`. Fails only when out of
/// memory, and then the graph is unchanged. Its time grows with the siblings after c, there and here.
pub fn move_before<O: Drop, B: Drop, T: Drop>(
    graph: &mut Graph<O, B, T>,
    mark: Object,
    c: Object,
) -> Result<(), OutOfMemory>
    requires there { IsLive graph.old mark }
    requires inside { IsSome (parent graph.old mark) }
    requires alive { IsLive graph.old c }
    requires alike { (k : _) → Fits k mark → Fits k c }
    requires apart { IsInside graph.old c mark → ⊥ }
    ensures ok { OnOk result (MovesBefore graph.old graph.new mark c) }
    ensures err { OnErr result (graph.new ≡ graph.old) }
    ensures kept { (m : ℕ) → IsNewAround m graph.old mark → IsNew m graph.old c
        → IsNewAround m graph.old c → KeepsOlder m graph.old graph.new }
{
    let Some(k) = graph.get_parent(mark) else {
        unreachable!();
    };
    graph.keeps_nesting();
    let i = index_without(graph, k, mark, c);
    graph.move_to(k, i, c)
}

/// Removes c from its parent, if it has one, and makes it a child of the parent of `mark`, just after `mark`. Fails only when out of
/// memory, and then the graph is unchanged. Its time grows with the siblings after c, there and here.
pub fn move_after<O: Drop, B: Drop, T: Drop>(
    graph: &mut Graph<O, B, T>,
    mark: Object,
    c: Object,
) -> Result<(), OutOfMemory>
    requires there { IsLive graph.old mark }
    requires inside { IsSome (parent graph.old mark) }
    requires alive { IsLive graph.old c }
    requires alike { (k : _) → Fits k mark → Fits k c }
    requires apart { IsInside graph.old c mark → ⊥ }
    ensures ok { OnOk result (MovesAfter graph.old graph.new mark c) }
    ensures err { OnErr result (graph.new ≡ graph.old) }
    ensures kept { (m : ℕ) → IsNewAround m graph.old mark → IsNew m graph.old c
        → IsNewAround m graph.old c → KeepsOlder m graph.old graph.new }
{
    let Some(k) = graph.get_parent(mark) else {
        unreachable!();
    };
    graph.keeps_nesting();
    let _count = count_without(graph, k, c);
    let i = index_without(graph, k, mark, c);
    graph.move_to(k, i + 1, c)
}

/// Removes c from its parent, if it has one, and makes it the last child of k. Fails only when out of memory, and then the graph is
/// unchanged. Its time grows with the siblings after c where it was.
pub fn move_to_end<O: Drop, B: Drop, T: Drop>(
    graph: &mut Graph<O, B, T>,
    k: Object,
    c: Object,
) -> Result<(), OutOfMemory>
    requires holder { IsLive graph.old k }
    requires alive { IsLive graph.old c }
    requires fits { Fits k c }
    requires apart { IsInside graph.old c k → ⊥ }
    ensures ok { OnOk result (MovesToEnd graph.old graph.new k c) }
    ensures err { OnErr result (graph.new ≡ graph.old) }
    ensures kept { (m : ℕ) → IsNew m graph.old k → IsNew m graph.old c → IsNewAround m graph.old c
        → KeepsOlder m graph.old graph.new }
{
    let i = count_without(graph, k, c);
    graph.move_to(k, i, c)
}
