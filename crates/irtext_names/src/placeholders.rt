//! Replacing a placeholder by the definition.
ghost use Rattle.std.specs.Prelude.{◌≡◌, ◌≢◌, ℕ};
ghost use Rattle.irtext_graph.specs.Back.{IsClosedBelow};
ghost use Rattle.irtext_graph.specs.Erasing.{owner};
ghost use Rattle.irtext_graph.specs.Graph.{IsNew, KeepsOlder};
ghost use Rattle.irtext_graph.specs.Used.{IsDefined, AreAlike};
ghost use Rattle.irtext_names.specs.Placeholders.{IsPlaceholder, Settles};

use irtext_graph::graph::Graph;
use irtext_graph::object::{Defined, Object, Value};

/// Returns the object that owns a value, which is an operation or a block. A block owns itself.
fn owner_of(d: Defined) -> Object
    ensures { result ≡ owner d }
{
    match d {
        Defined::OfValue(Value::Result(p, _)) => Object::TheOperation(p),
        Defined::OfValue(Value::Argument(b, _)) => Object::TheBlock(b),
        Defined::OfBlock(b) => Object::TheBlock(b),
    }
}

/// Replaces the placeholder `d` by `e` in all its uses, and erases the placeholder. Allocates nothing. The time is proportional to the
/// number of uses of `d`.
pub(crate) fn settle<O: Drop, B: Drop, T: Drop>(
    graph: &mut Graph<Option<O>, B, Option<T>>,
    d: Defined,
    e: Defined,
)
    requires placeholder { IsPlaceholder graph.old d }
    requires alive { IsDefined graph.old e }
    requires alike { AreAlike d e }
    requires differ { d ≢ e }
    ensures settles { Settles graph.old graph.new d e }
    ensures kept { (m : ℕ) → IsClosedBelow m graph.old → IsNew m graph.old (owner d) → KeepsOlder m graph.old
        graph.new }
{
    graph.replace_all_uses(d, e);
    graph.keeps_nesting();
    graph.erase(owner_of(d));
}
