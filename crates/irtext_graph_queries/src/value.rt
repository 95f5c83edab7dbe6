//! The uses of a value, and their replacement by another value.
ghost use Rattle.std.specs.Prelude.{◌≡◌, ◌↔◌, ℕ, IfOk, IsTrue};
ghost use Rattle.irtext_graph.specs.declared.object.Defined.TheVariants.{OfValue};
ghost use Rattle.irtext_graph.specs.declared.object.Site.{Site};
ghost use Rattle.irtext_graph.specs.Chained.{Lists, Counts};
ghost use Rattle.irtext_graph.specs.Graph.{KeepsOlder};
ghost use Rattle.irtext_graph.specs.Parts.{IsDefinedValue};
ghost use Rattle.irtext_graph.specs.Used.{IsUse, Replaces, IsUnusedBelow, user};

use irtext_graph::arena::Ptr;
use irtext_graph::held::HasGraph;
use irtext_graph::object::{Defined, Operation, Site, Value};
use irtext_memory::OutOfMemory;

/// The operation of a use.
pub trait UseSite: Sized {
    ghost use Rattle.irtext_graph.specs.declared.object.Site.{Site};

    // the use: an operand or a successor of an operation
    ghost site: { Self → Site };

    /// Returns the operation that has this operand or successor.
    fn user(self) -> Ptr<Operation>
        ensures { result ≡ user (site self) };
}

impl UseSite for Site {
    ghost site = { λ u. u };

    fn user(self) -> Ptr<Operation> {
        match self {
            Site::AtOperand(p, _) => p,
            Site::AtSuccessor(p, _) => p,
        }
    }
}

/// The uses of a value, in any holder of a graph. The value must be live in the graph.
pub trait ValueUses: Sized {
    ghost use Rattle.irtext_graph.specs.declared.object.Value.{Value};

    // the value
    ghost value: { Self → Value };

    /// Whether the value is an operand of some operation.
    fn has_use<C: HasGraph>(self, ctx: &C) -> bool
        requires { IsDefinedValue (C.graph ctx.now) (value self) }
        ensures { IsTrue result ↔ (u : Site) × IsUse (C.graph ctx.now) (OfValue (value self)) u };

    /// Returns how many operands are the value, or `usize::MAX` if there are more.
    fn num_uses<C: HasGraph>(self, ctx: &C) -> usize
        requires { IsDefinedValue (C.graph ctx.now) (value self) }
        ensures { Counts (IsUse (C.graph ctx.now) (OfValue (value self))) result };

    /// Returns the operands that are the value, each once, in an unspecified order. Fails only when out of memory.
    fn uses<C: HasGraph>(self, ctx: &C) -> Result<Vec<Site>, OutOfMemory>
        requires { IsDefinedValue (C.graph ctx.now) (value self) }
        ensures { IfOk result (λ us. Lists (IsUse (C.graph ctx.now) (OfValue (value self))) us.items) };

    /// Replaces the value by the other one in each operand that is the value. All else is unchanged. Allocates nothing.
    fn replace_all_uses<C: HasGraph>(self, ctx: &mut C, other: Value)
        requires alive { IsDefinedValue (C.graph ctx.old) (value self) }
        requires alive_too { IsDefinedValue (C.graph ctx.old) other }
        ensures replaces { Replaces (C.graph ctx.old) (C.graph ctx.new) (OfValue (value self))
            (OfValue other) }
        ensures kept { (m : ℕ) → IsUnusedBelow m (C.graph ctx.old) (OfValue (value self))
            → KeepsOlder m (C.graph ctx.old) (C.graph ctx.new) }
        ensures rest { ctx.new ≡ C.with_graph ctx.old (C.graph ctx.new) };
}

impl ValueUses for Value {
    ghost value = { λ v. v };

    fn has_use<C: HasGraph>(self, ctx: &C) -> bool {
        ctx.graph().has_use(Defined::OfValue(self))
    }

    fn num_uses<C: HasGraph>(self, ctx: &C) -> usize {
        ctx.graph().num_uses(Defined::OfValue(self))
    }

    fn uses<C: HasGraph>(self, ctx: &C) -> Result<Vec<Site>, OutOfMemory> {
        ctx.graph().uses(Defined::OfValue(self))
    }

    fn replace_all_uses<C: HasGraph>(self, ctx: &mut C, other: Value) {
        let (value, other) = (Defined::OfValue(self), Defined::OfValue(other));
        ctx.graph_mut().replace_all_uses(value, other);
    }
}
