//! Whether values and blocks are in a context.
ghost use Rattle.std.specs.Prelude.{◌↔◌, IsTrue};
ghost use Rattle.irtext_graph.specs.Parts.{IsDefinedValue};
ghost use Rattle.irtext_context.specs.Made.{AreLiveBlocks, AreDefinedValues};
ghost use Rattle.irtext_checked.specs.Types.{IsContainedValue, AreContainedValues};

use irtext_base::text::{AttrText, IrText};
use irtext_context::base::{BasicBlock, Context, Ptr};
use irtext_graph::held::HasGraph;
use irtext_graph::object::Value;
use irtext_graph_queries::contained::contains_blocks;

/// Whether values and blocks are in a context: what an operation has to use. Allocates nothing.
pub trait ContainsParts {
    ghost use Rattle.irtext_context.specs.Context.{ContextView};

    type T;

    type A;

    // the context
    ghost context: { Self → ContextView Self.T Self.A };

    /// Whether the value is in the context: its operation or block is live, and has a result or an argument with this index, which is no
    /// placeholder. So it has a type, and it is defined, as calls on its uses require.
    fn contains_value(&self, value: Value) -> bool
        ensures contained { IsTrue result ↔ IsContainedValue (context self.now) value }
        ensures defined { IsTrue result → IsDefinedValue (context self.now).graph value };

    /// Whether each of these values is in the context, as `contains_value` tests it. So each is defined, as `Operation::new` requires of its
    /// operands.
    fn contains_values(&self, values: &[Value]) -> bool
        ensures contained { IsTrue result ↔ AreContainedValues (context self.now) values.now }
        ensures defined { IsTrue result → AreDefinedValues (context self.now) values.now };

    /// Whether each of these blocks is live, as `Operation::new` requires of its successors.
    fn contains_blocks(&self, blocks: &[Ptr<BasicBlock>]) -> bool
        ensures { IsTrue result ↔ AreLiveBlocks (context self.now) blocks.now };
}

impl<T: IrText<A>, A: AttrText<A>> ContainsParts for Context<T, A> {
    type T = T;

    type A = A;

    ghost context = { λ c. c };

    fn contains_value(&self, value: Value) -> bool {
        let graph = self.graph();
        graph.contains_value(value) && graph.type_of(value).is_some()
    }

    fn contains_values(&self, values: &[Value]) -> bool {
        for value in values {
            if !self.contains_value(*value) {
                return false;
            }
        }
        true
    }

    fn contains_blocks(&self, blocks: &[Ptr<BasicBlock>]) -> bool {
        contains_blocks(self.graph(), blocks)
    }
}
