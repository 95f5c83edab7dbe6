//! What an operation is made from: what the pieces of its text gave.
ghost use Rattle.std.specs.Prelude.{◌≡◌};
ghost use Rattle.irtext_names.specs.Gathered.{IsNothing};

use irtext_base::seed::Seed;
use irtext_context::base::block::BlockData;
use irtext_context::base::operation::OperationData;
use irtext_context::base::{AttributeDict, BasicBlock, Ptr};
use irtext_few::Few;
use irtext_graph::graph::Graph;
use irtext_graph::object::Value;
use std::alloc::Global;

/// The graph of a context.
pub type Objects<T, A> = Graph<Option<OperationData<A>>, BlockData<A>, Option<T>>;

/// The operands or the successors of an operation: those with a place of their own, each with its place, and a list that follows all of
/// these.
#[derive(Drop)]
pub struct Placed<X> {
    pub single: Vec<(usize, X)>,
    pub list: Vec<X>,
}

/// What the pieces of an operation gave.
#[derive(Drop)]
pub struct Gathered<T, A> {
    pub operands: Placed<Value>,
    pub successors: Placed<Ptr<BasicBlock>>,
    /// The types of results, each with its place.
    pub types: Vec<(usize, T)>,
    /// The last list of types.
    pub listed: Few<T>,
    pub attributes: AttributeDict<A>,
}

/// Returns an empty value; the seed is that of its attributes. Allocates nothing.
pub fn nothing<T: Drop, A: Drop>(alloc: Global, seed: Seed) -> Gathered<T, A>
    ensures { IsNothing result }
{
    Gathered {
        operands: Placed {
            single: Vec::new(alloc),
            list: Vec::new(alloc),
        },
        successors: Placed {
            single: Vec::new(alloc),
            list: Vec::new(alloc),
        },
        types: Vec::new(alloc),
        listed: Few::none(),
        attributes: AttributeDict::with_seed(alloc, seed),
    }
}

/// Returns the attributes, and ends the rest.
pub fn attributes_of<T: Drop, A: Drop>(gathered: Gathered<T, A>) -> AttributeDict<A>
    ensures { result ≡ gathered.attributes }
{
    gathered.attributes
}
