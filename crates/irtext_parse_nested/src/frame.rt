//! The frames of the parser of nested text: an operation, a region or a block that was begun.

use irtext_base::base::OpId;
use irtext_base::parsable::Place;
use irtext_context::base::{BasicBlock, Operation, Ptr, Region};
use irtext_few::Few;
use irtext_grammar::parsed::ReadName;
use irtext_parse_pieces::coming::Coming;

/// An operation that was created, with everything before its first region parsed.
#[derive(Drop)]
pub struct BegunOperation {
    pub op: Ptr<Operation>,
    pub id: OpId,
    /// The number of its results.
    pub results: usize,
    /// The names of its results, which are defined at its end.
    pub names: Few<ReadName>,
    /// The position where it begins.
    pub at: Place,
    /// Whether it is isolated from above.
    pub isolated: bool,
    /// What the next step of its format parses, if no step was made since its front was parsed.
    pub coming: Option<Coming>,
    /// The index of the next step of its format.
    pub step: usize,
    /// The number of steps of its format.
    pub steps: usize,
}

/// A region that was created, with its scopes opened and its `{` parsed.
#[derive(Clone, Copy)]
pub struct BegunRegion {
    pub region: Ptr<Region>,
    /// Whether its operation is isolated from above.
    pub isolated: bool,
    /// The position of its `{`.
    pub at: Place,
}

/// A block that was created, with its header parsed.
#[derive(Clone, Copy)]
pub struct BegunBlock {
    pub block: Ptr<BasicBlock>,
    /// Whether none of its operations has been parsed.
    pub first: bool,
}
