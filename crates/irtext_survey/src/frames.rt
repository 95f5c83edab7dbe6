//! What is open while a root is parsed once more.

use irtext_base::base::OpId;
use irtext_base::parsable::Place;
use irtext_few::Few;
use irtext_grammar::parsed::ReadName;

/// An operation of which everything before its first region was parsed.
#[derive(Drop)]
pub struct OpenOperation {
    /// The names of its results, which are defined at its end.
    pub names: Few<ReadName>,
    pub id: OpId,
    /// The index of the next step of its format.
    pub step: usize,
}

/// A region of which the `{` was parsed.
#[derive(Clone, Copy)]
pub struct OpenRegion {
    /// Whether its operation is isolated from above.
    pub isolated: bool,
    /// The place of its `{`.
    pub at: Place,
}

/// An operation, a region or a block whose text has begun and has not ended.
#[derive(Drop)]
pub enum Frame {
    Operation(OpenOperation),
    Region(OpenRegion),
    /// A block; whether none of its operations was parsed.
    Block(bool),
}
