//! The frames of what is open while an operation is printed: an operation, a region or a block that was begun, and how far it was
//! printed.
ghost use Rattle.std.specs.Prelude.{◌≡◌, ◌++◌, ◌∷◌, [], OnOk, IfOk, IfErr, length};
ghost use Rattle.irtext_print.specs.Refusals.{IsMemory};

use irtext_base::format::Directive;
use irtext_context::base::{BasicBlock, Item, Operation, Ptr, Region};
use irtext_memory::vec;
use irtext_print::printable::{Refusal, RegionPrintDepthLimit};

/// An operation whose results and id were printed.
#[derive(Clone, Copy)]
pub struct OperationFrame<'c> {
    /// The operation.
    pub op: Ptr<Operation>,
    /// The directives of its format, if it has some. They were looked up when it was begun.
    pub directives: Option<&'c [Directive]>,
    /// The index of the directive of its format that is printed next.
    pub directive: usize,
    /// The index of the region that is printed next.
    pub region: usize,
    /// Whether all regions that are left are printed before the next directive.
    pub repeats: bool,
    /// Whether its mark is printed after it.
    pub marked: bool,
    /// The number of spaces at the beginning of its lines.
    pub indent: u16,
    /// How many levels of its regions are printed.
    pub limit: RegionPrintDepthLimit,
}

/// A region whose opening brace was printed.
#[derive(Clone, Copy)]
pub struct RegionFrame {
    /// The region.
    pub region: Ptr<Region>,
    /// The index of the block that is printed next.
    pub block: usize,
    /// Whether no block was printed so far.
    pub first: bool,
    /// The number of spaces before its braces.
    pub indent: u16,
    /// How many levels of regions are printed in it.
    pub limit: RegionPrintDepthLimit,
}

/// A block whose head was printed.
#[derive(Clone, Copy)]
pub struct BlockFrame {
    /// The block.
    pub block: Ptr<BasicBlock>,
    /// The index of the operation that is printed next.
    pub operation: usize,
    /// Whether no operation was printed so far.
    pub first: bool,
    /// The number of spaces before its head.
    pub indent: u16,
    /// How many levels of regions are printed in it.
    pub limit: RegionPrintDepthLimit,
}

/// A frame of what is open.
#[derive(Clone, Copy)]
pub enum Frame<'c> {
    /// An operation, up to its mark.
    Operation(OperationFrame<'c>),
    /// A region, up to its closing brace.
    Region(RegionFrame),
    /// A block, up to its last operation.
    Block(BlockFrame),
}

/// What is open after a step of an operation.
#[derive(Clone, Copy)]
pub(crate) enum Turn {
    /// The operation, and nothing inside of it.
    Stays,
    /// The operation, and a region inside of it.
    Enters(RegionFrame),
    /// Nothing.
    Ends,
}

/// What is open after a step of a block.
#[derive(Clone, Copy)]
pub(crate) enum BlockTurn {
    /// The block, and nothing inside of it.
    Stays(BlockFrame),
    /// The block, an operation inside of it, and a region inside of that.
    Enters(RegionFrame),
    /// Nothing.
    Ends,
}

/// Opens a frame inside the open ones.
#[inline(always)]
pub(crate) fn open<'c>(frames: &mut Vec<Frame<'c>>, frame: Frame<'c>) -> Result<(), Refusal>
    ensures ok { OnOk result (frames.new.items ≡ frames.old.items ++ frame.entry ∷ []) }
    ensures refused { IfErr result (λ e. IsMemory e) }
{
    match vec::push(frames, frame) {
        Ok(()) => Ok(()),
        Err(refused) => Err(Refusal::Memory(refused.into())),
    }
}

/// Gathers a marked item, and returns its index.
#[inline(always)]
pub(crate) fn gather(items: &mut Vec<Item>, item: Item) -> Result<usize, Refusal>
    ensures ok { OnOk result (items.new.items ≡ items.old.items ++ item ∷ []) }
    ensures place { IfOk result (λ index. index ≡ length items.old.items) }
    ensures refused { IfErr result (λ e. IsMemory e) }
{
    let index = items.len();
    match vec::push(items, item) {
        Ok(()) => Ok(index),
        Err(refused) => Err(Refusal::Memory(refused.into())),
    }
}
