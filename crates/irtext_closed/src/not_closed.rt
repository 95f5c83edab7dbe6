//! Why a root is not closed.
ghost use Rattle.std.specs.Prelude.{Some};
ghost use Rattle.irtext_closed.specs.Texts as texts;

use irtext_context::base::{BasicBlock, Operation, Ptr, Value};
use std::fmt;
use std::fmt::Display;

/// Why a root is not closed: the first reason in the order of the text, with the operation, block or value. Indices are counted from 0.
#[derive(Clone, Copy, PartialEq, Eq, Debug)]
pub enum NotClosed {
    /// The pointer is that of no live operation, or of a placeholder. Text: `There is no such operation`.
    NoOperation,
    /// The root is in a block. Text: `The root is in a block`.
    InBlock,
    /// The root has results. Text: `The root has results`.
    HasResults,
    /// The root has operands. Text: `The root has operands`.
    HasOperands,
    /// The root has successors. Text: `The root has successors`.
    HasSuccessors,
    /// The root has a region, and is not isolated from above. Text: `The root has a region and is not isolated from above`.
    NotIsolated,
    /// The operation, nested in the root, is a placeholder. Text: `An operation is a placeholder`.
    Placeholder(Ptr<Operation>),
    /// The attributes of the block have one under `builtin_block_label`, which is where a text has the block's label. Text: `The attributes
    /// of a block have a label`.
    Labelled(Ptr<BasicBlock>),
    /// The type of the result or the argument is not known. Text: `The type of result 0 of an operation is not known`, or `The type of
    /// argument 0 of a block is not known`.
    Untyped(Value),
    /// The operand of the operation with this index is not defined in its isolated scope. Text: `Operand 0 of an operation is not a value of
    /// its isolated scope`.
    Operand(Ptr<Operation>, usize),
    /// The successor of the operation with this index is not a block of its region. Text: `Successor 0 of an operation is not a block of its
    /// region`.
    Successor(Ptr<Operation>, usize),
}

impl Display for NotClosed {
    ghost output = { λ reason. Some (texts.reason_text reason) };

    fn fmt<W: fmt::Write>(&self, f: &mut fmt::Formatter<W>) -> fmt::Result {
        match self {
            NotClosed::NoOperation => write!(f, "There is no such operation"),
            NotClosed::InBlock => write!(f, "The root is in a block"),
            NotClosed::HasResults => write!(f, "The root has results"),
            NotClosed::HasOperands => write!(f, "The root has operands"),
            NotClosed::HasSuccessors => write!(f, "The root has successors"),
            NotClosed::NotIsolated => {
                write!(f, "The root has a region and is not isolated from above")
            }
            NotClosed::Placeholder(_) => write!(f, "An operation is a placeholder"),
            NotClosed::Labelled(_) => write!(f, "The attributes of a block have a label"),
            NotClosed::Untyped(Value::Result(_, i)) => {
                write!(f, "The type of result {i} of an operation is not known")
            }
            NotClosed::Untyped(Value::Argument(_, i)) => {
                write!(f, "The type of argument {i} of a block is not known")
            }
            NotClosed::Operand(_, i) => {
                write!(
                    f,
                    "Operand {i} of an operation is not a value of its isolated scope"
                )
            }
            NotClosed::Successor(_, i) => {
                write!(
                    f,
                    "Successor {i} of an operation is not a block of its region"
                )
            }
        }
    }
}
