//! The errors of the verification of blocks and of uses, with their texts. Nothing here verifies: other crates return these errors.
ghost use Rattle.std.specs.Prelude.{Some};
ghost use Rattle.irtext_print_ir.specs.Errors.Verification.{block_text, use_text};

use irtext_base::base::Identifier;
use std::fmt;
use std::fmt::Display;

/// Why a block is invalid. The text is the block's name.
#[derive(Debug, Drop)]
pub enum BasicBlockVerifyErr {
    /// The block has no terminator. Text: `Basic block "b" is missing a terminator`.
    MissingTerminator(String),
    /// A terminator is not last. Text: `Basic block "b" has a terminator that is not the last operation in the block`.
    TerminatorNotLast(String),
    /// The block is in no operation. Text: `Basic block "b" has no parent operation`.
    NoParent(String),
}

/// Why a use of a value is invalid.
#[derive(Debug, Drop)]
pub enum DefUseVerifyErr {
    /// The operand is not in the value's list of uses. Text: `Operand is not a use of its def`.
    OperandNotUseOfDef,
    /// The value of this name is used where its definition does not dominate. Text: `Use of x not dominated by definition`.
    UseNotDominatedByDef(Identifier),
}

impl Display for BasicBlockVerifyErr {
    ghost output = { λ error. Some (block_text error) };

    fn fmt<W: fmt::Write>(&self, f: &mut fmt::Formatter<W>) -> fmt::Result {
        match self {
            BasicBlockVerifyErr::MissingTerminator(name) => {
                write!(f, "Basic block \"{name}\" is missing a terminator")
            }
            BasicBlockVerifyErr::TerminatorNotLast(name) => {
                write!(
                    f,
                    "Basic block \"{name}\" has a terminator that is not the last operation in the block"
                )
            }
            BasicBlockVerifyErr::NoParent(name) => {
                write!(f, "Basic block \"{name}\" has no parent operation")
            }
        }
    }
}

impl Display for DefUseVerifyErr {
    ghost output = { λ error. Some (use_text error) };

    fn fmt<W: fmt::Write>(&self, f: &mut fmt::Formatter<W>) -> fmt::Result {
        match self {
            DefUseVerifyErr::OperandNotUseOfDef => write!(f, "Operand is not a use of its def"),
            DefUseVerifyErr::UseNotDominatedByDef(name) => {
                write!(f, "Use of {name} not dominated by definition")
            }
        }
    }
}
