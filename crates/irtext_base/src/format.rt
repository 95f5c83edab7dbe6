//! The formats of operations, and the conditions that a format has to meet.
ghost use Rattle.std.specs.Prelude.{Some};
ghost use Rattle.irtext_base.specs.Causes.{format_fault_text};

pub mod notation;

use crate::base::Identifier;
use std::fmt::{self, Display};

/// One step of a format: a fixed text, or the part of the operation that is parsed and printed there. Indices count from 0.
#[derive(Drop)]
pub enum Directive {
    /// This text, as `->`.
    Literal(String),
    /// The name of the operand at this index, as `x_v0`.
    Operand(usize),
    /// The names of all operands after those that have a directive of their own, as `x_v0, y_v1`.
    Operands,
    /// `^` and the label of the successor at this index, as `^a_block1v1`.
    Successor(usize),
    /// The same for all successors after those that have a directive of their own, as `^a_block1v1, ^b_block2v1`.
    Successors,
    /// The attribute under this key.
    Attr(Identifier),
    /// A dictionary of the attributes that no other directive prints, as `[k: builtin.string "s"]`.
    AttrDict,
    /// The type of the result at this index.
    ResultType(usize),
    /// The region at this index.
    Region(usize),
    /// All regions after those that have a directive of their own.
    Regions,
    /// `@` and the name of the symbol.
    SymbolHeader,
}

/// How an operation is parsed and printed.
#[derive(Drop)]
pub enum OpFormat {
    /// In the canonical form, which any operation has.
    Canonical,
    /// By these directives, one after the other.
    Custom(Vec<Directive>),
}

/// The first condition that a format fails. Each variant says what the condition demands.
#[derive(Clone, Copy, PartialEq, Eq, Debug)]
pub enum FormatFault {
    /// Each `Literal` is one or more printable ASCII characters, none of them white space.
    LiteralNotPrintable,
    /// The indices of the `Operand` directives are 0, 1 and so on, each once, in any order; and there is at most one `Operands`.
    OperandIndices,
    /// The indices of the `Successor` directives are 0, 1 and so on, each once, in any order; and there is at most one `Successors`.
    SuccessorIndices,
    /// The indices of the `ResultType` directives are 0, 1 and so on, each once, in any order.
    ResultTypeIndices,
    /// The indices of the `Region` directives are 0, 1 and so on, in this order; and there is at most one `Regions`, after all of them.
    RegionOrder,
    /// No key of an `Attr` comes twice, is `builtin_given_names`, or is `builtin_sym_name` beside a `SymbolHeader`; and there are at most
    /// one `AttrDict` and at most one `SymbolHeader`.
    AttributeKeys,
    /// No operand, successor or result type comes after a region.
    NameAfterRegion,
    /// No character with which the text after a list can begin could continue the list.
    AmbiguousList,
}

impl Display for FormatFault {
    ghost output = { λ fault. Some (format_fault_text fault) };

    fn fmt<W: fmt::Write>(&self, f: &mut fmt::Formatter<W>) -> fmt::Result {
        let condition = match self {
            FormatFault::LiteralNotPrintable => "C1",
            FormatFault::OperandIndices => "C2",
            FormatFault::SuccessorIndices => "C3",
            FormatFault::ResultTypeIndices => "C4",
            FormatFault::RegionOrder => "C5",
            FormatFault::AttributeKeys => "C6",
            FormatFault::NameAfterRegion => "C7",
            FormatFault::AmbiguousList => "C8",
        };
        write!(f, "Format refused by condition {condition}")
    }
}
