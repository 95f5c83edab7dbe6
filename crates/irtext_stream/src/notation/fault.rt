//! The errors of the parser of notations.
ghost use Rattle.std.specs.Prelude.{◌≡◌, Some};
ghost use Rattle.irtext_stream.specs.NotationFaults.{part_text, notation_fault_text, IsMemory};
ghost use Rattle.irtext_stream.specs.declared.notation.fault.NotationFault.TheVariants.{Memory};

use crate::position::SourcePosition;
use irtext_memory::{OutOfMemory, Refused};
use std::fmt;
use std::fmt::Display;

/// What a notation needs at a position.
#[derive(Clone, Copy, PartialEq, Eq, Debug)]
pub enum NotationPart {
    /// A directive.
    Directive,
    /// Decimal digits that denote a number below 2^64.
    Index,
    /// The same, or an identifier.
    KeyOrIndex,
    /// The first character of a literal, which is not empty.
    Character,
    /// Another character of a literal, which is printable ASCII, or the backquote after its last one.
    Backquote,
    /// The brace after the index of a region.
    Brace,
    /// The parenthesis after the index of a result.
    Parenthesis,
    /// The end of the text, after `canonical`.
    End,
}

/// Why a text can't be parsed as the notation of a format.
#[derive(PartialEq, Eq, Debug, Drop)]
pub enum NotationFault {
    /// This part is expected at the position, and something else is there, or the end of the text.
    Unexpected {
        at: SourcePosition,
        expected: NotationPart,
    },
    /// An allocation failed.
    Memory(OutOfMemory),
}

impl Display for NotationPart {
    ghost output = { λ expected. Some (part_text expected) };

    fn fmt<W: fmt::Write>(&self, f: &mut fmt::Formatter<W>) -> fmt::Result {
        f.write_str(match self {
            NotationPart::Directive => "a directive",
            NotationPart::Index => "an index",
            NotationPart::KeyOrIndex => "a key or an index",
            NotationPart::Character => "a printable character",
            NotationPart::Backquote => "a backquote",
            NotationPart::Brace => "`}`",
            NotationPart::Parenthesis => "`)`",
            NotationPart::End => "the end",
        })
    }
}

impl Display for NotationFault {
    ghost output = { λ fault. Some (notation_fault_text fault) };

    fn fmt<W: fmt::Write>(&self, f: &mut fmt::Formatter<W>) -> fmt::Result {
        match self {
            NotationFault::Unexpected { at, expected } => write!(f, "{at}: expected {expected}"),
            NotationFault::Memory(_) => f.write_str("Out of memory"),
        }
    }
}

impl From<OutOfMemory> for NotationFault {
    ghost from_gives = { λ e fault. fault ≡ Memory e };

    fn from(e: OutOfMemory) -> NotationFault {
        NotationFault::Memory(e)
    }
}

impl<X: Drop> From<Refused<X>> for NotationFault {
    ghost from_gives = { λ _ fault. IsMemory fault };

    fn from(refused: Refused<X>) -> NotationFault {
        NotationFault::Memory(OutOfMemory::from(refused))
    }
}
