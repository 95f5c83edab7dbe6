//! Why a printing fails.

ghost use Rattle.std.specs.Prelude.{OnOk, OnErr, IfErr, IsOk, IsErr};
ghost use Rattle.irtext_print.specs.Refusals.{IsMemory};

use irtext_memory::OutOfMemory;
use std::fmt;

/// Why a printing fails.
#[derive(PartialEq, Eq, Debug, Drop)]
pub enum Refusal {
    /// Out of memory: an allocation was refused.
    Memory(OutOfMemory),
    /// An indentation is too deep: its spaces do not fit 16 bits.
    Depth,
    /// An operation does not fit its format.
    Misfit,
}

/// Turns the result of a call that fails only if out of memory into one with the error `Memory`.
pub fn memory_alone(answer: Result<(), OutOfMemory>) -> Result<(), Refusal>
    ensures ok { OnOk result (IsOk answer) }
    ensures err { OnErr result (IsErr answer) }
    ensures refused { IfErr result (λ e. IsMemory e) }
{
    match answer {
        Ok(()) => Ok(()),
        Err(e) => Err(Refusal::Memory(e)),
    }
}

impl From<OutOfMemory> for Refusal {
    ghost from_gives = { λ _ refusal. IsMemory refusal };

    fn from(error: OutOfMemory) -> Refusal {
        Refusal::Memory(error)
    }
}

impl From<Refusal> for fmt::Error {
    fn from(_: Refusal) -> fmt::Error {
        fmt::Error
    }
}
