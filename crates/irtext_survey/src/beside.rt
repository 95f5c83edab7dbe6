//! What ends a walk over a root.
ghost use Rattle.std.specs.Prelude.{◌≡◌, OnOk};
ghost use Rattle.irtext_base.specs.Faults.{fault_of, Memory};

use irtext_base::parsable::ParseFault;
use irtext_base::result::Cause;
use std::alloc::AllocError;

/// Ends an error of a parser. Fails if it is that of an allocation that failed.
pub(crate) fn unless_memory<A: Drop>(error: ParseFault<A>) -> Result<(), AllocError>
    ensures { OnOk result (fault_of error.cause ≡ Memory → ⊥) }
{
    match &error.cause {
        Cause::Memory => Err(AllocError),
        _ => Ok(()),
    }
}
