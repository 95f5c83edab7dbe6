//! Reading of the input.
ghost use Rattle.std.specs.Prelude.{IfOk, IfErr, OnOk, string_bytes};
ghost use Rattle.std.specs.Io.KnownBytes.{IsAtEnd};
ghost use Rattle.irtext.specs.Lines.{IsInput};
ghost use Rattle.irtext.specs.Faults.{IsInputFault};

use crate::fault::Fault;
use std::alloc::Global;
use std::io::{ErrorKind, Read};

/// Reads the input to its end, as text. The error is `Unreadable`, `NotUtf8` (then all of the input was read), or `Memory`.
pub fn read_text<R: Read>(alloc: Global, input: &mut R) -> Result<String, Fault>
    ensures text { IfOk result (λ text. IsInput (R.remaining input.old) (string_bytes text)) }
    ensures end { OnOk result (IsAtEnd (R.remaining input.new)) }
    ensures fault { IfErr result (IsInputFault (R.remaining input.old)) }
{
    let mut bytes = Vec::new(alloc);
    if let Err(error) = input.read_to_end(&mut bytes) {
        return Err(match error.kind() {
            ErrorKind::OutOfMemory => Fault::Memory,
            _ => Fault::Unreadable,
        });
    }
    match String::from_utf8(bytes) {
        Ok(text) => Ok(text),
        Err(_) => Err(Fault::NotUtf8),
    }
}
