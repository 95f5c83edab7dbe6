//! A text is read from any reader.
ghost use Rattle.std.specs.Prelude.{◌≡◌, ℕ, List, Option, OnOk, IfOk, IfErr, IfSome, string_bytes};
ghost use Rattle.std.specs.Io.KnownBytes.{IsAtEnd};
ghost use Rattle.irtext_formatter.specs.Input.{IsInputFault};

use std::alloc::{AllocError, Global};
use std::io;
use std::io::Read;

/// Why no text was read.
#[derive(Drop)]
pub enum InputFault {
    /// Out of memory.
    Memory,
    /// Reading failed.
    Unreadable(io::Error),
    /// The input was read to its end, and its bytes are not UTF-8.
    NotUtf8 {
        /// All bytes of the input.
        bytes: Vec<u8>,
    },
}

/// Returns the fault for an error of a reader.
fn unread(error: io::Error) -> InputFault
    ensures { (before after : Option (List ℕ)) → IsInputFault before after result }
{
    if error.kind() == io::ErrorKind::OutOfMemory {
        InputFault::Memory
    } else {
        InputFault::Unreadable(error)
    }
}

/// Reads the input to its end, as text. The bytes are read once, and not copied.
///
/// The error is `Unreadable` if reading fails, `NotUtf8` if the bytes are not UTF-8 (it has all of them), or `Memory`.
pub fn read_text<R: Read>(alloc: Global, input: &mut R) -> Result<String, InputFault>
    ensures text { IfOk result (λ text. IfSome (R.remaining input.old) (λ xs. string_bytes text ≡ xs)) }
    ensures end { OnOk result (IsAtEnd (R.remaining input.new)) }
    ensures fault { IfErr result (IsInputFault (R.remaining input.old) (R.remaining input.new)) }
{
    let mut bytes = Vec::new(alloc);
    if let Err(error) = input.read_to_end(&mut bytes) {
        return Err(unread(error));
    }
    match String::from_utf8(bytes) {
        Ok(text) => Ok(text),
        Err(error) => Err(InputFault::NotUtf8 {
            bytes: error.into_bytes(),
        }),
    }
}
