//! Calls that allocate, each with the contract that std's call has, and an error that only a refused allocation makes: `OutOfMemory` has a
//! private field, and these calls alone make it, each where std's call failed. What a call asks for is what it stores, or room for at
//! most 16 elements (`vec::with_capacity`). So no caller can make the error by asking for more than it needs.
#![tactic(auto)]

pub mod boxed;
pub mod rc;
pub mod set;
pub mod string;
pub mod vec;

ghost use Rattle.std.specs.Prelude.{◌≡◌, Ok, IfOk, OnErr, IsErr};
ghost use Rattle.irtext_memory.specs.declared.NoRoom.TheVariants.{Memory};
ghost use Rattle.irtext_memory.specs.Rooms.{LacksMemory};

use std::alloc::{AllocError, AllocFailed};
use std::fmt;

/// An allocation was refused.
#[derive(PartialEq, Eq, Debug, Drop)]
pub struct OutOfMemory {
    made_here: (),
}

/// An allocation was refused, and this was not stored. `?` drops it.
#[derive(Drop)]
pub struct Refused<X> {
    pub value: X,
    error: OutOfMemory,
}

/// Why there was no room for what was to be stored. A call says in its contract exactly when it is full.
#[derive(PartialEq, Eq, Debug, Drop)]
pub enum NoRoom {
    /// Out of memory.
    Memory(OutOfMemory),
    /// A counter is at its limit. No allocation was refused.
    Full,
}

impl<X: Drop> From<Refused<X>> for OutOfMemory {
    #[inline(always)]
    fn from(refused: Refused<X>) -> OutOfMemory {
        let Refused {
            value: _value,
            error,
        } = refused;
        error
    }
}

impl From<OutOfMemory> for AllocError {
    #[inline(always)]
    fn from(_: OutOfMemory) -> AllocError {
        AllocError
    }
}

impl From<OutOfMemory> for fmt::Error {
    #[inline(always)]
    fn from(_: OutOfMemory) -> fmt::Error {
        fmt::Error
    }
}

impl From<OutOfMemory> for NoRoom {
    ghost from_gives = { λ e room. room ≡ Memory e };

    #[inline(always)]
    fn from(error: OutOfMemory) -> NoRoom {
        NoRoom::Memory(error)
    }
}

impl<X: Drop> From<Refused<X>> for NoRoom {
    ghost from_gives = { λ _ room. LacksMemory room };

    #[inline(always)]
    fn from(refused: Refused<X>) -> NoRoom {
        NoRoom::Memory(OutOfMemory::from(refused))
    }
}

impl From<NoRoom> for AllocError {
    #[inline(always)]
    fn from(_: NoRoom) -> AllocError {
        AllocError
    }
}

/// Returns the same with an error that anyone can make, for a caller whose own error is not sealed.
#[inline(always)]
pub fn unsealed<X>(sealed: Result<X, OutOfMemory>) -> Result<X, AllocError>
    ensures ok { IfOk result (λ x. sealed ≡ Ok x) }
    ensures err { OnErr result (IsErr sealed) }
{
    match sealed {
        Ok(x) => Ok(x),
        Err(_) => Err(AllocError),
    }
}

// the error of a call of std that failed
#[inline(always)]
fn no_memory(_: AllocError) -> OutOfMemory {
    OutOfMemory { made_here: () }
}

// the same with what was not stored
#[inline(always)]
fn not_stored<X>(failed: AllocFailed<X>) -> Refused<X>
    ensures { result.value ≡ failed.value }
{
    let AllocFailed { value } = failed;
    Refused {
        value,
        error: OutOfMemory { made_here: () },
    }
}
