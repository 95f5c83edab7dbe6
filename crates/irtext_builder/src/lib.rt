//! Operations and blocks in one expression each: a draft says what an operation or a block is to be, and is built into a context, all of it
//! or nothing.
//!
//! ```text
//! let sum = OpDraft::new(ctx, "arith", "add")?
//!     .results(Few::one(int))
//!     .operands(&[x, y])
//!     .name("sum")?
//!     .at(loc)
//!     .build_in(ctx, block)?;
//! ```
#![tactic(auto)]

ghost use Rattle.std.specs.Prelude.{◌≡◌};
ghost use Rattle.irtext_base.specs.declared.location.Location.{Unknown};
ghost use Rattle.irtext_builder.specs.Drafts.{Tells};

mod attributes;
pub mod block;
pub mod operation;

use irtext_base::result::{Cause, Error, ErrorKind};
use irtext_context::dialect::invalid;
use std::alloc::Global;

/// An error with this text as its cause, or out of memory if there is no memory for the text.
fn unfit<A>(alloc: Global, text: &str) -> Error<A>
    ensures cause { Tells text.now result.err }
    ensures kind { (result.kind ≡ ErrorKind.InvalidArgument) × (result.loc ≡ Unknown) }
{
    invalid(Cause::of_text(String::from_str(alloc, text)))
}
