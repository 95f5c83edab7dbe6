//! Two authors' dialects in one context: their types, attributes and operations. `irtext_demo` and `irtext_arith` know nothing of each other.
ghost use Rattle.std.specs.Prelude.{refl};

use irtext_arith::{ArithAttr, ArithType, register_arith};
use irtext_demo::dialects::register_demo;
use irtext_demo::{DemoAttr, DemoType};
use pliron_text::base::Context;
use pliron_text::result::Result;
use pliron_text::text::{Apart, Either};

/// Says that no word is in both dialects.
pub struct Differ;

impl Apart<DemoType, ArithType> for Differ {
    ghost apart = { refl };
}

/// A type of one of the dialects.
pub type AnyType = Either<DemoType, ArithType, Differ>;

impl Apart<DemoAttr, ArithAttr<AnyType>> for Differ {
    ghost apart = { refl };
}

/// An attribute of one of the dialects. Those of `arith` can hold a type of both.
pub type AnyAttr = Either<DemoAttr, ArithAttr<AnyType>, Differ>;

/// A context with the types and attributes of both dialects.
pub type Both = Context<AnyType, AnyAttr>;

/// Registers the operations of both dialects.
pub fn register(ctx: &mut Both) -> Result<(), AnyAttr> {
    register_demo(ctx)?;
    register_arith(ctx)
}
