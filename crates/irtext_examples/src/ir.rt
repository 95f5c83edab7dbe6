//! What the front end and the pass share: the types and attributes of their context, its operations, and the values of constants.
pub use irtext_arith::keys::VALUE_KEY;
use irtext_arith::register_arith;
pub use irtext_arith::{ArithAttr, ArithType};
use irtext_demo::dialects::register_demo;
use pliron_text::base::{AttrObj, Context};
use pliron_text::result;

/// An attribute of the dialect `arith`.
pub type Attr = ArithAttr<ArithType>;

/// A context with the types and attributes of the dialect `arith`.
pub type Ir = Context<ArithType, Attr>;

/// The result of a call that can fail.
pub type Answer<X> = result::Result<X, Attr>;

/// Registers the operations of `arith`, and `builtin.module` with the other operations of the demo dialects.
pub fn register(ctx: &mut Ir) -> Answer<()> {
    register_demo(ctx)?;
    register_arith(ctx)
}

/// Returns the type of all numbers, `arith.int 32`.
pub fn int() -> ArithType {
    ArithType::int(32)
}

/// Returns the attribute `arith.value <N: T>` of a number and its type.
pub fn value_attr(number: i64, of_type: ArithType) -> AttrObj<Attr> {
    AttrObj::Own(ArithAttr::value(number, of_type))
}
