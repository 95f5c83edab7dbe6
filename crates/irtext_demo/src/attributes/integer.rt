//! Integers with their type, as attributes: `<N: W>`.
use crate::integer_type::IntegerType;
use irtext_syntax::number::Number;
use irtext_syntax::ready::{Angle, Colon};
use irtext_syntax::sequence::{Then, Within};

/// An integer and its type, such as `<5: si32>`. The integer need not fit the type.
pub type IntegerAttr = Within<Angle, Then<Number<i64>, Colon, IntegerType>>;
