//! Function types as attributes: `<(T, ..)->(T, ..)>`.
use crate::types::DemoType;
use irtext_syntax::list::ListOf;
use irtext_syntax::ready::{Angle, Arrow, Round};
use irtext_syntax::sequence::{Then, Within};

/// A list of types in parentheses, such as `(builtin.integer si32, test.ptr )`.
pub type TypeList = ListOf<Round, DemoType>;

/// The type of a function: the types of its inputs and of its results, such as `<(test.ptr )->(builtin.integer si32)>`.
pub type FunctionAttr = Within<Angle, Then<TypeList, Arrow, TypeList>>;
