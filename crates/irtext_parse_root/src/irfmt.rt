//! The marker that is printed in place of an outlined attribute.

mod marker;
pub mod outlined;
