//! The dialect `arith`: its types, attributes and operations.
//!
//! The texts of its types and attributes, where N is a number, `w?` the word `w` or nothing, S a string, T a type of the context:
//!
//! - `arith.int N`
//! - `arith.index`
//! - `arith.value <N: T>`
//! - `arith.predicate eq|ne|lt|le`
//! - `arith.overflow <nsw?, nuw?>`
//! - `arith.align N`
//! - `arith.doc "S"`
//!
//! `values` has a constructor and a getter for each of these that has a part.
//!
//! `register_arith` registers its operations, by these formats:
//!
//! - `arith.constant`: ``$arith_value `:` type($0)``
//! - `arith.add`: ``$0 `,` $1 `:` type($0)``
//! - `arith.compare`: ``$arith_predicate $0 `,` $1 `:` type($0)``
//! - `arith.func`: ``@name {0}``, isolated from above
//! - `arith.return`: ``operands``
#![tactic(auto)]

pub mod attributes;
pub mod fixed;
pub mod keys;
pub mod operations;
pub mod predicate;
pub mod types;
pub mod values;

pub use attributes::ArithAttr;
pub use operations::register_arith;
pub use predicate::Predicate;
pub use types::ArithType;
