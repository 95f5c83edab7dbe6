//! The keys of the attributes that the formats of the operations of the dialect `arith` name.

/// The key `arith_value`, of `arith.constant`.
pub const VALUE_KEY: &'static str = "arith_value";

/// The key `arith_predicate`, of `arith.compare`.
pub const PREDICATE_KEY: &'static str = "arith_predicate";
