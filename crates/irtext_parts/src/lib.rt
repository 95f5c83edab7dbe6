//! More parts, of which the texts of a dialect's types and attributes are made, beside those of `irtext_syntax`.
//!
//! - `spelling`, `spelled`: texts of a class of characters that pass a test, kept as they are spelled (`Spelled`).
//! - `literals`: integers of any size, decimal numbers and bytes, as they are spelled (`Digits`, `Decimal`, `Hexadecimal`).
//! - `convert`: numbers of the machine from those as they are spelled, and back.
//! - `hex`: numbers in hexadecimal digits (`Hex`).
//! - `truth`: truth values (`Truth`).
//! - `symbol`: symbols, as `@main` (`Symbol`).
//! - `spaced`: more fixed texts (`Equals`, `Times`, `Blank`).
//! - `defaulted`: parts with a default value, which is not printed (`Defaulted`).
#![tactic(auto)]

pub mod convert;
pub mod defaulted;
pub mod hex;
pub mod literals;
pub mod spaced;
pub mod spelled;
pub mod spelling;
pub mod symbol;
pub mod truth;

pub use defaulted::Defaulted;
pub use hex::Hex;
pub use literals::{Decimal, Digits, Hexadecimal};
pub use spelled::Spelled;
pub use symbol::Symbol;
pub use truth::Truth;
