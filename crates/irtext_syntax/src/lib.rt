//! Parts, of which the texts of a dialect's types and attributes are made: each is parsed and printed, and has a law by which the text of the
//! whole is parsed back. So the author of a dialect puts a type or an attribute together from parts, and proves nothing.
//!
//! - `part`: the trait of a part.
//! - `sequence`: two parts with a fixed text between them (`Then`), and a part in brackets (`Within`).
//! - `fixed`, `ready`: fixed texts and brackets, and those that are ready to be used.
//! - `number`, `range`: numbers of every integer type, and numbers of a range (`Number`, `Ranged`).
//! - `quoted`, `name`: quoted texts and identifiers (`Characters`, `Name`).
//! - `keyword`: a fixed word that is always there, or that is there or not (`Keyword`, `Flag`).
//! - `list`: lists of parts in brackets, with a separator between the items (`ListOf`).
//! - `own`: the caller's types and attributes as parts.
//! - `words`, `table`: families whose texts begin with dotted words, as `builtin.integer`, each with a part after it; and values that are
//!   one of several words (`Choice`).
//!
//! `Within<Angle, Then<Number<i64>, Colon, IntegerType>>` is the part whose text is `<5: si32>`. An enum of attributes has one line for each
//! variant in its laws:
//!
//! ```text
//! rows (Integer a) = part_row (codes "my.integer") word.Integer Integer a law last refl refl refl (λ text. refl)
//! ```
#![tactic(auto)]

pub mod boxed;
pub mod characters;
pub mod fixed;
pub mod keyword;
pub mod list;
pub mod maybe;
pub mod name;
pub mod number;
pub mod own;
pub mod part;
pub mod quoted;
pub mod range;
pub mod ready;
pub mod sequence;
pub mod table;
pub mod words;

pub use boxed::Boxed;
pub use characters::Characters;
pub use keyword::{Flag, Keyword};
pub use list::ListOf;
pub use name::Name;
pub use number::Number;
pub use range::Ranged;
