//! Parsers of tokens. Each takes the stream first and returns the value that comes next, or an error with its cause and position. A
//! parser that returns a `ParseResult` fails with `StreamFailed` on a failed stream, and with `Memory` if an allocation fails. Both
//! errors are committed.

pub mod attributes;
pub mod class;
pub mod digits;
pub mod fixed_text;
pub mod from_str_radix;
pub mod hexadecimal;
pub mod identifier;
pub mod integer;
pub mod lists;
pub mod operation_id;
pub mod quoted;
pub mod truth;

pub use attributes::attr_parse;
pub use class::{Class, skip_class, skip_white_space};
pub use digits::Radix;
pub use fixed_text::{held, text_parse};
pub use from_str_radix::FromStrRadix;
pub use hexadecimal::hex_int_parse;
pub use identifier::{identifier_parse, skip_identifier};
pub use integer::{int_parse, number_as_string_parse};
pub use lists::{
    delimited_list_parser, list_parser, list_with_sep_parser, spaced, zero_or_more_parser,
};
pub use operation_id::id_parse;
pub use quoted::quoted_string_parse;
pub use truth::bool_parse;
