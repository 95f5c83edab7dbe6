//! Parsers of tokens, stored printers, and the section of marked items.

pub use irtext_parse_root::irfmt::outlined;
pub use irtext_print_ir::irfmt::printers;
/// Parsers of tokens, lists, types and attributes. Each takes the stream as its first argument. It returns the value that it parsed
/// there, or a fault with its cause and position.
pub mod parsers {
    pub use irtext_parse_root::names::{block_opd_parse, ssa_opd_parse};
    pub use irtext_parse_root::results::process_parsed_ssa_defs;
    pub use irtext_parse_state::irfmt::parsers::{location, type_parse};
    pub use irtext_tokens::irfmt::parsers::{
        Class, FromStrRadix, attr_parse, bool_parse, delimited_list_parser, hex_int_parse,
        id_parse, identifier_parse, int_parse, list_parser, list_with_sep_parser,
        number_as_string_parse, quoted_string_parse, skip_white_space, spaced, text_parse,
        zero_or_more_parser,
    };
}
