//! The notation of formats: the format of an operation as a text, such as ``@name `to` $my_to `with` {0}``. It is close to the notation
//! of the Rust crate's `#[format]`.
//!
//! | Notation | Directive |
//! |---|---|
//! | `` `->` `` | `Literal("->")`: one or more printable ASCII characters, a backquote among them twice |
//! | `$0` | `Operand(0)` |
//! | `operands` | `Operands` |
//! | `^0` | `Successor(0)` |
//! | `successors` | `Successors` |
//! | `$my_to` | `Attr("my_to")`: an identifier |
//! | `attr_dict` | `AttrDict` |
//! | `type($0)` | `ResultType(0)` |
//! | `{0}` | `Region(0)` |
//! | `regions` | `Regions` |
//! | `@name` | `SymbolHeader` |
//!
//! `canonical` alone is `OpFormat::Canonical`, and a text without directives is the format that prints nothing. An index is less than
//! 2^64. White space is allowed between directives and at both ends, and one space is printed between directives.
ghost use Rattle.std.specs.Prelude.{Some};
ghost use Rattle.std.specs.Str.{chars, encode_utf8_all};
ghost use Rattle.irtext_base.specs.FormatViews.{directive_of, format_of};
ghost use Rattle.irtext_base.specs.Notation.{Denotes, directive_text, notation_text};

mod print;
mod read;

use crate::format::{Directive, OpFormat};
pub use irtext_stream::notation::fault::{NotationFault, NotationPart};
use irtext_stream::notation::print::{fmt_closed, fmt_index, fmt_literal, fmt_word};
use irtext_stream::stream::TextStream;
use std::alloc::Global;
use std::fmt::{self, Display};

impl OpFormat {
    /// Parses the notation of a format, such as ``@name `to` $my_to `with` {0}``. It does not say whether `check_format` accepts the format.
    /// Fails with `Unexpected` at the first position where the text is no notation, and with `Memory` if an allocation fails.
    pub fn parse(alloc: Global, text: &str) -> Result<OpFormat, NotationFault>
        ensures { Denotes (chars text.now) result }
    {
        let mut stream = TextStream::new(alloc, text)?;
        read::format(&mut stream)
    }
}

impl Display for Directive {
    ghost output = { λ d. Some (encode_utf8_all (directive_text (directive_of d))) };

    fn fmt<W: fmt::Write>(&self, f: &mut fmt::Formatter<W>) -> fmt::Result {
        let word = match self {
            Directive::Literal(text) => return fmt_literal(text.as_str(), f),
            Directive::Operand(index) => return fmt_index("$", *index, f),
            Directive::Successor(index) => return fmt_index("^", *index, f),
            Directive::Attr(key) => return print::fmt_key(key, f),
            Directive::ResultType(index) => return fmt_closed("type($", *index, ")", f),
            Directive::Region(index) => return fmt_closed("{", *index, "}", f),
            Directive::Operands => "operands",
            Directive::Successors => "successors",
            Directive::AttrDict => "attr_dict",
            Directive::Regions => "regions",
            Directive::SymbolHeader => "@name",
        };
        fmt_word(word, f)
    }
}

impl Display for OpFormat {
    ghost output = { λ format. Some (encode_utf8_all (notation_text (format_of format))) };

    fn fmt<W: fmt::Write>(&self, f: &mut fmt::Formatter<W>) -> fmt::Result {
        match self {
            OpFormat::Canonical => fmt_word("canonical", f),
            OpFormat::Custom(directives) => print::fmt_directives(directives.as_slice(), f),
        }
    }
}
