//! The demo attributes: integers with their type, strings, function types, and debug notes, which are printed in the section after a
//! root.
pub mod function;
pub mod integer;

use crate::attributes::function::FunctionAttr;
use crate::attributes::integer::IntegerAttr;
use irtext_base::parsable::{ParseResult, TextStream};
use irtext_base::result::Expected;
use irtext_base::text::{AttrText, Family, IrText, Worded};
use irtext_memory::OutOfMemory;
use irtext_syntax::boxed::Boxed;
use irtext_syntax::characters::Characters;
use irtext_syntax::part::TryClone;
use irtext_syntax::table::{Table, after_word, table_parse, write_row};
use irtext_syntax::{match_text, matches_text};
use std::alloc::AllocError;

/// A demo attribute.
#[derive(PartialEq, Eq, Hash, Debug, Drop)]
pub enum DemoAttr {
    /// Printed as `builtin.integer <N: W>`.
    Integer(IntegerAttr),
    /// Printed as `builtin.string "S"`.
    String(Characters),
    /// Printed as `builtin.function <(T, ..)->(T, ..)>`.
    Function(Boxed<FunctionAttr>),
    /// Printed as `test.dbg "S"`, once, in the section after the root.
    Debug(Characters),
}

/// The words that demo attributes begin with.
#[derive(Clone, Copy)]
pub enum AttrWord {
    /// `builtin.integer`.
    Integer,
    /// `builtin.string`.
    String,
    /// `builtin.function`.
    Function,
    /// `test.dbg`.
    Debug,
}

impl<B: Drop> Table<DemoAttr, B> for AttrWord {
    ghost use Rattle.irtext_demo.specs.Attributes.{attr_word, attr_after};

    ghost word = { attr_word };

    ghost following = { attr_after };

    fn of(text: &str) -> Option<AttrWord> {
        match_text!(text; "builtin.integer" => AttrWord::Integer, "builtin.string" => AttrWord::String,
            "builtin.function" => AttrWord::Function, "test.dbg" => AttrWord::Debug)
    }

    fn parse(self, stream: &mut TextStream) -> ParseResult<DemoAttr, B> {
        match self {
            AttrWord::Integer => Ok(DemoAttr::Integer(after_word(stream)?)),
            AttrWord::String => Ok(DemoAttr::String(after_word(stream)?)),
            AttrWord::Function => Ok(DemoAttr::Function(after_word(stream)?)),
            AttrWord::Debug => Ok(DemoAttr::Debug(after_word(stream)?)),
        }
    }
}

impl<B: Drop> IrText<B> for DemoAttr {
    ghost use Rattle.irtext_demo.specs.Attributes.{attr_at, attr_text};
    ghost use Rattle.irtext_demo.specs.AttributeLaws.{attr_lawful, attr_sincere, attr_decides};

    ghost reading = { attr_at };

    ghost written = { attr_text };

    ghost lawful = { attr_lawful };

    ghost sincere = { attr_sincere };

    ghost decides = { attr_decides };

    fn read(stream: &mut TextStream) -> ParseResult<DemoAttr, B> {
        table_parse::<AttrWord, DemoAttr, B>(stream, "Unregistered attribute ", Expected::Attribute)
    }

    fn write_text(&self, f: &mut String) -> Result<(), OutOfMemory> {
        match self {
            DemoAttr::Integer(attr) => write_row::<IntegerAttr, B>("builtin.integer", attr, f),
            DemoAttr::String(text) => write_row::<Characters, B>("builtin.string", text, f),
            DemoAttr::Function(attr) => write_row::<Boxed<FunctionAttr>, B>(
                "builtin.function",
                attr,
                f,
            ),
            DemoAttr::Debug(text) => write_row::<Characters, B>("test.dbg", text, f),
        }
    }
}

impl<B: Drop> AttrText<B> for DemoAttr {
    ghost use Rattle.irtext_demo.specs.Attributes.{is_debug};
    ghost use Rattle.irtext_demo.specs.AttributeLaws.{attr_unreserved};

    ghost outlined = { is_debug };

    ghost print_once = { is_debug };

    ghost unreserved = { attr_unreserved };

    fn is_outlined(&self) -> bool {
        matches!(self, DemoAttr::Debug(_))
    }

    fn is_print_once(&self) -> bool {
        matches!(self, DemoAttr::Debug(_))
    }

    fn try_clone(&self) -> Result<DemoAttr, AllocError> {
        match self {
            DemoAttr::Integer(attr) => Ok(DemoAttr::Integer(attr.try_clone()?)),
            DemoAttr::String(text) => Ok(DemoAttr::String(text.try_clone()?)),
            DemoAttr::Function(attr) => Ok(DemoAttr::Function(attr.try_clone()?)),
            DemoAttr::Debug(text) => Ok(DemoAttr::Debug(text.try_clone()?)),
        }
    }
}

impl Worded for DemoAttr {
    ghost use Rattle.irtext_demo.specs.Attributes.{attr_words};

    ghost words = { attr_words };

    fn has_word(word: &str) -> bool {
        matches_text!(
            word,
            "builtin.integer" | "builtin.string" | "builtin.function" | "test.dbg"
        )
    }
}

impl<B: Drop> Family<B> for DemoAttr {
    ghost use Rattle.irtext_demo.specs.AttributeLaws.{attr_led};

    ghost led = { attr_led };
}
