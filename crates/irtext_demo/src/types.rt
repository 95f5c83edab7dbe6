//! The demo types: integers and a pointer.
use crate::integer_type::{IntegerType, write_integer_type};
use irtext_base::parsable::{ParseResult, TextStream};
use irtext_base::result::Expected;
use irtext_base::text::{Family, IrText, Worded};
use irtext_memory::OutOfMemory;
use irtext_syntax::part::{Item, Part, Plain};
use irtext_syntax::table::{
    Table, after_known, after_word, alone_known, table_parse, word_alone, write_word,
};
use irtext_syntax::{match_text, matches_text};
use std::fmt;

/// A demo type.
#[derive(Clone, Copy, PartialEq, Eq, Hash, Debug)]
pub enum DemoType {
    /// Printed as `builtin.integer W`, where W is the text of the integer type, such as `si32`.
    Integer(IntegerType),
    /// Printed as `test.ptr ` with one space at its end. The parser consumes the word only.
    Pointer,
}

/// The words that demo types begin with.
#[derive(Clone, Copy)]
pub enum TypeWord {
    /// `builtin.integer`.
    Integer,
    /// `test.ptr`.
    Pointer,
}

impl fmt::Display for DemoType {
    ghost use Rattle.std.specs.Prelude.{Some};
    ghost use Rattle.irtext_demo.specs.Types.{type_text};

    ghost output = { λ t. Some (type_text t) };

    fn fmt<W: fmt::Write>(&self, f: &mut fmt::Formatter<W>) -> fmt::Result {
        match self {
            DemoType::Integer(ty) => write!(f, "builtin.integer {ty}"),
            DemoType::Pointer => f.write_str("test.ptr "),
        }
    }
}

impl<A> Table<DemoType, A> for TypeWord {
    ghost use Rattle.irtext_demo.specs.Types.{type_word, type_after};

    ghost word = { type_word };

    ghost following = { type_after };

    fn of(text: &str) -> Option<TypeWord> {
        match_text!(text; "builtin.integer" => TypeWord::Integer, "test.ptr" => TypeWord::Pointer)
    }

    fn parse(self, stream: &mut TextStream) -> ParseResult<DemoType, A> {
        match self {
            TypeWord::Integer => Ok(DemoType::Integer(after_word(stream)?)),
            TypeWord::Pointer => word_alone(stream, DemoType::Pointer),
        }
    }

    #[inline(always)]
    fn parse_known(self, stream: &mut TextStream) -> Option<DemoType> {
        match self {
            TypeWord::Integer => match after_known::<IntegerType, A>(stream) {
                Some(ty) => Some(DemoType::Integer(ty)),
                None => None,
            },
            TypeWord::Pointer => alone_known(stream, DemoType::Pointer),
        }
    }
}

impl<A> IrText<A> for DemoType {
    ghost use Rattle.irtext_demo.specs.Types.{type_at, type_text};
    ghost use Rattle.irtext_demo.specs.TypeLaws.{type_lawful, type_sincere, type_decides};

    ghost reading = { type_at };

    ghost written = { type_text };

    ghost lawful = { type_lawful };

    ghost sincere = { type_sincere };

    ghost decides = { type_decides };

    fn read(stream: &mut TextStream) -> ParseResult<DemoType, A> {
        table_parse::<TypeWord, DemoType, A>(stream, "Unregistered type ", Expected::Type)
    }

    fn write_text(&self, f: &mut String) -> Result<(), OutOfMemory> {
        match self {
            DemoType::Integer(ty) => write_integer_type(ty, f),
            DemoType::Pointer => write_word("test.ptr ", f),
        }
    }
}

impl Worded for DemoType {
    ghost use Rattle.irtext_demo.specs.Types.{type_words};

    ghost words = { type_words };

    fn has_word(word: &str) -> bool {
        matches_text!(word, "builtin.integer" | "test.ptr")
    }
}

impl<A> Family<A> for DemoType {
    ghost use Rattle.irtext_demo.specs.TypeLaws.{type_led};

    ghost led = { type_led };
}

/// A type as a part of other texts.
impl<A> Part<A> for DemoType {
    ghost use Rattle.irtext_syntax.specs.Owns.{ends_text};
    ghost use Rattle.irtext_demo.specs.Types.{type_at, type_text};
    ghost use Rattle.irtext_demo.specs.TypeLaws.{type_law, type_decides};

    ghost text = { record { reading = type_at; written = type_text; ends = ends_text } };

    ghost sound = { record { law = type_law; decides = type_decides } };

    fn read(stream: &mut TextStream) -> ParseResult<DemoType, A> {
        <DemoType as IrText<A>>::read(stream)
    }

    fn write_text(&self, f: &mut String) -> Result<(), OutOfMemory> {
        <DemoType as IrText<A>>::write_text(self, f)
    }
}

impl<A> Item<A> for DemoType {
    ghost use Rattle.irtext_demo.specs.TypeLaws.{type_misses};

    ghost misses = { type_misses };
}

impl Plain for DemoType {}
