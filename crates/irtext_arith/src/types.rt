//! The types of the dialect `arith`.
use irtext_base::parsable::{ParseResult, TextStream};
use irtext_base::result::Expected;
use irtext_base::text::{Family, IrText, Worded};
use irtext_memory::OutOfMemory;
use irtext_syntax::part::TryClone;
use irtext_syntax::table::{Table, after_word, table_parse, word_alone, write_row, write_word};
use irtext_syntax::{Number, match_text, matches_text};
use std::alloc::AllocError;

/// A type of the dialect `arith`.
#[derive(PartialEq, Eq, Hash, Debug, Drop)]
pub enum ArithType {
    /// Printed as `arith.int N`.
    Int(Number<u32>),
    /// Printed as `arith.index`.
    Index,
}

/// The words that types of the dialect begin with.
#[derive(Clone, Copy)]
pub enum TypeWord {
    /// `arith.int`.
    Int,
    /// `arith.index`.
    Index,
}

impl<A> Table<ArithType, A> for TypeWord {
    ghost use Rattle.irtext_arith.specs.Types.{type_word, type_after};

    ghost word = { type_word };

    ghost following = { type_after };

    fn of(text: &str) -> Option<TypeWord> {
        match_text!(text; "arith.int" => TypeWord::Int, "arith.index" => TypeWord::Index)
    }

    fn parse(self, stream: &mut TextStream) -> ParseResult<ArithType, A> {
        match self {
            TypeWord::Int => Ok(ArithType::Int(after_word(stream)?)),
            TypeWord::Index => word_alone(stream, ArithType::Index),
        }
    }
}

impl<A> IrText<A> for ArithType {
    ghost use Rattle.irtext_arith.specs.Types.{type_at, type_text};
    ghost use Rattle.irtext_arith.specs.TypeLaws.{type_lawful, type_sincere, type_decides};

    ghost reading = { type_at };

    ghost written = { type_text };

    ghost lawful = { type_lawful };

    ghost sincere = { type_sincere };

    ghost decides = { type_decides };

    fn read(stream: &mut TextStream) -> ParseResult<ArithType, A> {
        table_parse::<TypeWord, ArithType, A>(stream, "Unregistered type ", Expected::Type)
    }

    fn write_text(&self, f: &mut String) -> Result<(), OutOfMemory> {
        match self {
            ArithType::Int(part) => write_row::<Number<u32>, A>("arith.int", part, f),
            ArithType::Index => write_word("arith.index", f),
        }
    }
}

impl TryClone for ArithType {
    fn try_clone(&self) -> Result<ArithType, AllocError> {
        match self {
            ArithType::Int(part) => Ok(ArithType::Int(part.try_clone()?)),
            ArithType::Index => Ok(ArithType::Index),
        }
    }
}

impl Worded for ArithType {
    ghost use Rattle.irtext_arith.specs.Types.{type_words};

    ghost words = { type_words };

    fn has_word(word: &str) -> bool {
        matches_text!(word, "arith.int" | "arith.index")
    }
}

impl<A> Family<A> for ArithType {
    ghost use Rattle.irtext_arith.specs.TypeLaws.{type_led};

    ghost led = { type_led };
}
