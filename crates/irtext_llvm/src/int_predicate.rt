//! The choice `IntPredicate` of the dialect `llvm`: a word, as a part of other texts.
ghost use Rattle.irtext_syntax.specs.OwnLaws.{own_last};
ghost use Rattle.irtext_syntax.specs.Owns.{ends_text};

use irtext_base::parsable::{ParseResult, TextStream};
use irtext_base::result::Expected;
use irtext_memory::OutOfMemory;
use irtext_syntax::match_text;
use irtext_syntax::part::{Item, Last, Part, Plain};
use irtext_syntax::table::{Choice, table_parse, write_word};

/// One of the words `eq`, `ne`, `ugt`, `uge`, `ult`, `ule`, `sgt`, `sge`, `slt` or `sle`. Another word is an error with the text `Unknown
/// int predicate ` and the word, at its beginning.
#[derive(Clone, Copy, PartialEq, Eq, Hash, Debug)]
pub enum IntPredicate {
    /// Printed as `eq`.
    Eq,
    /// Printed as `ne`.
    Ne,
    /// Printed as `ugt`.
    Ugt,
    /// Printed as `uge`.
    Uge,
    /// Printed as `ult`.
    Ult,
    /// Printed as `ule`.
    Ule,
    /// Printed as `sgt`.
    Sgt,
    /// Printed as `sge`.
    Sge,
    /// Printed as `slt`.
    Slt,
    /// Printed as `sle`.
    Sle,
}

impl Choice for IntPredicate {
    ghost use Rattle.irtext_llvm.specs.IntPredicates.{int_predicate_word};

    ghost chosen = { int_predicate_word };

    fn choice(text: &str) -> Option<IntPredicate> {
        match_text!(text; "eq" => IntPredicate::Eq, "ne" => IntPredicate::Ne,
            "ugt" => IntPredicate::Ugt, "uge" => IntPredicate::Uge, "ult" => IntPredicate::Ult,
            "ule" => IntPredicate::Ule, "sgt" => IntPredicate::Sgt, "sge" => IntPredicate::Sge,
            "slt" => IntPredicate::Slt, "sle" => IntPredicate::Sle)
    }
}

impl<A> Part<A> for IntPredicate {
    ghost use Rattle.irtext_llvm.specs.IntPredicates.{int_predicate_at, int_predicate_text};
    ghost use Rattle.irtext_llvm.specs.IntPredicateLaws.{int_predicate_law, int_predicate_decides};

    ghost text = { record { reading = int_predicate_at; written = int_predicate_text; ends = ends_text } };

    ghost sound = { record { law = int_predicate_law; decides = int_predicate_decides } };

    fn read(stream: &mut TextStream) -> ParseResult<IntPredicate, A> {
        table_parse::<IntPredicate, IntPredicate, A>(
            stream,
            "Unknown int predicate ",
            Expected::Attribute,
        )
    }

    fn write_text(&self, f: &mut String) -> Result<(), OutOfMemory> {
        match self {
            IntPredicate::Eq => write_word("eq", f),
            IntPredicate::Ne => write_word("ne", f),
            IntPredicate::Ugt => write_word("ugt", f),
            IntPredicate::Uge => write_word("uge", f),
            IntPredicate::Ult => write_word("ult", f),
            IntPredicate::Ule => write_word("ule", f),
            IntPredicate::Sgt => write_word("sgt", f),
            IntPredicate::Sge => write_word("sge", f),
            IntPredicate::Slt => write_word("slt", f),
            IntPredicate::Sle => write_word("sle", f),
        }
    }
}

impl<A> Item<A> for IntPredicate {
    ghost use Rattle.irtext_llvm.specs.IntPredicateLaws.{int_predicate_misses};

    ghost misses = { int_predicate_misses };
}

impl<A> Last<A> for IntPredicate {
    ghost last = { own_last };
}

impl Plain for IntPredicate {}
