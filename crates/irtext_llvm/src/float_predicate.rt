//! The choice `FloatPredicate` of the dialect `llvm`: a word, as a part of other texts.
ghost use Rattle.irtext_syntax.specs.OwnLaws.{own_last};
ghost use Rattle.irtext_syntax.specs.Owns.{ends_text};

use irtext_base::parsable::{ParseResult, TextStream};
use irtext_base::result::Expected;
use irtext_memory::OutOfMemory;
use irtext_syntax::match_text;
use irtext_syntax::part::{Item, Last, Part, Plain};
use irtext_syntax::table::{Choice, table_parse, write_word};

/// One of the words `false`, `oeq`, `ogt`, `oge`, `olt`, `ole`, `one`, `ord`, `ueq`, `ugt`, `uge`, `ult`, `ule`, `une`, `uno` or `true`.
/// Another word is an error with the text `Unknown float predicate ` and the word, at its beginning.
#[derive(Clone, Copy, PartialEq, Eq, Hash, Debug)]
pub enum FloatPredicate {
    /// Printed as `false`.
    False,
    /// Printed as `oeq`.
    Oeq,
    /// Printed as `ogt`.
    Ogt,
    /// Printed as `oge`.
    Oge,
    /// Printed as `olt`.
    Olt,
    /// Printed as `ole`.
    Ole,
    /// Printed as `one`.
    One,
    /// Printed as `ord`.
    Ord,
    /// Printed as `ueq`.
    Ueq,
    /// Printed as `ugt`.
    Ugt,
    /// Printed as `uge`.
    Uge,
    /// Printed as `ult`.
    Ult,
    /// Printed as `ule`.
    Ule,
    /// Printed as `une`.
    Une,
    /// Printed as `uno`.
    Uno,
    /// Printed as `true`.
    True,
}

impl Choice for FloatPredicate {
    ghost use Rattle.irtext_llvm.specs.FloatPredicates.{float_predicate_word};

    ghost chosen = { float_predicate_word };

    fn choice(text: &str) -> Option<FloatPredicate> {
        match_text!(text; "false" => FloatPredicate::False, "oeq" => FloatPredicate::Oeq,
            "ogt" => FloatPredicate::Ogt, "oge" => FloatPredicate::Oge,
            "olt" => FloatPredicate::Olt, "ole" => FloatPredicate::Ole,
            "one" => FloatPredicate::One, "ord" => FloatPredicate::Ord,
            "ueq" => FloatPredicate::Ueq, "ugt" => FloatPredicate::Ugt,
            "uge" => FloatPredicate::Uge, "ult" => FloatPredicate::Ult,
            "ule" => FloatPredicate::Ule, "une" => FloatPredicate::Une,
            "uno" => FloatPredicate::Uno, "true" => FloatPredicate::True)
    }
}

impl<A> Part<A> for FloatPredicate {
    ghost use Rattle.irtext_llvm.specs.FloatPredicates.{float_predicate_at, float_predicate_text};
    ghost use Rattle.irtext_llvm.specs.FloatPredicateLaws.{float_predicate_law, float_predicate_decides};

    ghost text = { record { reading = float_predicate_at; written = float_predicate_text; ends = ends_text } };

    ghost sound = { record { law = float_predicate_law; decides = float_predicate_decides } };

    fn read(stream: &mut TextStream) -> ParseResult<FloatPredicate, A> {
        table_parse::<FloatPredicate, FloatPredicate, A>(
            stream,
            "Unknown float predicate ",
            Expected::Attribute,
        )
    }

    fn write_text(&self, f: &mut String) -> Result<(), OutOfMemory> {
        match self {
            FloatPredicate::False => write_word("false", f),
            FloatPredicate::Oeq => write_word("oeq", f),
            FloatPredicate::Ogt => write_word("ogt", f),
            FloatPredicate::Oge => write_word("oge", f),
            FloatPredicate::Olt => write_word("olt", f),
            FloatPredicate::Ole => write_word("ole", f),
            FloatPredicate::One => write_word("one", f),
            FloatPredicate::Ord => write_word("ord", f),
            FloatPredicate::Ueq => write_word("ueq", f),
            FloatPredicate::Ugt => write_word("ugt", f),
            FloatPredicate::Uge => write_word("uge", f),
            FloatPredicate::Ult => write_word("ult", f),
            FloatPredicate::Ule => write_word("ule", f),
            FloatPredicate::Une => write_word("une", f),
            FloatPredicate::Uno => write_word("uno", f),
            FloatPredicate::True => write_word("true", f),
        }
    }
}

impl<A> Item<A> for FloatPredicate {
    ghost use Rattle.irtext_llvm.specs.FloatPredicateLaws.{float_predicate_misses};

    ghost misses = { float_predicate_misses };
}

impl<A> Last<A> for FloatPredicate {
    ghost last = { own_last };
}

impl Plain for FloatPredicate {}
