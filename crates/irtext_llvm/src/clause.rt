//! The choice `Clause` of the dialect `llvm`: a word, as a part of other texts.
ghost use Rattle.irtext_syntax.specs.OwnLaws.{own_last};
ghost use Rattle.irtext_syntax.specs.Owns.{ends_text};

use irtext_base::parsable::{ParseResult, TextStream};
use irtext_base::result::Expected;
use irtext_memory::OutOfMemory;
use irtext_syntax::match_text;
use irtext_syntax::part::{Item, Last, Part, Plain};
use irtext_syntax::table::{Choice, table_parse, write_word};

/// One of the words `cleanup`, `catch` or `filter`. Another word is an error with the text `Unknown clause ` and the word, at its
/// beginning.
#[derive(Clone, Copy, PartialEq, Eq, Hash, Debug)]
pub enum Clause {
    /// Printed as `cleanup`.
    Cleanup,
    /// Printed as `catch`.
    Catch,
    /// Printed as `filter`.
    Filter,
}

impl Choice for Clause {
    ghost use Rattle.irtext_llvm.specs.Clauses.{clause_word};

    ghost chosen = { clause_word };

    fn choice(text: &str) -> Option<Clause> {
        match_text!(text; "cleanup" => Clause::Cleanup, "catch" => Clause::Catch,
            "filter" => Clause::Filter)
    }
}

impl<A> Part<A> for Clause {
    ghost use Rattle.irtext_llvm.specs.Clauses.{clause_at, clause_text};
    ghost use Rattle.irtext_llvm.specs.ClauseLaws.{clause_law, clause_decides};

    ghost text = { record { reading = clause_at; written = clause_text; ends = ends_text } };

    ghost sound = { record { law = clause_law; decides = clause_decides } };

    fn read(stream: &mut TextStream) -> ParseResult<Clause, A> {
        table_parse::<Clause, Clause, A>(stream, "Unknown clause ", Expected::Attribute)
    }

    fn write_text(&self, f: &mut String) -> Result<(), OutOfMemory> {
        match self {
            Clause::Cleanup => write_word("cleanup", f),
            Clause::Catch => write_word("catch", f),
            Clause::Filter => write_word("filter", f),
        }
    }
}

impl<A> Item<A> for Clause {
    ghost use Rattle.irtext_llvm.specs.ClauseLaws.{clause_misses};

    ghost misses = { clause_misses };
}

impl<A> Last<A> for Clause {
    ghost last = { own_last };
}

impl Plain for Clause {}
