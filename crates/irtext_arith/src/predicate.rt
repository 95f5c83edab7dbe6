//! The choice `Predicate` of the dialect `arith`: a word, as a part of other texts.
ghost use Rattle.irtext_syntax.specs.OwnLaws.{own_last};
ghost use Rattle.irtext_syntax.specs.Owns.{ends_text};

use irtext_base::parsable::{ParseResult, TextStream};
use irtext_base::result::Expected;
use irtext_memory::OutOfMemory;
use irtext_syntax::match_text;
use irtext_syntax::part::{Item, Last, Part, Plain};
use irtext_syntax::table::{Choice, table_parse, write_word};

/// One of the words `eq`, `ne`, `lt` or `le`. Another word is an error with the text `Unknown predicate ` and the word, at its beginning.
#[derive(Clone, Copy, PartialEq, Eq, Hash, Debug)]
pub enum Predicate {
    /// Printed as `eq`.
    Equal,
    /// Printed as `ne`.
    Different,
    /// Printed as `lt`.
    Less,
    /// Printed as `le`.
    LessOrEqual,
}

impl Choice for Predicate {
    ghost use Rattle.irtext_arith.specs.Predicates.{predicate_word};

    ghost chosen = { predicate_word };

    fn choice(text: &str) -> Option<Predicate> {
        match_text!(text; "eq" => Predicate::Equal, "ne" => Predicate::Different,
            "lt" => Predicate::Less, "le" => Predicate::LessOrEqual)
    }
}

impl<A> Part<A> for Predicate {
    ghost use Rattle.irtext_arith.specs.Predicates.{predicate_at, predicate_text};
    ghost use Rattle.irtext_arith.specs.PredicateLaws.{predicate_law, predicate_decides};

    ghost text = { record { reading = predicate_at; written = predicate_text; ends = ends_text } };

    ghost sound = { record { law = predicate_law; decides = predicate_decides } };

    fn read(stream: &mut TextStream) -> ParseResult<Predicate, A> {
        table_parse::<Predicate, Predicate, A>(stream, "Unknown predicate ", Expected::Attribute)
    }

    fn write_text(&self, f: &mut String) -> Result<(), OutOfMemory> {
        match self {
            Predicate::Equal => write_word("eq", f),
            Predicate::Different => write_word("ne", f),
            Predicate::Less => write_word("lt", f),
            Predicate::LessOrEqual => write_word("le", f),
        }
    }
}

impl<A> Item<A> for Predicate {
    ghost use Rattle.irtext_arith.specs.PredicateLaws.{predicate_misses};

    ghost misses = { predicate_misses };
}

impl<A> Last<A> for Predicate {
    ghost last = { own_last };
}

impl Plain for Predicate {}
