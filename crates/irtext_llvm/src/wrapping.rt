//! The choice `Wrapping` of the dialect `llvm`: a word, as a part of other texts.
ghost use Rattle.irtext_syntax.specs.OwnLaws.{own_last};
ghost use Rattle.irtext_syntax.specs.Owns.{ends_text};

use irtext_base::parsable::{ParseResult, TextStream};
use irtext_base::result::Expected;
use irtext_memory::OutOfMemory;
use irtext_syntax::match_text;
use irtext_syntax::part::{Item, Last, Part, Plain};
use irtext_syntax::table::{Choice, table_parse, write_word};

/// One of the words `wraps`, `nsw`, `nuw` or `nuw_nsw`. Another word is an error with the text `Unknown wrapping ` and the word, at its
/// beginning.
#[derive(Clone, Copy, PartialEq, Eq, Hash, Debug)]
pub enum Wrapping {
    /// Printed as `wraps`.
    Wraps,
    /// Printed as `nsw`.
    Nsw,
    /// Printed as `nuw`.
    Nuw,
    /// Printed as `nuw_nsw`.
    NuwNsw,
}

impl Choice for Wrapping {
    ghost use Rattle.irtext_llvm.specs.Wrappings.{wrapping_word};

    ghost chosen = { wrapping_word };

    fn choice(text: &str) -> Option<Wrapping> {
        match_text!(text; "wraps" => Wrapping::Wraps, "nsw" => Wrapping::Nsw,
            "nuw" => Wrapping::Nuw, "nuw_nsw" => Wrapping::NuwNsw)
    }
}

impl<A> Part<A> for Wrapping {
    ghost use Rattle.irtext_llvm.specs.Wrappings.{wrapping_at, wrapping_text};
    ghost use Rattle.irtext_llvm.specs.WrappingLaws.{wrapping_law, wrapping_decides};

    ghost text = { record { reading = wrapping_at; written = wrapping_text; ends = ends_text } };

    ghost sound = { record { law = wrapping_law; decides = wrapping_decides } };

    fn read(stream: &mut TextStream) -> ParseResult<Wrapping, A> {
        table_parse::<Wrapping, Wrapping, A>(stream, "Unknown wrapping ", Expected::Attribute)
    }

    fn write_text(&self, f: &mut String) -> Result<(), OutOfMemory> {
        match self {
            Wrapping::Wraps => write_word("wraps", f),
            Wrapping::Nsw => write_word("nsw", f),
            Wrapping::Nuw => write_word("nuw", f),
            Wrapping::NuwNsw => write_word("nuw_nsw", f),
        }
    }
}

impl<A> Item<A> for Wrapping {
    ghost use Rattle.irtext_llvm.specs.WrappingLaws.{wrapping_misses};

    ghost misses = { wrapping_misses };
}

impl<A> Last<A> for Wrapping {
    ghost last = { own_last };
}

impl Plain for Wrapping {}
