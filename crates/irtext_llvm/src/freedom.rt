//! The choice `Freedom` of the dialect `llvm`: a word, as a part of other texts.
ghost use Rattle.irtext_syntax.specs.OwnLaws.{own_last};
ghost use Rattle.irtext_syntax.specs.Owns.{ends_text};

use irtext_base::parsable::{ParseResult, TextStream};
use irtext_base::result::Expected;
use irtext_memory::OutOfMemory;
use irtext_syntax::match_text;
use irtext_syntax::part::{Item, Last, Part, Plain};
use irtext_syntax::table::{Choice, table_parse, write_word};

/// One of the words `nnan`, `ninf`, `nsz`, `arcp`, `contract`, `afn` or `reassoc`. Another word is an error with the text `Unknown freedom
/// ` and the word, at its beginning.
#[derive(Clone, Copy, PartialEq, Eq, Hash, Debug)]
pub enum Freedom {
    /// Printed as `nnan`.
    Nnan,
    /// Printed as `ninf`.
    Ninf,
    /// Printed as `nsz`.
    Nsz,
    /// Printed as `arcp`.
    Arcp,
    /// Printed as `contract`.
    Contract,
    /// Printed as `afn`.
    Afn,
    /// Printed as `reassoc`.
    Reassoc,
}

impl Choice for Freedom {
    ghost use Rattle.irtext_llvm.specs.Freedoms.{freedom_word};

    ghost chosen = { freedom_word };

    fn choice(text: &str) -> Option<Freedom> {
        match_text!(text; "nnan" => Freedom::Nnan, "ninf" => Freedom::Ninf, "nsz" => Freedom::Nsz,
            "arcp" => Freedom::Arcp, "contract" => Freedom::Contract, "afn" => Freedom::Afn,
            "reassoc" => Freedom::Reassoc)
    }
}

impl<A> Part<A> for Freedom {
    ghost use Rattle.irtext_llvm.specs.Freedoms.{freedom_at, freedom_text};
    ghost use Rattle.irtext_llvm.specs.FreedomLaws.{freedom_law, freedom_decides};

    ghost text = { record { reading = freedom_at; written = freedom_text; ends = ends_text } };

    ghost sound = { record { law = freedom_law; decides = freedom_decides } };

    fn read(stream: &mut TextStream) -> ParseResult<Freedom, A> {
        table_parse::<Freedom, Freedom, A>(stream, "Unknown freedom ", Expected::Attribute)
    }

    fn write_text(&self, f: &mut String) -> Result<(), OutOfMemory> {
        match self {
            Freedom::Nnan => write_word("nnan", f),
            Freedom::Ninf => write_word("ninf", f),
            Freedom::Nsz => write_word("nsz", f),
            Freedom::Arcp => write_word("arcp", f),
            Freedom::Contract => write_word("contract", f),
            Freedom::Afn => write_word("afn", f),
            Freedom::Reassoc => write_word("reassoc", f),
        }
    }
}

impl<A> Item<A> for Freedom {
    ghost use Rattle.irtext_llvm.specs.FreedomLaws.{freedom_misses};

    ghost misses = { freedom_misses };
}

impl<A> Last<A> for Freedom {
    ghost last = { own_last };
}

impl Plain for Freedom {}
