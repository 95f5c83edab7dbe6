//! The choice `Update` of the dialect `llvm`: a word, as a part of other texts.
ghost use Rattle.irtext_syntax.specs.OwnLaws.{own_last};
ghost use Rattle.irtext_syntax.specs.Owns.{ends_text};

use irtext_base::parsable::{ParseResult, TextStream};
use irtext_base::result::Expected;
use irtext_memory::OutOfMemory;
use irtext_syntax::match_text;
use irtext_syntax::part::{Item, Last, Part, Plain};
use irtext_syntax::table::{Choice, table_parse, write_word};

/// One of the words `xchg`, `add`, `sub`, `and`, `nand`, `or`, `xor`, `max`, `min`, `umax`, `umin`, `fadd`, `fsub`, `fmax` or `fmin`.
/// Another word is an error with the text `Unknown update ` and the word, at its beginning.
#[derive(Clone, Copy, PartialEq, Eq, Hash, Debug)]
pub enum Update {
    /// Printed as `xchg`.
    Xchg,
    /// Printed as `add`.
    Add,
    /// Printed as `sub`.
    Sub,
    /// Printed as `and`.
    And,
    /// Printed as `nand`.
    Nand,
    /// Printed as `or`.
    Or,
    /// Printed as `xor`.
    Xor,
    /// Printed as `max`.
    Max,
    /// Printed as `min`.
    Min,
    /// Printed as `umax`.
    Umax,
    /// Printed as `umin`.
    Umin,
    /// Printed as `fadd`.
    Fadd,
    /// Printed as `fsub`.
    Fsub,
    /// Printed as `fmax`.
    Fmax,
    /// Printed as `fmin`.
    Fmin,
}

impl Choice for Update {
    ghost use Rattle.irtext_llvm.specs.Updates.{update_word};

    ghost chosen = { update_word };

    fn choice(text: &str) -> Option<Update> {
        match_text!(text; "xchg" => Update::Xchg, "add" => Update::Add, "sub" => Update::Sub,
            "and" => Update::And, "nand" => Update::Nand, "or" => Update::Or, "xor" => Update::Xor,
            "max" => Update::Max, "min" => Update::Min, "umax" => Update::Umax,
            "umin" => Update::Umin, "fadd" => Update::Fadd, "fsub" => Update::Fsub,
            "fmax" => Update::Fmax, "fmin" => Update::Fmin)
    }
}

impl<A> Part<A> for Update {
    ghost use Rattle.irtext_llvm.specs.Updates.{update_at, update_text};
    ghost use Rattle.irtext_llvm.specs.UpdateLaws.{update_law, update_decides};

    ghost text = { record { reading = update_at; written = update_text; ends = ends_text } };

    ghost sound = { record { law = update_law; decides = update_decides } };

    fn read(stream: &mut TextStream) -> ParseResult<Update, A> {
        table_parse::<Update, Update, A>(stream, "Unknown update ", Expected::Attribute)
    }

    fn write_text(&self, f: &mut String) -> Result<(), OutOfMemory> {
        match self {
            Update::Xchg => write_word("xchg", f),
            Update::Add => write_word("add", f),
            Update::Sub => write_word("sub", f),
            Update::And => write_word("and", f),
            Update::Nand => write_word("nand", f),
            Update::Or => write_word("or", f),
            Update::Xor => write_word("xor", f),
            Update::Max => write_word("max", f),
            Update::Min => write_word("min", f),
            Update::Umax => write_word("umax", f),
            Update::Umin => write_word("umin", f),
            Update::Fadd => write_word("fadd", f),
            Update::Fsub => write_word("fsub", f),
            Update::Fmax => write_word("fmax", f),
            Update::Fmin => write_word("fmin", f),
        }
    }
}

impl<A> Item<A> for Update {
    ghost use Rattle.irtext_llvm.specs.UpdateLaws.{update_misses};

    ghost misses = { update_misses };
}

impl<A> Last<A> for Update {
    ghost last = { own_last };
}

impl Plain for Update {}
