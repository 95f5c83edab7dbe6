//! The choice `FloatKind` of the dialect `llvm`: a word, as a part of other texts.
ghost use Rattle.irtext_syntax.specs.OwnLaws.{own_last};
ghost use Rattle.irtext_syntax.specs.Owns.{ends_text};

use irtext_base::parsable::{ParseResult, TextStream};
use irtext_base::result::Expected;
use irtext_memory::OutOfMemory;
use irtext_syntax::match_text;
use irtext_syntax::part::{Item, Last, Part, Plain};
use irtext_syntax::table::{Choice, table_parse, write_word};

/// One of the words `half`, `bfloat`, `float`, `double`, `x86_fp80`, `fp128` or `ppc_fp128`. Another word is an error with the text
/// `Unknown float kind ` and the word, at its beginning.
#[derive(Clone, Copy, PartialEq, Eq, Hash, Debug)]
pub enum FloatKind {
    /// Printed as `half`.
    Half,
    /// Printed as `bfloat`.
    Bfloat,
    /// Printed as `float`.
    Float,
    /// Printed as `double`.
    Double,
    /// Printed as `x86_fp80`.
    X86Fp80,
    /// Printed as `fp128`.
    Fp128,
    /// Printed as `ppc_fp128`.
    PpcFp128,
}

impl Choice for FloatKind {
    ghost use Rattle.irtext_llvm.specs.FloatKinds.{float_kind_word};

    ghost chosen = { float_kind_word };

    fn choice(text: &str) -> Option<FloatKind> {
        match_text!(text; "half" => FloatKind::Half, "bfloat" => FloatKind::Bfloat,
            "float" => FloatKind::Float, "double" => FloatKind::Double,
            "x86_fp80" => FloatKind::X86Fp80, "fp128" => FloatKind::Fp128,
            "ppc_fp128" => FloatKind::PpcFp128)
    }
}

impl<A> Part<A> for FloatKind {
    ghost use Rattle.irtext_llvm.specs.FloatKinds.{float_kind_at, float_kind_text};
    ghost use Rattle.irtext_llvm.specs.FloatKindLaws.{float_kind_law, float_kind_decides};

    ghost text = { record { reading = float_kind_at; written = float_kind_text; ends = ends_text } };

    ghost sound = { record { law = float_kind_law; decides = float_kind_decides } };

    fn read(stream: &mut TextStream) -> ParseResult<FloatKind, A> {
        table_parse::<FloatKind, FloatKind, A>(stream, "Unknown float kind ", Expected::Type)
    }

    fn write_text(&self, f: &mut String) -> Result<(), OutOfMemory> {
        match self {
            FloatKind::Half => write_word("half", f),
            FloatKind::Bfloat => write_word("bfloat", f),
            FloatKind::Float => write_word("float", f),
            FloatKind::Double => write_word("double", f),
            FloatKind::X86Fp80 => write_word("x86_fp80", f),
            FloatKind::Fp128 => write_word("fp128", f),
            FloatKind::PpcFp128 => write_word("ppc_fp128", f),
        }
    }
}

impl<A> Item<A> for FloatKind {
    ghost use Rattle.irtext_llvm.specs.FloatKindLaws.{float_kind_misses};

    ghost misses = { float_kind_misses };
}

impl<A> Last<A> for FloatKind {
    ghost last = { own_last };
}

impl Plain for FloatKind {}
