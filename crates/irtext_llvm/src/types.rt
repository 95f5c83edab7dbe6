//! The heads of the types of the dialect `llvm`, which hold types of the context.
use crate::brackets::AngleComma;
use crate::fixed::Bits;
use crate::float_kind::FloatKind;
use irtext_base::parsable::{ParseResult, TextStream};
use irtext_base::result::Expected;
use irtext_base::text::Worded;
use irtext_memory::OutOfMemory;
use irtext_syntax::part::TryClone;
use irtext_syntax::range::Ranged;
use irtext_syntax::ready::Angle;
use irtext_syntax::sequence::Within;
use irtext_syntax::table::{Table, after_word, table_parse, word_alone, write_row, write_word};
use irtext_syntax::{Characters, Number, match_text, matches_text};
use irtext_tree::marks::{mark_parse, more_parse, opened_parse, write_spaced_row};
use irtext_tree::{Grammar, Grows, LedGrammar, Tree, Waits};
use std::alloc::AllocError;

/// What comes after `llvm.ptr_in`: `<N>`.
pub type PointerInText = Within<Angle, Number<u32>>;

/// What comes after `llvm.array`: `<N, `.
pub type ArrayText = Within<AngleComma, Number<u64>>;

/// What comes after `llvm.vector`: `<N, `.
pub type VectorText = Within<AngleComma, Number<u64>>;

/// What comes after `llvm.scalable`: `<N, `.
pub type ScalableText = Within<AngleComma, Number<u64>>;

/// The types of a context of the dialect `llvm` alone. `Places` makes one of those of several dialects.
pub type LlvmType = Tree<LlvmTypePlace, LlvmTypeHead>;

/// A head of a type of the dialect `llvm`.
#[derive(PartialEq, Eq, Hash, Debug, Drop)]
pub enum LlvmTypeHead {
    /// `llvm.void`.
    Void,
    /// `llvm.label`.
    Label,
    /// `llvm.token`.
    Token,
    /// `llvm.metadata`.
    Metadata,
    /// `llvm.opaque`.
    Opaque,
    /// `llvm.ptr`.
    Pointer,
    /// `llvm.ptr_in <N>`.
    PointerIn(PointerInText),
    /// `llvm.int N`.
    Int(Ranged<Bits>),
    /// `llvm.fp half|bfloat|float|double|x86_fp80|fp128|ppc_fp128`.
    Fp(FloatKind),
    /// `llvm.named "S"`.
    Named(Characters),
    /// `llvm.array <N, `, before a type and `>`.
    Array(ArrayText),
    /// `llvm.vector <N, `, before a type and `>`.
    Vector(VectorText),
    /// `llvm.scalable <N, `, before a type and `>`.
    Scalable(ScalableText),
    /// `llvm.struct <`, before a type and `, ` or `>`.
    Struct,
    /// `llvm.struct <>`.
    EmptyStruct,
    /// `llvm.packed <`, before a type and `, ` or `>`.
    Packed,
    /// `llvm.packed <>`.
    EmptyPacked,
    /// `llvm.func <`, before a type and `, ` or `>`.
    Func,
    /// `llvm.func <>`.
    EmptyFunc,
    /// `llvm.varargs <`, before a type and `, ` or `>`.
    Varargs,
    /// `llvm.varargs <>`.
    EmptyVarargs,
    /// `>`.
    CloseAngle,
    /// `, `, before a type and `, ` or `>`.
    NextAngle,
    /// `>`, where one more could come.
    EndAngle,
}

/// The places of the types of the dialect.
#[derive(Clone, Copy, PartialEq, Eq)]
pub enum LlvmTypePlace {
    /// A type.
    Type,
    /// `>`.
    CloseAngle,
    /// `, ` or `>`.
    MoreAngle,
}

/// The words that types of the dialect begin with.
#[derive(Clone, Copy)]
pub enum TypeWord {
    /// `llvm.void`.
    Void,
    /// `llvm.label`.
    Label,
    /// `llvm.token`.
    Token,
    /// `llvm.metadata`.
    Metadata,
    /// `llvm.opaque`.
    Opaque,
    /// `llvm.ptr`.
    Pointer,
    /// `llvm.ptr_in`.
    PointerIn,
    /// `llvm.int`.
    Int,
    /// `llvm.fp`.
    Fp,
    /// `llvm.named`.
    Named,
    /// `llvm.array`.
    Array,
    /// `llvm.vector`.
    Vector,
    /// `llvm.scalable`.
    Scalable,
    /// `llvm.struct`.
    Struct,
    /// `llvm.packed`.
    Packed,
    /// `llvm.func`.
    Func,
    /// `llvm.varargs`.
    Varargs,
}

impl<A> Table<LlvmTypeHead, A> for TypeWord {
    ghost use Rattle.irtext_llvm.specs.Types.{type_word, type_after};

    ghost word = { type_word };

    ghost following = { type_after };

    fn of(text: &str) -> Option<TypeWord> {
        match_text!(text; "llvm.void" => TypeWord::Void, "llvm.label" => TypeWord::Label,
            "llvm.token" => TypeWord::Token, "llvm.metadata" => TypeWord::Metadata,
            "llvm.opaque" => TypeWord::Opaque, "llvm.ptr" => TypeWord::Pointer,
            "llvm.ptr_in" => TypeWord::PointerIn, "llvm.int" => TypeWord::Int,
            "llvm.fp" => TypeWord::Fp, "llvm.named" => TypeWord::Named,
            "llvm.array" => TypeWord::Array, "llvm.vector" => TypeWord::Vector,
            "llvm.scalable" => TypeWord::Scalable, "llvm.struct" => TypeWord::Struct,
            "llvm.packed" => TypeWord::Packed, "llvm.func" => TypeWord::Func,
            "llvm.varargs" => TypeWord::Varargs)
    }

    fn parse(self, stream: &mut TextStream) -> ParseResult<LlvmTypeHead, A> {
        match self {
            TypeWord::Void => word_alone(stream, LlvmTypeHead::Void),
            TypeWord::Label => word_alone(stream, LlvmTypeHead::Label),
            TypeWord::Token => word_alone(stream, LlvmTypeHead::Token),
            TypeWord::Metadata => word_alone(stream, LlvmTypeHead::Metadata),
            TypeWord::Opaque => word_alone(stream, LlvmTypeHead::Opaque),
            TypeWord::Pointer => word_alone(stream, LlvmTypeHead::Pointer),
            TypeWord::PointerIn => Ok(LlvmTypeHead::PointerIn(after_word(stream)?)),
            TypeWord::Int => Ok(LlvmTypeHead::Int(after_word(stream)?)),
            TypeWord::Fp => Ok(LlvmTypeHead::Fp(after_word(stream)?)),
            TypeWord::Named => Ok(LlvmTypeHead::Named(after_word(stream)?)),
            TypeWord::Array => Ok(LlvmTypeHead::Array(after_word(stream)?)),
            TypeWord::Vector => Ok(LlvmTypeHead::Vector(after_word(stream)?)),
            TypeWord::Scalable => Ok(LlvmTypeHead::Scalable(after_word(stream)?)),
            TypeWord::Struct => opened_parse(
                stream,
                "<",
                LlvmTypeHead::Struct,
                '>',
                LlvmTypeHead::EmptyStruct,
            ),
            TypeWord::Packed => opened_parse(
                stream,
                "<",
                LlvmTypeHead::Packed,
                '>',
                LlvmTypeHead::EmptyPacked,
            ),
            TypeWord::Func => opened_parse(
                stream,
                "<",
                LlvmTypeHead::Func,
                '>',
                LlvmTypeHead::EmptyFunc,
            ),
            TypeWord::Varargs => opened_parse(
                stream,
                "<",
                LlvmTypeHead::Varargs,
                '>',
                LlvmTypeHead::EmptyVarargs,
            ),
        }
    }
}

impl Grows<LlvmTypeHead> for LlvmTypePlace {
    ghost use Rattle.irtext_llvm.specs.Types.{type_growth};

    ghost growth = { type_growth };

    fn start() -> LlvmTypePlace {
        LlvmTypePlace::Type
    }

    fn is_start(self) -> bool {
        matches!(self, LlvmTypePlace::Type)
    }

    fn takes(self, head: &LlvmTypeHead) -> bool {
        match head {
            LlvmTypeHead::CloseAngle => matches!(self, LlvmTypePlace::CloseAngle),
            LlvmTypeHead::NextAngle | LlvmTypeHead::EndAngle => matches!(
                self,
                LlvmTypePlace::MoreAngle
            ),
            LlvmTypeHead::Void
            | LlvmTypeHead::Label
            | LlvmTypeHead::Token
            | LlvmTypeHead::Metadata
            | LlvmTypeHead::Opaque
            | LlvmTypeHead::Pointer
            | LlvmTypeHead::PointerIn(_)
            | LlvmTypeHead::Int(_)
            | LlvmTypeHead::Fp(_)
            | LlvmTypeHead::Named(_)
            | LlvmTypeHead::Array(_)
            | LlvmTypeHead::Vector(_)
            | LlvmTypeHead::Scalable(_)
            | LlvmTypeHead::Struct
            | LlvmTypeHead::EmptyStruct
            | LlvmTypeHead::Packed
            | LlvmTypeHead::EmptyPacked
            | LlvmTypeHead::Func
            | LlvmTypeHead::EmptyFunc
            | LlvmTypeHead::Varargs
            | LlvmTypeHead::EmptyVarargs => matches!(self, LlvmTypePlace::Type),
        }
    }

    fn waits(head: &LlvmTypeHead) -> Waits<LlvmTypePlace> {
        match head {
            LlvmTypeHead::Array(_) | LlvmTypeHead::Vector(_) | LlvmTypeHead::Scalable(_) =>
                Waits::Two(LlvmTypePlace::Type, LlvmTypePlace::CloseAngle),
            LlvmTypeHead::Struct
            | LlvmTypeHead::Packed
            | LlvmTypeHead::Func
            | LlvmTypeHead::Varargs
            | LlvmTypeHead::NextAngle => Waits::Two(LlvmTypePlace::Type, LlvmTypePlace::MoreAngle),
            LlvmTypeHead::Void
            | LlvmTypeHead::Label
            | LlvmTypeHead::Token
            | LlvmTypeHead::Metadata
            | LlvmTypeHead::Opaque
            | LlvmTypeHead::Pointer
            | LlvmTypeHead::PointerIn(_)
            | LlvmTypeHead::Int(_)
            | LlvmTypeHead::Fp(_)
            | LlvmTypeHead::Named(_)
            | LlvmTypeHead::EmptyStruct
            | LlvmTypeHead::EmptyPacked
            | LlvmTypeHead::EmptyFunc
            | LlvmTypeHead::EmptyVarargs
            | LlvmTypeHead::CloseAngle
            | LlvmTypeHead::EndAngle => Waits::Nothing,
        }
    }
}

impl<A> Grammar<LlvmTypeHead, A> for LlvmTypePlace {
    ghost use Rattle.irtext_llvm.specs.Types.{type_at, type_text};
    ghost use Rattle.irtext_llvm.specs.TypeLaws.{type_same, type_law};

    ghost reading = { type_at };

    ghost written = { type_text };

    ghost same = { type_same };

    ghost sound = { type_law };

    fn read(self, stream: &mut TextStream) -> ParseResult<LlvmTypeHead, A> {
        match self {
            LlvmTypePlace::Type => table_parse::<TypeWord, LlvmTypeHead, A>(
                stream,
                "Unregistered type ",
                Expected::Type,
            ),
            LlvmTypePlace::CloseAngle => mark_parse(stream, ">", LlvmTypeHead::CloseAngle),
            LlvmTypePlace::MoreAngle => more_parse(
                stream,
                ',',
                LlvmTypeHead::NextAngle,
                ">",
                LlvmTypeHead::EndAngle,
            ),
        }
    }

    fn write_head(head: &LlvmTypeHead, f: &mut String) -> Result<(), OutOfMemory> {
        match head {
            LlvmTypeHead::Void => write_word("llvm.void", f),
            LlvmTypeHead::Label => write_word("llvm.label", f),
            LlvmTypeHead::Token => write_word("llvm.token", f),
            LlvmTypeHead::Metadata => write_word("llvm.metadata", f),
            LlvmTypeHead::Opaque => write_word("llvm.opaque", f),
            LlvmTypeHead::Pointer => write_word("llvm.ptr", f),
            LlvmTypeHead::PointerIn(part) => write_row::<PointerInText, A>("llvm.ptr_in", part, f),
            LlvmTypeHead::Int(part) => write_row::<Ranged<Bits>, A>("llvm.int", part, f),
            LlvmTypeHead::Fp(part) => write_row::<FloatKind, A>("llvm.fp", part, f),
            LlvmTypeHead::Named(part) => write_row::<Characters, A>("llvm.named", part, f),
            LlvmTypeHead::Array(part) => write_spaced_row::<ArrayText, A>("llvm.array", part, f),
            LlvmTypeHead::Vector(part) => write_spaced_row::<VectorText, A>("llvm.vector", part, f),
            LlvmTypeHead::Scalable(part) => write_spaced_row::<ScalableText, A>(
                "llvm.scalable",
                part,
                f,
            ),
            LlvmTypeHead::Struct => write_word("llvm.struct <", f),
            LlvmTypeHead::EmptyStruct => write_word("llvm.struct <>", f),
            LlvmTypeHead::Packed => write_word("llvm.packed <", f),
            LlvmTypeHead::EmptyPacked => write_word("llvm.packed <>", f),
            LlvmTypeHead::Func => write_word("llvm.func <", f),
            LlvmTypeHead::EmptyFunc => write_word("llvm.func <>", f),
            LlvmTypeHead::Varargs => write_word("llvm.varargs <", f),
            LlvmTypeHead::EmptyVarargs => write_word("llvm.varargs <>", f),
            LlvmTypeHead::CloseAngle => write_word(">", f),
            LlvmTypeHead::NextAngle => write_word(", ", f),
            LlvmTypeHead::EndAngle => write_word(">", f),
        }
    }
}

impl Worded for LlvmTypeHead {
    ghost use Rattle.irtext_llvm.specs.Types.{type_words};

    ghost words = { type_words };

    fn has_word(word: &str) -> bool {
        matches_text!(
            word,
            "llvm.void"
                | "llvm.label"
                | "llvm.token"
                | "llvm.metadata"
                | "llvm.opaque"
                | "llvm.ptr"
                | "llvm.ptr_in"
                | "llvm.int"
                | "llvm.fp"
                | "llvm.named"
                | "llvm.array"
                | "llvm.vector"
                | "llvm.scalable"
                | "llvm.struct"
                | "llvm.packed"
                | "llvm.func"
                | "llvm.varargs"
        )
    }
}

impl<A> LedGrammar<LlvmTypeHead, A> for LlvmTypePlace {
    ghost use Rattle.irtext_llvm.specs.TypeLaws.{type_led};

    ghost led = { type_led };
}

impl TryClone for LlvmTypeHead {
    fn try_clone(&self) -> Result<LlvmTypeHead, AllocError> {
        match self {
            LlvmTypeHead::Void => Ok(LlvmTypeHead::Void),
            LlvmTypeHead::Label => Ok(LlvmTypeHead::Label),
            LlvmTypeHead::Token => Ok(LlvmTypeHead::Token),
            LlvmTypeHead::Metadata => Ok(LlvmTypeHead::Metadata),
            LlvmTypeHead::Opaque => Ok(LlvmTypeHead::Opaque),
            LlvmTypeHead::Pointer => Ok(LlvmTypeHead::Pointer),
            LlvmTypeHead::PointerIn(part) => Ok(LlvmTypeHead::PointerIn(part.try_clone()?)),
            LlvmTypeHead::Int(part) => Ok(LlvmTypeHead::Int(part.try_clone()?)),
            LlvmTypeHead::Fp(part) => Ok(LlvmTypeHead::Fp(part.try_clone()?)),
            LlvmTypeHead::Named(part) => Ok(LlvmTypeHead::Named(part.try_clone()?)),
            LlvmTypeHead::Array(part) => Ok(LlvmTypeHead::Array(part.try_clone()?)),
            LlvmTypeHead::Vector(part) => Ok(LlvmTypeHead::Vector(part.try_clone()?)),
            LlvmTypeHead::Scalable(part) => Ok(LlvmTypeHead::Scalable(part.try_clone()?)),
            LlvmTypeHead::Struct => Ok(LlvmTypeHead::Struct),
            LlvmTypeHead::EmptyStruct => Ok(LlvmTypeHead::EmptyStruct),
            LlvmTypeHead::Packed => Ok(LlvmTypeHead::Packed),
            LlvmTypeHead::EmptyPacked => Ok(LlvmTypeHead::EmptyPacked),
            LlvmTypeHead::Func => Ok(LlvmTypeHead::Func),
            LlvmTypeHead::EmptyFunc => Ok(LlvmTypeHead::EmptyFunc),
            LlvmTypeHead::Varargs => Ok(LlvmTypeHead::Varargs),
            LlvmTypeHead::EmptyVarargs => Ok(LlvmTypeHead::EmptyVarargs),
            LlvmTypeHead::CloseAngle => Ok(LlvmTypeHead::CloseAngle),
            LlvmTypeHead::NextAngle => Ok(LlvmTypeHead::NextAngle),
            LlvmTypeHead::EndAngle => Ok(LlvmTypeHead::EndAngle),
        }
    }
}
