//! The heads of the types of a dialect `llvm`: one with a fixed part, a word, one with a hole, and two with a list of holes.
use crate::brackets::AngleComma;
use irtext_base::parsable::{ParseResult, TextStream};
use irtext_base::result::Expected;
use irtext_base::text::Worded;
use irtext_memory::OutOfMemory;
use irtext_syntax::part::TryClone;
use irtext_syntax::sequence::Within;
use irtext_syntax::table::{Table, after_word, table_parse, word_alone, write_row, write_word};
use irtext_syntax::{Number, match_text, matches_text};
use irtext_tree::marks::{mark_parse, more_parse, opened_parse, opening_parse, write_spaced_row};
use irtext_tree::{AttrGrammar, Grammar, Grows, LedGrammar, Waits};
use std::alloc::AllocError;

/// What comes after `llvm.array`: `<N, `.
pub type ArrayText = Within<AngleComma, Number<u64>>;

/// A head of a type of the dialect `llvm`.
#[derive(PartialEq, Eq, Hash, Debug, Drop)]
pub enum LlvmHead {
    /// `llvm.int N`.
    Int(Number<u32>),
    /// `llvm.ptr`.
    Ptr,
    /// `llvm.array <N, `, before a type and `>`.
    Array(ArrayText),
    /// `llvm.func <`, before a type, and more or `>`.
    Func,
    /// `llvm.struct <`, before a type, and more or `>`.
    Struct,
    /// `llvm.struct <>`.
    NoFields,
    /// `>`.
    Close,
    /// `, `, before a type, and more or `>`.
    More,
    /// `>`, where more could come.
    End,
}

/// The places of the dialect `llvm`.
#[derive(Clone, Copy, PartialEq, Eq)]
pub enum LlvmPlace {
    /// A type.
    Type,
    /// `>`.
    Close,
    /// `, ` or `>`.
    More,
}

/// The words that types of the dialect begin with.
#[derive(Clone, Copy)]
pub enum TypeWord {
    /// `llvm.int`.
    Int,
    /// `llvm.ptr`.
    Ptr,
    /// `llvm.array`.
    Array,
    /// `llvm.func`.
    Func,
    /// `llvm.struct`.
    Struct,
}

impl<A> Table<LlvmHead, A> for TypeWord {
    ghost use Rattle.irtext_tests_trees.specs.Types.{type_word, type_after};

    ghost word = { type_word };

    ghost following = { type_after };

    fn of(text: &str) -> Option<TypeWord> {
        match_text!(text; "llvm.int" => TypeWord::Int, "llvm.ptr" => TypeWord::Ptr, "llvm.array" => TypeWord::Array,
            "llvm.func" => TypeWord::Func, "llvm.struct" => TypeWord::Struct)
    }

    fn parse(self, stream: &mut TextStream) -> ParseResult<LlvmHead, A> {
        match self {
            TypeWord::Int => Ok(LlvmHead::Int(after_word(stream)?)),
            TypeWord::Ptr => word_alone(stream, LlvmHead::Ptr),
            TypeWord::Array => Ok(LlvmHead::Array(after_word(stream)?)),
            TypeWord::Func => opening_parse(stream, "<", LlvmHead::Func),
            TypeWord::Struct => opened_parse(
                stream,
                "<",
                LlvmHead::Struct,
                '>',
                LlvmHead::NoFields,
            ),
        }
    }
}

impl Grows<LlvmHead> for LlvmPlace {
    ghost use Rattle.irtext_tests_trees.specs.Types.{llvm_growth};

    ghost growth = { llvm_growth };

    fn start() -> LlvmPlace {
        LlvmPlace::Type
    }

    fn is_start(self) -> bool {
        matches!(self, LlvmPlace::Type)
    }

    fn takes(self, head: &LlvmHead) -> bool {
        match head {
            LlvmHead::Close => matches!(self, LlvmPlace::Close),
            LlvmHead::More | LlvmHead::End => matches!(self, LlvmPlace::More),
            LlvmHead::Int(_)
            | LlvmHead::Ptr
            | LlvmHead::Array(_)
            | LlvmHead::Func
            | LlvmHead::Struct
            | LlvmHead::NoFields => matches!(self, LlvmPlace::Type),
        }
    }

    fn waits(head: &LlvmHead) -> Waits<LlvmPlace> {
        match head {
            LlvmHead::Array(_) => Waits::Two(LlvmPlace::Type, LlvmPlace::Close),
            LlvmHead::Func | LlvmHead::Struct | LlvmHead::More => Waits::Two(
                LlvmPlace::Type,
                LlvmPlace::More,
            ),
            LlvmHead::Int(_)
            | LlvmHead::Ptr
            | LlvmHead::NoFields
            | LlvmHead::Close
            | LlvmHead::End => Waits::Nothing,
        }
    }
}

impl<A> Grammar<LlvmHead, A> for LlvmPlace {
    ghost use Rattle.irtext_tests_trees.specs.Types.{llvm_at, llvm_text};
    ghost use Rattle.irtext_tests_trees.specs.TypeLaws.{llvm_same, llvm_law};

    ghost reading = { llvm_at };

    ghost written = { llvm_text };

    ghost same = { llvm_same };

    ghost sound = { llvm_law };

    fn read(self, stream: &mut TextStream) -> ParseResult<LlvmHead, A> {
        match self {
            LlvmPlace::Type => table_parse::<TypeWord, LlvmHead, A>(
                stream,
                "Unregistered type ",
                Expected::Type,
            ),
            LlvmPlace::Close => mark_parse(stream, ">", LlvmHead::Close),
            LlvmPlace::More => more_parse(stream, ',', LlvmHead::More, ">", LlvmHead::End),
        }
    }

    fn write_head(head: &LlvmHead, f: &mut String) -> Result<(), OutOfMemory> {
        match head {
            LlvmHead::Int(part) => write_row::<Number<u32>, A>("llvm.int", part, f),
            LlvmHead::Ptr => write_word("llvm.ptr", f),
            LlvmHead::Array(part) => write_spaced_row::<ArrayText, A>("llvm.array", part, f),
            LlvmHead::Func => write_word("llvm.func <", f),
            LlvmHead::Struct => write_word("llvm.struct <", f),
            LlvmHead::NoFields => write_word("llvm.struct <>", f),
            LlvmHead::Close | LlvmHead::End => write_word(">", f),
            LlvmHead::More => write_word(", ", f),
        }
    }
}

impl Worded for LlvmHead {
    ghost use Rattle.irtext_tests_trees.specs.Types.{type_words};

    ghost words = { type_words };

    fn has_word(word: &str) -> bool {
        matches_text!(
            word,
            "llvm.int" | "llvm.ptr" | "llvm.array" | "llvm.func" | "llvm.struct"
        )
    }
}

impl<A> LedGrammar<LlvmHead, A> for LlvmPlace {
    ghost use Rattle.irtext_tests_trees.specs.TypeLaws.{llvm_led};

    ghost led = { llvm_led };
}

impl TryClone for LlvmHead {
    fn try_clone(&self) -> Result<LlvmHead, AllocError> {
        match self {
            LlvmHead::Int(part) => Ok(LlvmHead::Int(part.try_clone()?)),
            LlvmHead::Ptr => Ok(LlvmHead::Ptr),
            LlvmHead::Array(part) => Ok(LlvmHead::Array(part.try_clone()?)),
            LlvmHead::Func => Ok(LlvmHead::Func),
            LlvmHead::Struct => Ok(LlvmHead::Struct),
            LlvmHead::NoFields => Ok(LlvmHead::NoFields),
            LlvmHead::Close => Ok(LlvmHead::Close),
            LlvmHead::More => Ok(LlvmHead::More),
            LlvmHead::End => Ok(LlvmHead::End),
        }
    }
}

/// The same heads as attributes, which hold attributes. `llvm.func` is outlined, and is printed once.
impl<A> AttrGrammar<LlvmHead, A> for LlvmPlace {
    ghost use Rattle.irtext_tests_trees.specs.Types.{is_func};
    ghost use Rattle.irtext_tests_trees.specs.TypeLaws.{llvm_unreserved};

    ghost outlined = { is_func };

    ghost print_once = { is_func };

    ghost unreserved = { llvm_unreserved };

    fn is_outlined(head: &LlvmHead) -> bool {
        matches!(head, LlvmHead::Func)
    }

    fn is_print_once(head: &LlvmHead) -> bool {
        matches!(head, LlvmHead::Func)
    }

    fn clone_head(head: &LlvmHead) -> Result<LlvmHead, AllocError> {
        head.try_clone()
    }
}
