//! The attributes of the dialect `llvm`, over the types of a context.
use crate::clause::Clause;
use crate::fixed::Bytes;
use crate::float_predicate::FloatPredicate;
use crate::freedom::Freedom;
use crate::int_predicate::IntPredicate;
use crate::linkage_kind::LinkageKind;
use crate::memory_order::MemoryOrder;
use crate::update::Update;
use crate::wrapping::Wrapping;
use irtext_base::parsable::{ParseResult, TextStream};
use irtext_base::result::Expected;
use irtext_base::text::{AttrText, Family, IrText, Worded};
use irtext_memory::OutOfMemory;
use irtext_parts::{Decimal, Digits, Hexadecimal, Symbol, Truth};
use irtext_syntax::own::Own;
use irtext_syntax::part::TryClone;
use irtext_syntax::range::Ranged;
use irtext_syntax::ready::{Angle, Comma, Square};
use irtext_syntax::sequence::{Then, Within};
use irtext_syntax::table::{Table, after_word, table_parse, word_alone, write_row, write_word};
use irtext_syntax::{Characters, ListOf, Name, Number, match_text};
use std::alloc::AllocError;
use std::hash::Hash;

/// What comes after `llvm.block`: `<@S, I>`.
pub type BlockRefText = Within<Angle, Then<Symbol, Comma, Name>>;

/// What comes after `llvm.ints`: `[N, ..]`.
pub type IntegersText = ListOf<Square, Digits>;

/// What comes after `llvm.floats`: `[N.N, ..]`.
pub type FloatsText = ListOf<Square, Decimal>;

/// What comes after `llvm.symbols`: `[@S, ..]`.
pub type SymbolsText = ListOf<Square, Symbol>;

/// What comes after `llvm.at`: `[N, ..]`.
pub type IndicesText = ListOf<Square, Number<u32>>;

/// What comes after `llvm.mask`: `[N, ..]`.
pub type MaskText = ListOf<Square, Number<i32>>;

/// What comes after `llvm.cases`: `[N, ..]`.
pub type CasesText = ListOf<Square, Digits>;

/// What comes after `llvm.clauses`: `[cleanup|catch|filter, ..]`.
pub type ClausesText = ListOf<Square, Clause>;

/// What comes after `llvm.asm`: `<"S", "S">`.
pub type AssemblyText = Within<Angle, Then<Characters, Comma, Characters>>;

/// What comes after `llvm.fast`: `<nnan|ninf|nsz|arcp|contract|afn|reassoc, ..>`.
pub type FastText = ListOf<Angle, Freedom>;

/// An attribute of the dialect `llvm`, over the types `T` of the context.
#[derive(Drop)]
#[derive_where(PartialEq, Eq, Hash, Debug; T)]
pub enum LlvmAttr<T> {
    /// Printed as `llvm.int N`.
    Integer(Digits),
    /// Printed as `llvm.bool true|false`.
    Bool(Truth),
    /// Printed as `llvm.float N.N`.
    Floating(Decimal),
    /// Printed as `llvm.bits 0xB`.
    FloatBits(Hexadecimal),
    /// Printed as `llvm.string "S"`.
    Text(Characters),
    /// Printed as `llvm.bytes 0xB`.
    Bytes(Hexadecimal),
    /// Printed as `llvm.symbol @S`.
    SymbolRef(Symbol),
    /// Printed as `llvm.block <@S, I>`.
    BlockRef(BlockRefText),
    /// Printed as `llvm.zero`.
    Zero,
    /// Printed as `llvm.undef`.
    Undef,
    /// Printed as `llvm.ints [N, ..]`.
    Integers(IntegersText),
    /// Printed as `llvm.floats [N.N, ..]`.
    Floats(FloatsText),
    /// Printed as `llvm.symbols [@S, ..]`.
    Symbols(SymbolsText),
    /// Printed as `llvm.type T`.
    TypeOf(Own<T>),
    /// Printed as `llvm.inbounds T`.
    InBounds(Own<T>),
    /// Printed as `llvm.cond eq|ne|ugt|uge|ult|ule|sgt|sge|slt|sle`.
    IntCondition(IntPredicate),
    /// Printed as `llvm.fcond false|oeq|ogt|oge|olt|ole|one|ord|ueq|ugt|uge|ult|ule|une|uno|true`.
    FloatCondition(FloatPredicate),
    /// Printed as `llvm.overflow wraps|nsw|nuw|nuw_nsw`.
    Overflow(Wrapping),
    /// Printed as `llvm.at [N, ..]`.
    Indices(IndicesText),
    /// Printed as `llvm.mask [N, ..]`.
    Mask(MaskText),
    /// Printed as `llvm.cases [N, ..]`.
    Cases(CasesText),
    /// Printed as `llvm.ordering unordered|monotonic|acquire|release|acq_rel|seq_cst`.
    Ordering(MemoryOrder),
    /// Printed as `llvm.rmw xchg|add|sub|and|nand|or|xor|max|min|umax|umin|fadd|fsub|fmax|fmin`.
    ReadModifyWrite(Update),
    /// Printed as `llvm.clauses [cleanup|catch|filter, ..]`.
    Clauses(ClausesText),
    /// Printed as `llvm.pointer`.
    CalledPointer,
    /// Printed as `llvm.asm <"S", "S">`.
    Assembly(AssemblyText),
    /// Printed as `llvm.linkage external|private|internal|available_externally|linkonce|linkonce_odr|weak|weak_odr|common|appending|extern_weak`.
    Linkage(LinkageKind),
    /// Printed as `llvm.align N`, in the section after the root.
    Align(Ranged<Bytes>),
    /// Printed as `llvm.flag`, in the section after the root.
    Set,
    /// Printed as `llvm.word I`, in the section after the root.
    Word(Name),
    /// Printed as `llvm.text "S"`, in the section after the root.
    Other(Characters),
    /// Printed as `llvm.signature T`, in the section after the root.
    Signature(Own<T>),
    /// Printed as `llvm.fast <nnan|ninf|nsz|arcp|contract|afn|reassoc, ..>`, in the section after the root.
    Fast(FastText),
}

/// The words that attributes of the dialect begin with.
#[derive(Clone, Copy)]
pub enum AttrWord {
    /// `llvm.int`.
    Integer,
    /// `llvm.bool`.
    Bool,
    /// `llvm.float`.
    Floating,
    /// `llvm.bits`.
    FloatBits,
    /// `llvm.string`.
    Text,
    /// `llvm.bytes`.
    Bytes,
    /// `llvm.symbol`.
    SymbolRef,
    /// `llvm.block`.
    BlockRef,
    /// `llvm.zero`.
    Zero,
    /// `llvm.undef`.
    Undef,
    /// `llvm.ints`.
    Integers,
    /// `llvm.floats`.
    Floats,
    /// `llvm.symbols`.
    Symbols,
    /// `llvm.type`.
    TypeOf,
    /// `llvm.inbounds`.
    InBounds,
    /// `llvm.cond`.
    IntCondition,
    /// `llvm.fcond`.
    FloatCondition,
    /// `llvm.overflow`.
    Overflow,
    /// `llvm.at`.
    Indices,
    /// `llvm.mask`.
    Mask,
    /// `llvm.cases`.
    Cases,
    /// `llvm.ordering`.
    Ordering,
    /// `llvm.rmw`.
    ReadModifyWrite,
    /// `llvm.clauses`.
    Clauses,
    /// `llvm.pointer`.
    CalledPointer,
    /// `llvm.asm`.
    Assembly,
    /// `llvm.linkage`.
    Linkage,
    /// `llvm.align`.
    Align,
    /// `llvm.flag`.
    Set,
    /// `llvm.word`.
    Word,
    /// `llvm.text`.
    Other,
    /// `llvm.signature`.
    Signature,
    /// `llvm.fast`.
    Fast,
}

impl AttrWord {
    ghost use Rattle.std.specs.Prelude.{◌≡◌};
    ghost use Rattle.irtext_llvm.specs.Attributes.{attr_word, attr_word_1, attr_word_2, attr_word_3, attr_word_4};

    /// The word that a text is, if it is one.
    fn of_text(text: &str) -> Option<AttrWord>
        ensures { result ≡ attr_word text.now }
    {
        if let Some(word) = AttrWord::of_text_1(text) {
            return Some(word);
        }
        if let Some(word) = AttrWord::of_text_2(text) {
            return Some(word);
        }
        if let Some(word) = AttrWord::of_text_3(text) {
            return Some(word);
        }
        AttrWord::of_text_4(text)
    }

    /// The word that a text is, if it is one from `llvm.int` to `llvm.block`.
    fn of_text_1(text: &str) -> Option<AttrWord>
        ensures { result ≡ attr_word_1 text.now }
    {
        match_text!(text; "llvm.int" => AttrWord::Integer, "llvm.bool" => AttrWord::Bool,
            "llvm.float" => AttrWord::Floating, "llvm.bits" => AttrWord::FloatBits,
            "llvm.string" => AttrWord::Text, "llvm.bytes" => AttrWord::Bytes,
            "llvm.symbol" => AttrWord::SymbolRef, "llvm.block" => AttrWord::BlockRef)
    }

    /// The word that a text is, if it is one from `llvm.zero` to `llvm.cond`.
    fn of_text_2(text: &str) -> Option<AttrWord>
        ensures { result ≡ attr_word_2 text.now }
    {
        match_text!(text; "llvm.zero" => AttrWord::Zero, "llvm.undef" => AttrWord::Undef,
            "llvm.ints" => AttrWord::Integers, "llvm.floats" => AttrWord::Floats,
            "llvm.symbols" => AttrWord::Symbols, "llvm.type" => AttrWord::TypeOf,
            "llvm.inbounds" => AttrWord::InBounds, "llvm.cond" => AttrWord::IntCondition)
    }

    /// The word that a text is, if it is one from `llvm.fcond` to `llvm.clauses`.
    fn of_text_3(text: &str) -> Option<AttrWord>
        ensures { result ≡ attr_word_3 text.now }
    {
        match_text!(text; "llvm.fcond" => AttrWord::FloatCondition,
            "llvm.overflow" => AttrWord::Overflow, "llvm.at" => AttrWord::Indices,
            "llvm.mask" => AttrWord::Mask, "llvm.cases" => AttrWord::Cases,
            "llvm.ordering" => AttrWord::Ordering, "llvm.rmw" => AttrWord::ReadModifyWrite,
            "llvm.clauses" => AttrWord::Clauses)
    }

    /// The word that a text is, if it is one from `llvm.pointer` to `llvm.fast`.
    fn of_text_4(text: &str) -> Option<AttrWord>
        ensures { result ≡ attr_word_4 text.now }
    {
        match_text!(text; "llvm.pointer" => AttrWord::CalledPointer,
            "llvm.asm" => AttrWord::Assembly, "llvm.linkage" => AttrWord::Linkage,
            "llvm.align" => AttrWord::Align, "llvm.flag" => AttrWord::Set,
            "llvm.word" => AttrWord::Word, "llvm.text" => AttrWord::Other,
            "llvm.signature" => AttrWord::Signature, "llvm.fast" => AttrWord::Fast)
    }
}

impl<B: Drop, T: IrText<B>> Table<LlvmAttr<T>, B> for AttrWord {
    ghost use Rattle.irtext_llvm.specs.Attributes.{attr_word, attr_after};

    ghost word = { attr_word };

    ghost following = { attr_after T.reading T.written T.eq };

    fn of(text: &str) -> Option<AttrWord> {
        AttrWord::of_text(text)
    }

    fn parse(self, stream: &mut TextStream) -> ParseResult<LlvmAttr<T>, B> {
        match self {
            AttrWord::Integer => Ok(LlvmAttr::Integer(after_word(stream)?)),
            AttrWord::Bool => Ok(LlvmAttr::Bool(after_word(stream)?)),
            AttrWord::Floating => Ok(LlvmAttr::Floating(after_word(stream)?)),
            AttrWord::FloatBits => Ok(LlvmAttr::FloatBits(after_word(stream)?)),
            AttrWord::Text => Ok(LlvmAttr::Text(after_word(stream)?)),
            AttrWord::Bytes => Ok(LlvmAttr::Bytes(after_word(stream)?)),
            AttrWord::SymbolRef => Ok(LlvmAttr::SymbolRef(after_word(stream)?)),
            AttrWord::BlockRef => Ok(LlvmAttr::BlockRef(after_word(stream)?)),
            AttrWord::Zero => word_alone(stream, LlvmAttr::Zero),
            AttrWord::Undef => word_alone(stream, LlvmAttr::Undef),
            AttrWord::Integers => Ok(LlvmAttr::Integers(after_word(stream)?)),
            AttrWord::Floats => Ok(LlvmAttr::Floats(after_word(stream)?)),
            AttrWord::Symbols => Ok(LlvmAttr::Symbols(after_word(stream)?)),
            AttrWord::TypeOf => Ok(LlvmAttr::TypeOf(after_word(stream)?)),
            AttrWord::InBounds => Ok(LlvmAttr::InBounds(after_word(stream)?)),
            AttrWord::IntCondition => Ok(LlvmAttr::IntCondition(after_word(stream)?)),
            AttrWord::FloatCondition => Ok(LlvmAttr::FloatCondition(after_word(stream)?)),
            AttrWord::Overflow => Ok(LlvmAttr::Overflow(after_word(stream)?)),
            AttrWord::Indices => Ok(LlvmAttr::Indices(after_word(stream)?)),
            AttrWord::Mask => Ok(LlvmAttr::Mask(after_word(stream)?)),
            AttrWord::Cases => Ok(LlvmAttr::Cases(after_word(stream)?)),
            AttrWord::Ordering => Ok(LlvmAttr::Ordering(after_word(stream)?)),
            AttrWord::ReadModifyWrite => Ok(LlvmAttr::ReadModifyWrite(after_word(stream)?)),
            AttrWord::Clauses => Ok(LlvmAttr::Clauses(after_word(stream)?)),
            AttrWord::CalledPointer => word_alone(stream, LlvmAttr::CalledPointer),
            AttrWord::Assembly => Ok(LlvmAttr::Assembly(after_word(stream)?)),
            AttrWord::Linkage => Ok(LlvmAttr::Linkage(after_word(stream)?)),
            AttrWord::Align => Ok(LlvmAttr::Align(after_word(stream)?)),
            AttrWord::Set => word_alone(stream, LlvmAttr::Set),
            AttrWord::Word => Ok(LlvmAttr::Word(after_word(stream)?)),
            AttrWord::Other => Ok(LlvmAttr::Other(after_word(stream)?)),
            AttrWord::Signature => Ok(LlvmAttr::Signature(after_word(stream)?)),
            AttrWord::Fast => Ok(LlvmAttr::Fast(after_word(stream)?)),
        }
    }
}

impl<B: Drop, T: IrText<B>> IrText<B> for LlvmAttr<T> {
    ghost use Rattle.std.specs.Prelude.{refl};
    ghost use Rattle.irtext_llvm.specs.declared.attributes.LlvmAttr.TheVariants.{Integer, Bool, Floating, FloatBits, Text, Bytes, SymbolRef, BlockRef, Zero, Undef, Integers, Floats, Symbols, TypeOf, InBounds, IntCondition, FloatCondition, Overflow, Indices, Mask, Cases, Ordering, ReadModifyWrite, Clauses, CalledPointer, Assembly, Linkage, Align, Set, Word, Other, Signature, Fast};
    ghost use Rattle.irtext_llvm.specs.Attributes.{attr_at, attr_text};
    ghost use Rattle.irtext_llvm.specs.AttributeLaws.{attr_lawful, attr_sincere, attr_decides};

    ghost reading = { attr_at T.reading T.written T.eq };

    ghost written = { attr_text T.reading T.written T.eq };

    ghost lawful = { attr_lawful T.lawful T.sincere T.decides };

    ghost sincere = { attr_sincere T.lawful T.sincere T.decides };

    ghost decides = { attr_decides T.lawful T.sincere T.decides ⟦<LlvmAttr<T> as PartialEq>⟧.eq (elim [ Integer x ↦ elim [ Integer y ↦ refl | Bool y ↦ refl | Floating y ↦ refl | FloatBits y ↦ refl | Text y ↦ refl | Bytes y ↦ refl | SymbolRef y ↦ refl | BlockRef y ↦ refl | Zero ↦ refl | Undef ↦ refl | Integers y ↦ refl | Floats y ↦ refl | Symbols y ↦ refl | TypeOf y ↦ refl | InBounds y ↦ refl | IntCondition y ↦ refl | FloatCondition y ↦ refl | Overflow y ↦ refl | Indices y ↦ refl | Mask y ↦ refl | Cases y ↦ refl | Ordering y ↦ refl | ReadModifyWrite y ↦ refl | Clauses y ↦ refl | CalledPointer ↦ refl | Assembly y ↦ refl | Linkage y ↦ refl | Align y ↦ refl | Set ↦ refl | Word y ↦ refl | Other y ↦ refl | Signature y ↦ refl | Fast y ↦ refl ] | Bool x ↦ elim [ Integer y ↦ refl | Bool y ↦ refl | Floating y ↦ refl | FloatBits y ↦ refl | Text y ↦ refl | Bytes y ↦ refl | SymbolRef y ↦ refl | BlockRef y ↦ refl | Zero ↦ refl | Undef ↦ refl | Integers y ↦ refl | Floats y ↦ refl | Symbols y ↦ refl | TypeOf y ↦ refl | InBounds y ↦ refl | IntCondition y ↦ refl | FloatCondition y ↦ refl | Overflow y ↦ refl | Indices y ↦ refl | Mask y ↦ refl | Cases y ↦ refl | Ordering y ↦ refl | ReadModifyWrite y ↦ refl | Clauses y ↦ refl | CalledPointer ↦ refl | Assembly y ↦ refl | Linkage y ↦ refl | Align y ↦ refl | Set ↦ refl | Word y ↦ refl | Other y ↦ refl | Signature y ↦ refl | Fast y ↦ refl ] | Floating x ↦ elim [ Integer y ↦ refl | Bool y ↦ refl | Floating y ↦ refl | FloatBits y ↦ refl | Text y ↦ refl | Bytes y ↦ refl | SymbolRef y ↦ refl | BlockRef y ↦ refl | Zero ↦ refl | Undef ↦ refl | Integers y ↦ refl | Floats y ↦ refl | Symbols y ↦ refl | TypeOf y ↦ refl | InBounds y ↦ refl | IntCondition y ↦ refl | FloatCondition y ↦ refl | Overflow y ↦ refl | Indices y ↦ refl | Mask y ↦ refl | Cases y ↦ refl | Ordering y ↦ refl | ReadModifyWrite y ↦ refl | Clauses y ↦ refl | CalledPointer ↦ refl | Assembly y ↦ refl | Linkage y ↦ refl | Align y ↦ refl | Set ↦ refl | Word y ↦ refl | Other y ↦ refl | Signature y ↦ refl | Fast y ↦ refl ] | FloatBits x ↦ elim [ Integer y ↦ refl | Bool y ↦ refl | Floating y ↦ refl | FloatBits y ↦ refl | Text y ↦ refl | Bytes y ↦ refl | SymbolRef y ↦ refl | BlockRef y ↦ refl | Zero ↦ refl | Undef ↦ refl | Integers y ↦ refl | Floats y ↦ refl | Symbols y ↦ refl | TypeOf y ↦ refl | InBounds y ↦ refl | IntCondition y ↦ refl | FloatCondition y ↦ refl | Overflow y ↦ refl | Indices y ↦ refl | Mask y ↦ refl | Cases y ↦ refl | Ordering y ↦ refl | ReadModifyWrite y ↦ refl | Clauses y ↦ refl | CalledPointer ↦ refl | Assembly y ↦ refl | Linkage y ↦ refl | Align y ↦ refl | Set ↦ refl | Word y ↦ refl | Other y ↦ refl | Signature y ↦ refl | Fast y ↦ refl ] | Text x ↦ elim [ Integer y ↦ refl | Bool y ↦ refl | Floating y ↦ refl | FloatBits y ↦ refl | Text y ↦ refl | Bytes y ↦ refl | SymbolRef y ↦ refl | BlockRef y ↦ refl | Zero ↦ refl | Undef ↦ refl | Integers y ↦ refl | Floats y ↦ refl | Symbols y ↦ refl | TypeOf y ↦ refl | InBounds y ↦ refl | IntCondition y ↦ refl | FloatCondition y ↦ refl | Overflow y ↦ refl | Indices y ↦ refl | Mask y ↦ refl | Cases y ↦ refl | Ordering y ↦ refl | ReadModifyWrite y ↦ refl | Clauses y ↦ refl | CalledPointer ↦ refl | Assembly y ↦ refl | Linkage y ↦ refl | Align y ↦ refl | Set ↦ refl | Word y ↦ refl | Other y ↦ refl | Signature y ↦ refl | Fast y ↦ refl ] | Bytes x ↦ elim [ Integer y ↦ refl | Bool y ↦ refl | Floating y ↦ refl | FloatBits y ↦ refl | Text y ↦ refl | Bytes y ↦ refl | SymbolRef y ↦ refl | BlockRef y ↦ refl | Zero ↦ refl | Undef ↦ refl | Integers y ↦ refl | Floats y ↦ refl | Symbols y ↦ refl | TypeOf y ↦ refl | InBounds y ↦ refl | IntCondition y ↦ refl | FloatCondition y ↦ refl | Overflow y ↦ refl | Indices y ↦ refl | Mask y ↦ refl | Cases y ↦ refl | Ordering y ↦ refl | ReadModifyWrite y ↦ refl | Clauses y ↦ refl | CalledPointer ↦ refl | Assembly y ↦ refl | Linkage y ↦ refl | Align y ↦ refl | Set ↦ refl | Word y ↦ refl | Other y ↦ refl | Signature y ↦ refl | Fast y ↦ refl ] | SymbolRef x ↦ elim [ Integer y ↦ refl | Bool y ↦ refl | Floating y ↦ refl | FloatBits y ↦ refl | Text y ↦ refl | Bytes y ↦ refl | SymbolRef y ↦ refl | BlockRef y ↦ refl | Zero ↦ refl | Undef ↦ refl | Integers y ↦ refl | Floats y ↦ refl | Symbols y ↦ refl | TypeOf y ↦ refl | InBounds y ↦ refl | IntCondition y ↦ refl | FloatCondition y ↦ refl | Overflow y ↦ refl | Indices y ↦ refl | Mask y ↦ refl | Cases y ↦ refl | Ordering y ↦ refl | ReadModifyWrite y ↦ refl | Clauses y ↦ refl | CalledPointer ↦ refl | Assembly y ↦ refl | Linkage y ↦ refl | Align y ↦ refl | Set ↦ refl | Word y ↦ refl | Other y ↦ refl | Signature y ↦ refl | Fast y ↦ refl ] | BlockRef x ↦ elim [ Integer y ↦ refl | Bool y ↦ refl | Floating y ↦ refl | FloatBits y ↦ refl | Text y ↦ refl | Bytes y ↦ refl | SymbolRef y ↦ refl | BlockRef y ↦ refl | Zero ↦ refl | Undef ↦ refl | Integers y ↦ refl | Floats y ↦ refl | Symbols y ↦ refl | TypeOf y ↦ refl | InBounds y ↦ refl | IntCondition y ↦ refl | FloatCondition y ↦ refl | Overflow y ↦ refl | Indices y ↦ refl | Mask y ↦ refl | Cases y ↦ refl | Ordering y ↦ refl | ReadModifyWrite y ↦ refl | Clauses y ↦ refl | CalledPointer ↦ refl | Assembly y ↦ refl | Linkage y ↦ refl | Align y ↦ refl | Set ↦ refl | Word y ↦ refl | Other y ↦ refl | Signature y ↦ refl | Fast y ↦ refl ] | Zero ↦ elim [ Integer y ↦ refl | Bool y ↦ refl | Floating y ↦ refl | FloatBits y ↦ refl | Text y ↦ refl | Bytes y ↦ refl | SymbolRef y ↦ refl | BlockRef y ↦ refl | Zero ↦ refl | Undef ↦ refl | Integers y ↦ refl | Floats y ↦ refl | Symbols y ↦ refl | TypeOf y ↦ refl | InBounds y ↦ refl | IntCondition y ↦ refl | FloatCondition y ↦ refl | Overflow y ↦ refl | Indices y ↦ refl | Mask y ↦ refl | Cases y ↦ refl | Ordering y ↦ refl | ReadModifyWrite y ↦ refl | Clauses y ↦ refl | CalledPointer ↦ refl | Assembly y ↦ refl | Linkage y ↦ refl | Align y ↦ refl | Set ↦ refl | Word y ↦ refl | Other y ↦ refl | Signature y ↦ refl | Fast y ↦ refl ] | Undef ↦ elim [ Integer y ↦ refl | Bool y ↦ refl | Floating y ↦ refl | FloatBits y ↦ refl | Text y ↦ refl | Bytes y ↦ refl | SymbolRef y ↦ refl | BlockRef y ↦ refl | Zero ↦ refl | Undef ↦ refl | Integers y ↦ refl | Floats y ↦ refl | Symbols y ↦ refl | TypeOf y ↦ refl | InBounds y ↦ refl | IntCondition y ↦ refl | FloatCondition y ↦ refl | Overflow y ↦ refl | Indices y ↦ refl | Mask y ↦ refl | Cases y ↦ refl | Ordering y ↦ refl | ReadModifyWrite y ↦ refl | Clauses y ↦ refl | CalledPointer ↦ refl | Assembly y ↦ refl | Linkage y ↦ refl | Align y ↦ refl | Set ↦ refl | Word y ↦ refl | Other y ↦ refl | Signature y ↦ refl | Fast y ↦ refl ] | Integers x ↦ elim [ Integer y ↦ refl | Bool y ↦ refl | Floating y ↦ refl | FloatBits y ↦ refl | Text y ↦ refl | Bytes y ↦ refl | SymbolRef y ↦ refl | BlockRef y ↦ refl | Zero ↦ refl | Undef ↦ refl | Integers y ↦ refl | Floats y ↦ refl | Symbols y ↦ refl | TypeOf y ↦ refl | InBounds y ↦ refl | IntCondition y ↦ refl | FloatCondition y ↦ refl | Overflow y ↦ refl | Indices y ↦ refl | Mask y ↦ refl | Cases y ↦ refl | Ordering y ↦ refl | ReadModifyWrite y ↦ refl | Clauses y ↦ refl | CalledPointer ↦ refl | Assembly y ↦ refl | Linkage y ↦ refl | Align y ↦ refl | Set ↦ refl | Word y ↦ refl | Other y ↦ refl | Signature y ↦ refl | Fast y ↦ refl ] | Floats x ↦ elim [ Integer y ↦ refl | Bool y ↦ refl | Floating y ↦ refl | FloatBits y ↦ refl | Text y ↦ refl | Bytes y ↦ refl | SymbolRef y ↦ refl | BlockRef y ↦ refl | Zero ↦ refl | Undef ↦ refl | Integers y ↦ refl | Floats y ↦ refl | Symbols y ↦ refl | TypeOf y ↦ refl | InBounds y ↦ refl | IntCondition y ↦ refl | FloatCondition y ↦ refl | Overflow y ↦ refl | Indices y ↦ refl | Mask y ↦ refl | Cases y ↦ refl | Ordering y ↦ refl | ReadModifyWrite y ↦ refl | Clauses y ↦ refl | CalledPointer ↦ refl | Assembly y ↦ refl | Linkage y ↦ refl | Align y ↦ refl | Set ↦ refl | Word y ↦ refl | Other y ↦ refl | Signature y ↦ refl | Fast y ↦ refl ] | Symbols x ↦ elim [ Integer y ↦ refl | Bool y ↦ refl | Floating y ↦ refl | FloatBits y ↦ refl | Text y ↦ refl | Bytes y ↦ refl | SymbolRef y ↦ refl | BlockRef y ↦ refl | Zero ↦ refl | Undef ↦ refl | Integers y ↦ refl | Floats y ↦ refl | Symbols y ↦ refl | TypeOf y ↦ refl | InBounds y ↦ refl | IntCondition y ↦ refl | FloatCondition y ↦ refl | Overflow y ↦ refl | Indices y ↦ refl | Mask y ↦ refl | Cases y ↦ refl | Ordering y ↦ refl | ReadModifyWrite y ↦ refl | Clauses y ↦ refl | CalledPointer ↦ refl | Assembly y ↦ refl | Linkage y ↦ refl | Align y ↦ refl | Set ↦ refl | Word y ↦ refl | Other y ↦ refl | Signature y ↦ refl | Fast y ↦ refl ] | TypeOf x ↦ elim [ Integer y ↦ refl | Bool y ↦ refl | Floating y ↦ refl | FloatBits y ↦ refl | Text y ↦ refl | Bytes y ↦ refl | SymbolRef y ↦ refl | BlockRef y ↦ refl | Zero ↦ refl | Undef ↦ refl | Integers y ↦ refl | Floats y ↦ refl | Symbols y ↦ refl | TypeOf y ↦ refl | InBounds y ↦ refl | IntCondition y ↦ refl | FloatCondition y ↦ refl | Overflow y ↦ refl | Indices y ↦ refl | Mask y ↦ refl | Cases y ↦ refl | Ordering y ↦ refl | ReadModifyWrite y ↦ refl | Clauses y ↦ refl | CalledPointer ↦ refl | Assembly y ↦ refl | Linkage y ↦ refl | Align y ↦ refl | Set ↦ refl | Word y ↦ refl | Other y ↦ refl | Signature y ↦ refl | Fast y ↦ refl ] | InBounds x ↦ elim [ Integer y ↦ refl | Bool y ↦ refl | Floating y ↦ refl | FloatBits y ↦ refl | Text y ↦ refl | Bytes y ↦ refl | SymbolRef y ↦ refl | BlockRef y ↦ refl | Zero ↦ refl | Undef ↦ refl | Integers y ↦ refl | Floats y ↦ refl | Symbols y ↦ refl | TypeOf y ↦ refl | InBounds y ↦ refl | IntCondition y ↦ refl | FloatCondition y ↦ refl | Overflow y ↦ refl | Indices y ↦ refl | Mask y ↦ refl | Cases y ↦ refl | Ordering y ↦ refl | ReadModifyWrite y ↦ refl | Clauses y ↦ refl | CalledPointer ↦ refl | Assembly y ↦ refl | Linkage y ↦ refl | Align y ↦ refl | Set ↦ refl | Word y ↦ refl | Other y ↦ refl | Signature y ↦ refl | Fast y ↦ refl ] | IntCondition x ↦ elim [ Integer y ↦ refl | Bool y ↦ refl | Floating y ↦ refl | FloatBits y ↦ refl | Text y ↦ refl | Bytes y ↦ refl | SymbolRef y ↦ refl | BlockRef y ↦ refl | Zero ↦ refl | Undef ↦ refl | Integers y ↦ refl | Floats y ↦ refl | Symbols y ↦ refl | TypeOf y ↦ refl | InBounds y ↦ refl | IntCondition y ↦ refl | FloatCondition y ↦ refl | Overflow y ↦ refl | Indices y ↦ refl | Mask y ↦ refl | Cases y ↦ refl | Ordering y ↦ refl | ReadModifyWrite y ↦ refl | Clauses y ↦ refl | CalledPointer ↦ refl | Assembly y ↦ refl | Linkage y ↦ refl | Align y ↦ refl | Set ↦ refl | Word y ↦ refl | Other y ↦ refl | Signature y ↦ refl | Fast y ↦ refl ] | FloatCondition x ↦ elim [ Integer y ↦ refl | Bool y ↦ refl | Floating y ↦ refl | FloatBits y ↦ refl | Text y ↦ refl | Bytes y ↦ refl | SymbolRef y ↦ refl | BlockRef y ↦ refl | Zero ↦ refl | Undef ↦ refl | Integers y ↦ refl | Floats y ↦ refl | Symbols y ↦ refl | TypeOf y ↦ refl | InBounds y ↦ refl | IntCondition y ↦ refl | FloatCondition y ↦ refl | Overflow y ↦ refl | Indices y ↦ refl | Mask y ↦ refl | Cases y ↦ refl | Ordering y ↦ refl | ReadModifyWrite y ↦ refl | Clauses y ↦ refl | CalledPointer ↦ refl | Assembly y ↦ refl | Linkage y ↦ refl | Align y ↦ refl | Set ↦ refl | Word y ↦ refl | Other y ↦ refl | Signature y ↦ refl | Fast y ↦ refl ] | Overflow x ↦ elim [ Integer y ↦ refl | Bool y ↦ refl | Floating y ↦ refl | FloatBits y ↦ refl | Text y ↦ refl | Bytes y ↦ refl | SymbolRef y ↦ refl | BlockRef y ↦ refl | Zero ↦ refl | Undef ↦ refl | Integers y ↦ refl | Floats y ↦ refl | Symbols y ↦ refl | TypeOf y ↦ refl | InBounds y ↦ refl | IntCondition y ↦ refl | FloatCondition y ↦ refl | Overflow y ↦ refl | Indices y ↦ refl | Mask y ↦ refl | Cases y ↦ refl | Ordering y ↦ refl | ReadModifyWrite y ↦ refl | Clauses y ↦ refl | CalledPointer ↦ refl | Assembly y ↦ refl | Linkage y ↦ refl | Align y ↦ refl | Set ↦ refl | Word y ↦ refl | Other y ↦ refl | Signature y ↦ refl | Fast y ↦ refl ] | Indices x ↦ elim [ Integer y ↦ refl | Bool y ↦ refl | Floating y ↦ refl | FloatBits y ↦ refl | Text y ↦ refl | Bytes y ↦ refl | SymbolRef y ↦ refl | BlockRef y ↦ refl | Zero ↦ refl | Undef ↦ refl | Integers y ↦ refl | Floats y ↦ refl | Symbols y ↦ refl | TypeOf y ↦ refl | InBounds y ↦ refl | IntCondition y ↦ refl | FloatCondition y ↦ refl | Overflow y ↦ refl | Indices y ↦ refl | Mask y ↦ refl | Cases y ↦ refl | Ordering y ↦ refl | ReadModifyWrite y ↦ refl | Clauses y ↦ refl | CalledPointer ↦ refl | Assembly y ↦ refl | Linkage y ↦ refl | Align y ↦ refl | Set ↦ refl | Word y ↦ refl | Other y ↦ refl | Signature y ↦ refl | Fast y ↦ refl ] | Mask x ↦ elim [ Integer y ↦ refl | Bool y ↦ refl | Floating y ↦ refl | FloatBits y ↦ refl | Text y ↦ refl | Bytes y ↦ refl | SymbolRef y ↦ refl | BlockRef y ↦ refl | Zero ↦ refl | Undef ↦ refl | Integers y ↦ refl | Floats y ↦ refl | Symbols y ↦ refl | TypeOf y ↦ refl | InBounds y ↦ refl | IntCondition y ↦ refl | FloatCondition y ↦ refl | Overflow y ↦ refl | Indices y ↦ refl | Mask y ↦ refl | Cases y ↦ refl | Ordering y ↦ refl | ReadModifyWrite y ↦ refl | Clauses y ↦ refl | CalledPointer ↦ refl | Assembly y ↦ refl | Linkage y ↦ refl | Align y ↦ refl | Set ↦ refl | Word y ↦ refl | Other y ↦ refl | Signature y ↦ refl | Fast y ↦ refl ] | Cases x ↦ elim [ Integer y ↦ refl | Bool y ↦ refl | Floating y ↦ refl | FloatBits y ↦ refl | Text y ↦ refl | Bytes y ↦ refl | SymbolRef y ↦ refl | BlockRef y ↦ refl | Zero ↦ refl | Undef ↦ refl | Integers y ↦ refl | Floats y ↦ refl | Symbols y ↦ refl | TypeOf y ↦ refl | InBounds y ↦ refl | IntCondition y ↦ refl | FloatCondition y ↦ refl | Overflow y ↦ refl | Indices y ↦ refl | Mask y ↦ refl | Cases y ↦ refl | Ordering y ↦ refl | ReadModifyWrite y ↦ refl | Clauses y ↦ refl | CalledPointer ↦ refl | Assembly y ↦ refl | Linkage y ↦ refl | Align y ↦ refl | Set ↦ refl | Word y ↦ refl | Other y ↦ refl | Signature y ↦ refl | Fast y ↦ refl ] | Ordering x ↦ elim [ Integer y ↦ refl | Bool y ↦ refl | Floating y ↦ refl | FloatBits y ↦ refl | Text y ↦ refl | Bytes y ↦ refl | SymbolRef y ↦ refl | BlockRef y ↦ refl | Zero ↦ refl | Undef ↦ refl | Integers y ↦ refl | Floats y ↦ refl | Symbols y ↦ refl | TypeOf y ↦ refl | InBounds y ↦ refl | IntCondition y ↦ refl | FloatCondition y ↦ refl | Overflow y ↦ refl | Indices y ↦ refl | Mask y ↦ refl | Cases y ↦ refl | Ordering y ↦ refl | ReadModifyWrite y ↦ refl | Clauses y ↦ refl | CalledPointer ↦ refl | Assembly y ↦ refl | Linkage y ↦ refl | Align y ↦ refl | Set ↦ refl | Word y ↦ refl | Other y ↦ refl | Signature y ↦ refl | Fast y ↦ refl ] | ReadModifyWrite x ↦ elim [ Integer y ↦ refl | Bool y ↦ refl | Floating y ↦ refl | FloatBits y ↦ refl | Text y ↦ refl | Bytes y ↦ refl | SymbolRef y ↦ refl | BlockRef y ↦ refl | Zero ↦ refl | Undef ↦ refl | Integers y ↦ refl | Floats y ↦ refl | Symbols y ↦ refl | TypeOf y ↦ refl | InBounds y ↦ refl | IntCondition y ↦ refl | FloatCondition y ↦ refl | Overflow y ↦ refl | Indices y ↦ refl | Mask y ↦ refl | Cases y ↦ refl | Ordering y ↦ refl | ReadModifyWrite y ↦ refl | Clauses y ↦ refl | CalledPointer ↦ refl | Assembly y ↦ refl | Linkage y ↦ refl | Align y ↦ refl | Set ↦ refl | Word y ↦ refl | Other y ↦ refl | Signature y ↦ refl | Fast y ↦ refl ] | Clauses x ↦ elim [ Integer y ↦ refl | Bool y ↦ refl | Floating y ↦ refl | FloatBits y ↦ refl | Text y ↦ refl | Bytes y ↦ refl | SymbolRef y ↦ refl | BlockRef y ↦ refl | Zero ↦ refl | Undef ↦ refl | Integers y ↦ refl | Floats y ↦ refl | Symbols y ↦ refl | TypeOf y ↦ refl | InBounds y ↦ refl | IntCondition y ↦ refl | FloatCondition y ↦ refl | Overflow y ↦ refl | Indices y ↦ refl | Mask y ↦ refl | Cases y ↦ refl | Ordering y ↦ refl | ReadModifyWrite y ↦ refl | Clauses y ↦ refl | CalledPointer ↦ refl | Assembly y ↦ refl | Linkage y ↦ refl | Align y ↦ refl | Set ↦ refl | Word y ↦ refl | Other y ↦ refl | Signature y ↦ refl | Fast y ↦ refl ] | CalledPointer ↦ elim [ Integer y ↦ refl | Bool y ↦ refl | Floating y ↦ refl | FloatBits y ↦ refl | Text y ↦ refl | Bytes y ↦ refl | SymbolRef y ↦ refl | BlockRef y ↦ refl | Zero ↦ refl | Undef ↦ refl | Integers y ↦ refl | Floats y ↦ refl | Symbols y ↦ refl | TypeOf y ↦ refl | InBounds y ↦ refl | IntCondition y ↦ refl | FloatCondition y ↦ refl | Overflow y ↦ refl | Indices y ↦ refl | Mask y ↦ refl | Cases y ↦ refl | Ordering y ↦ refl | ReadModifyWrite y ↦ refl | Clauses y ↦ refl | CalledPointer ↦ refl | Assembly y ↦ refl | Linkage y ↦ refl | Align y ↦ refl | Set ↦ refl | Word y ↦ refl | Other y ↦ refl | Signature y ↦ refl | Fast y ↦ refl ] | Assembly x ↦ elim [ Integer y ↦ refl | Bool y ↦ refl | Floating y ↦ refl | FloatBits y ↦ refl | Text y ↦ refl | Bytes y ↦ refl | SymbolRef y ↦ refl | BlockRef y ↦ refl | Zero ↦ refl | Undef ↦ refl | Integers y ↦ refl | Floats y ↦ refl | Symbols y ↦ refl | TypeOf y ↦ refl | InBounds y ↦ refl | IntCondition y ↦ refl | FloatCondition y ↦ refl | Overflow y ↦ refl | Indices y ↦ refl | Mask y ↦ refl | Cases y ↦ refl | Ordering y ↦ refl | ReadModifyWrite y ↦ refl | Clauses y ↦ refl | CalledPointer ↦ refl | Assembly y ↦ refl | Linkage y ↦ refl | Align y ↦ refl | Set ↦ refl | Word y ↦ refl | Other y ↦ refl | Signature y ↦ refl | Fast y ↦ refl ] | Linkage x ↦ elim [ Integer y ↦ refl | Bool y ↦ refl | Floating y ↦ refl | FloatBits y ↦ refl | Text y ↦ refl | Bytes y ↦ refl | SymbolRef y ↦ refl | BlockRef y ↦ refl | Zero ↦ refl | Undef ↦ refl | Integers y ↦ refl | Floats y ↦ refl | Symbols y ↦ refl | TypeOf y ↦ refl | InBounds y ↦ refl | IntCondition y ↦ refl | FloatCondition y ↦ refl | Overflow y ↦ refl | Indices y ↦ refl | Mask y ↦ refl | Cases y ↦ refl | Ordering y ↦ refl | ReadModifyWrite y ↦ refl | Clauses y ↦ refl | CalledPointer ↦ refl | Assembly y ↦ refl | Linkage y ↦ refl | Align y ↦ refl | Set ↦ refl | Word y ↦ refl | Other y ↦ refl | Signature y ↦ refl | Fast y ↦ refl ] | Align x ↦ elim [ Integer y ↦ refl | Bool y ↦ refl | Floating y ↦ refl | FloatBits y ↦ refl | Text y ↦ refl | Bytes y ↦ refl | SymbolRef y ↦ refl | BlockRef y ↦ refl | Zero ↦ refl | Undef ↦ refl | Integers y ↦ refl | Floats y ↦ refl | Symbols y ↦ refl | TypeOf y ↦ refl | InBounds y ↦ refl | IntCondition y ↦ refl | FloatCondition y ↦ refl | Overflow y ↦ refl | Indices y ↦ refl | Mask y ↦ refl | Cases y ↦ refl | Ordering y ↦ refl | ReadModifyWrite y ↦ refl | Clauses y ↦ refl | CalledPointer ↦ refl | Assembly y ↦ refl | Linkage y ↦ refl | Align y ↦ refl | Set ↦ refl | Word y ↦ refl | Other y ↦ refl | Signature y ↦ refl | Fast y ↦ refl ] | Set ↦ elim [ Integer y ↦ refl | Bool y ↦ refl | Floating y ↦ refl | FloatBits y ↦ refl | Text y ↦ refl | Bytes y ↦ refl | SymbolRef y ↦ refl | BlockRef y ↦ refl | Zero ↦ refl | Undef ↦ refl | Integers y ↦ refl | Floats y ↦ refl | Symbols y ↦ refl | TypeOf y ↦ refl | InBounds y ↦ refl | IntCondition y ↦ refl | FloatCondition y ↦ refl | Overflow y ↦ refl | Indices y ↦ refl | Mask y ↦ refl | Cases y ↦ refl | Ordering y ↦ refl | ReadModifyWrite y ↦ refl | Clauses y ↦ refl | CalledPointer ↦ refl | Assembly y ↦ refl | Linkage y ↦ refl | Align y ↦ refl | Set ↦ refl | Word y ↦ refl | Other y ↦ refl | Signature y ↦ refl | Fast y ↦ refl ] | Word x ↦ elim [ Integer y ↦ refl | Bool y ↦ refl | Floating y ↦ refl | FloatBits y ↦ refl | Text y ↦ refl | Bytes y ↦ refl | SymbolRef y ↦ refl | BlockRef y ↦ refl | Zero ↦ refl | Undef ↦ refl | Integers y ↦ refl | Floats y ↦ refl | Symbols y ↦ refl | TypeOf y ↦ refl | InBounds y ↦ refl | IntCondition y ↦ refl | FloatCondition y ↦ refl | Overflow y ↦ refl | Indices y ↦ refl | Mask y ↦ refl | Cases y ↦ refl | Ordering y ↦ refl | ReadModifyWrite y ↦ refl | Clauses y ↦ refl | CalledPointer ↦ refl | Assembly y ↦ refl | Linkage y ↦ refl | Align y ↦ refl | Set ↦ refl | Word y ↦ refl | Other y ↦ refl | Signature y ↦ refl | Fast y ↦ refl ] | Other x ↦ elim [ Integer y ↦ refl | Bool y ↦ refl | Floating y ↦ refl | FloatBits y ↦ refl | Text y ↦ refl | Bytes y ↦ refl | SymbolRef y ↦ refl | BlockRef y ↦ refl | Zero ↦ refl | Undef ↦ refl | Integers y ↦ refl | Floats y ↦ refl | Symbols y ↦ refl | TypeOf y ↦ refl | InBounds y ↦ refl | IntCondition y ↦ refl | FloatCondition y ↦ refl | Overflow y ↦ refl | Indices y ↦ refl | Mask y ↦ refl | Cases y ↦ refl | Ordering y ↦ refl | ReadModifyWrite y ↦ refl | Clauses y ↦ refl | CalledPointer ↦ refl | Assembly y ↦ refl | Linkage y ↦ refl | Align y ↦ refl | Set ↦ refl | Word y ↦ refl | Other y ↦ refl | Signature y ↦ refl | Fast y ↦ refl ] | Signature x ↦ elim [ Integer y ↦ refl | Bool y ↦ refl | Floating y ↦ refl | FloatBits y ↦ refl | Text y ↦ refl | Bytes y ↦ refl | SymbolRef y ↦ refl | BlockRef y ↦ refl | Zero ↦ refl | Undef ↦ refl | Integers y ↦ refl | Floats y ↦ refl | Symbols y ↦ refl | TypeOf y ↦ refl | InBounds y ↦ refl | IntCondition y ↦ refl | FloatCondition y ↦ refl | Overflow y ↦ refl | Indices y ↦ refl | Mask y ↦ refl | Cases y ↦ refl | Ordering y ↦ refl | ReadModifyWrite y ↦ refl | Clauses y ↦ refl | CalledPointer ↦ refl | Assembly y ↦ refl | Linkage y ↦ refl | Align y ↦ refl | Set ↦ refl | Word y ↦ refl | Other y ↦ refl | Signature y ↦ refl | Fast y ↦ refl ] | Fast x ↦ elim [ Integer y ↦ refl | Bool y ↦ refl | Floating y ↦ refl | FloatBits y ↦ refl | Text y ↦ refl | Bytes y ↦ refl | SymbolRef y ↦ refl | BlockRef y ↦ refl | Zero ↦ refl | Undef ↦ refl | Integers y ↦ refl | Floats y ↦ refl | Symbols y ↦ refl | TypeOf y ↦ refl | InBounds y ↦ refl | IntCondition y ↦ refl | FloatCondition y ↦ refl | Overflow y ↦ refl | Indices y ↦ refl | Mask y ↦ refl | Cases y ↦ refl | Ordering y ↦ refl | ReadModifyWrite y ↦ refl | Clauses y ↦ refl | CalledPointer ↦ refl | Assembly y ↦ refl | Linkage y ↦ refl | Align y ↦ refl | Set ↦ refl | Word y ↦ refl | Other y ↦ refl | Signature y ↦ refl | Fast y ↦ refl ] ]) };

    fn read(stream: &mut TextStream) -> ParseResult<LlvmAttr<T>, B> {
        table_parse::<AttrWord, LlvmAttr<T>, B>(
            stream,
            "Unregistered attribute ",
            Expected::Attribute,
        )
    }

    fn write_text(&self, f: &mut String) -> Result<(), OutOfMemory> {
        match self {
            LlvmAttr::Integer(part) => write_row::<Digits, B>("llvm.int", part, f),
            LlvmAttr::Bool(part) => write_row::<Truth, B>("llvm.bool", part, f),
            LlvmAttr::Floating(part) => write_row::<Decimal, B>("llvm.float", part, f),
            LlvmAttr::FloatBits(part) => write_row::<Hexadecimal, B>("llvm.bits", part, f),
            LlvmAttr::Text(part) => write_row::<Characters, B>("llvm.string", part, f),
            LlvmAttr::Bytes(part) => write_row::<Hexadecimal, B>("llvm.bytes", part, f),
            LlvmAttr::SymbolRef(part) => write_row::<Symbol, B>("llvm.symbol", part, f),
            LlvmAttr::BlockRef(part) => write_row::<BlockRefText, B>("llvm.block", part, f),
            LlvmAttr::Zero => write_word("llvm.zero", f),
            LlvmAttr::Undef => write_word("llvm.undef", f),
            LlvmAttr::Integers(part) => write_row::<IntegersText, B>("llvm.ints", part, f),
            LlvmAttr::Floats(part) => write_row::<FloatsText, B>("llvm.floats", part, f),
            LlvmAttr::Symbols(part) => write_row::<SymbolsText, B>("llvm.symbols", part, f),
            LlvmAttr::TypeOf(part) => write_row::<Own<T>, B>("llvm.type", part, f),
            LlvmAttr::InBounds(part) => write_row::<Own<T>, B>("llvm.inbounds", part, f),
            LlvmAttr::IntCondition(part) => write_row::<IntPredicate, B>("llvm.cond", part, f),
            LlvmAttr::FloatCondition(part) => write_row::<FloatPredicate, B>("llvm.fcond", part, f),
            LlvmAttr::Overflow(part) => write_row::<Wrapping, B>("llvm.overflow", part, f),
            LlvmAttr::Indices(part) => write_row::<IndicesText, B>("llvm.at", part, f),
            LlvmAttr::Mask(part) => write_row::<MaskText, B>("llvm.mask", part, f),
            LlvmAttr::Cases(part) => write_row::<CasesText, B>("llvm.cases", part, f),
            LlvmAttr::Ordering(part) => write_row::<MemoryOrder, B>("llvm.ordering", part, f),
            LlvmAttr::ReadModifyWrite(part) => write_row::<Update, B>("llvm.rmw", part, f),
            LlvmAttr::Clauses(part) => write_row::<ClausesText, B>("llvm.clauses", part, f),
            LlvmAttr::CalledPointer => write_word("llvm.pointer", f),
            LlvmAttr::Assembly(part) => write_row::<AssemblyText, B>("llvm.asm", part, f),
            LlvmAttr::Linkage(part) => write_row::<LinkageKind, B>("llvm.linkage", part, f),
            LlvmAttr::Align(part) => write_row::<Ranged<Bytes>, B>("llvm.align", part, f),
            LlvmAttr::Set => write_word("llvm.flag", f),
            LlvmAttr::Word(part) => write_row::<Name, B>("llvm.word", part, f),
            LlvmAttr::Other(part) => write_row::<Characters, B>("llvm.text", part, f),
            LlvmAttr::Signature(part) => write_row::<Own<T>, B>("llvm.signature", part, f),
            LlvmAttr::Fast(part) => write_row::<FastText, B>("llvm.fast", part, f),
        }
    }
}

impl<B: Drop, T: IrText<B> + Hash + TryClone> AttrText<B> for LlvmAttr<T> {
    ghost use Rattle.irtext_llvm.specs.Attributes.{is_outlined, is_print_once};
    ghost use Rattle.irtext_llvm.specs.AttributeLaws.{attr_unreserved};

    ghost outlined = { is_outlined };

    ghost print_once = { is_print_once };

    ghost unreserved = { attr_unreserved T.lawful T.sincere T.decides };

    fn is_outlined(&self) -> bool {
        matches!(
            self,
            LlvmAttr::Align(_)
                | LlvmAttr::Set
                | LlvmAttr::Word(_)
                | LlvmAttr::Other(_)
                | LlvmAttr::Signature(_)
                | LlvmAttr::Fast(_)
        )
    }

    fn is_print_once(&self) -> bool {
        false
    }

    fn try_clone(&self) -> Result<LlvmAttr<T>, AllocError> {
        match self {
            LlvmAttr::Integer(part) => Ok(LlvmAttr::Integer(part.try_clone()?)),
            LlvmAttr::Bool(part) => Ok(LlvmAttr::Bool(part.try_clone()?)),
            LlvmAttr::Floating(part) => Ok(LlvmAttr::Floating(part.try_clone()?)),
            LlvmAttr::FloatBits(part) => Ok(LlvmAttr::FloatBits(part.try_clone()?)),
            LlvmAttr::Text(part) => Ok(LlvmAttr::Text(part.try_clone()?)),
            LlvmAttr::Bytes(part) => Ok(LlvmAttr::Bytes(part.try_clone()?)),
            LlvmAttr::SymbolRef(part) => Ok(LlvmAttr::SymbolRef(part.try_clone()?)),
            LlvmAttr::BlockRef(part) => Ok(LlvmAttr::BlockRef(part.try_clone()?)),
            LlvmAttr::Zero => Ok(LlvmAttr::Zero),
            LlvmAttr::Undef => Ok(LlvmAttr::Undef),
            LlvmAttr::Integers(part) => Ok(LlvmAttr::Integers(part.try_clone()?)),
            LlvmAttr::Floats(part) => Ok(LlvmAttr::Floats(part.try_clone()?)),
            LlvmAttr::Symbols(part) => Ok(LlvmAttr::Symbols(part.try_clone()?)),
            LlvmAttr::TypeOf(part) => Ok(LlvmAttr::TypeOf(part.try_clone()?)),
            LlvmAttr::InBounds(part) => Ok(LlvmAttr::InBounds(part.try_clone()?)),
            LlvmAttr::IntCondition(part) => Ok(LlvmAttr::IntCondition(part.try_clone()?)),
            LlvmAttr::FloatCondition(part) => Ok(LlvmAttr::FloatCondition(part.try_clone()?)),
            LlvmAttr::Overflow(part) => Ok(LlvmAttr::Overflow(part.try_clone()?)),
            LlvmAttr::Indices(part) => Ok(LlvmAttr::Indices(part.try_clone()?)),
            LlvmAttr::Mask(part) => Ok(LlvmAttr::Mask(part.try_clone()?)),
            LlvmAttr::Cases(part) => Ok(LlvmAttr::Cases(part.try_clone()?)),
            LlvmAttr::Ordering(part) => Ok(LlvmAttr::Ordering(part.try_clone()?)),
            LlvmAttr::ReadModifyWrite(part) => Ok(LlvmAttr::ReadModifyWrite(part.try_clone()?)),
            LlvmAttr::Clauses(part) => Ok(LlvmAttr::Clauses(part.try_clone()?)),
            LlvmAttr::CalledPointer => Ok(LlvmAttr::CalledPointer),
            LlvmAttr::Assembly(part) => Ok(LlvmAttr::Assembly(part.try_clone()?)),
            LlvmAttr::Linkage(part) => Ok(LlvmAttr::Linkage(part.try_clone()?)),
            LlvmAttr::Align(part) => Ok(LlvmAttr::Align(part.try_clone()?)),
            LlvmAttr::Set => Ok(LlvmAttr::Set),
            LlvmAttr::Word(part) => Ok(LlvmAttr::Word(part.try_clone()?)),
            LlvmAttr::Other(part) => Ok(LlvmAttr::Other(part.try_clone()?)),
            LlvmAttr::Signature(part) => Ok(LlvmAttr::Signature(part.try_clone()?)),
            LlvmAttr::Fast(part) => Ok(LlvmAttr::Fast(part.try_clone()?)),
        }
    }
}

impl<T> Worded for LlvmAttr<T> {
    ghost use Rattle.irtext_llvm.specs.Attributes.{attr_words};

    ghost words = { attr_words };

    fn has_word(word: &str) -> bool {
        AttrWord::of_text(word).is_some()
    }
}

impl<B: Drop, T: IrText<B>> Family<B> for LlvmAttr<T> {
    ghost use Rattle.irtext_llvm.specs.AttributeLaws.{attr_led};

    ghost led = { attr_led T.lawful T.sincere T.decides };
}
