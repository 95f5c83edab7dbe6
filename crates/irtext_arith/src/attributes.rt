//! The attributes of the dialect `arith`, over the types of a context.
use crate::fixed::{Bytes, NoSignedWrap, NoUnsignedWrap};
use crate::predicate::Predicate;
use irtext_base::parsable::{ParseResult, TextStream};
use irtext_base::result::Expected;
use irtext_base::text::{AttrText, Family, IrText, Worded};
use irtext_memory::OutOfMemory;
use irtext_syntax::keyword::Flag;
use irtext_syntax::own::Own;
use irtext_syntax::part::TryClone;
use irtext_syntax::range::Ranged;
use irtext_syntax::ready::{Angle, Colon, Comma};
use irtext_syntax::sequence::{Then, Within};
use irtext_syntax::table::{Table, after_word, table_parse, write_row};
use irtext_syntax::{Characters, Number, match_text, matches_text};
use std::alloc::AllocError;
use std::hash::Hash;

/// What comes after `arith.value`: `<N: T>`.
pub type ValueText<T> = Within<Angle, Then<Number<i64>, Colon, Own<T>>>;

/// What comes after `arith.overflow`: `<nsw?, nuw?>`.
pub type OverflowText = Within<Angle, Then<Flag<NoSignedWrap>, Comma, Flag<NoUnsignedWrap>>>;

/// An attribute of the dialect `arith`, over the types `T` of the context.
#[derive(Drop)]
#[derive_where(PartialEq, Eq, Hash, Debug; T)]
pub enum ArithAttr<T> {
    /// Printed as `arith.value <N: T>`.
    Value(ValueText<T>),
    /// Printed as `arith.predicate eq|ne|lt|le`.
    Compares(Predicate),
    /// Printed as `arith.overflow <nsw?, nuw?>`.
    Overflow(OverflowText),
    /// Printed as `arith.align N`.
    Align(Ranged<Bytes>),
    /// Printed as `arith.doc "S"`, once, in the section after the root.
    Doc(Characters),
}

/// The words that attributes of the dialect begin with.
#[derive(Clone, Copy)]
pub enum AttrWord {
    /// `arith.value`.
    Value,
    /// `arith.predicate`.
    Compares,
    /// `arith.overflow`.
    Overflow,
    /// `arith.align`.
    Align,
    /// `arith.doc`.
    Doc,
}

impl<B, T: IrText<B>> Table<ArithAttr<T>, B> for AttrWord {
    ghost use Rattle.irtext_arith.specs.Attributes.{attr_word, attr_after};

    ghost word = { attr_word };

    ghost following = { attr_after T.reading T.written T.eq };

    fn of(text: &str) -> Option<AttrWord> {
        match_text!(text; "arith.value" => AttrWord::Value, "arith.predicate" => AttrWord::Compares,
            "arith.overflow" => AttrWord::Overflow, "arith.align" => AttrWord::Align,
            "arith.doc" => AttrWord::Doc)
    }

    fn parse(self, stream: &mut TextStream) -> ParseResult<ArithAttr<T>, B> {
        match self {
            AttrWord::Value => Ok(ArithAttr::Value(after_word(stream)?)),
            AttrWord::Compares => Ok(ArithAttr::Compares(after_word(stream)?)),
            AttrWord::Overflow => Ok(ArithAttr::Overflow(after_word(stream)?)),
            AttrWord::Align => Ok(ArithAttr::Align(after_word(stream)?)),
            AttrWord::Doc => Ok(ArithAttr::Doc(after_word(stream)?)),
        }
    }
}

impl<B, T: IrText<B>> IrText<B> for ArithAttr<T> {
    ghost use Rattle.std.specs.Prelude.{refl};
    ghost use Rattle.irtext_arith.specs.declared.attributes.ArithAttr.TheVariants.{Value, Compares, Overflow, Align, Doc};
    ghost use Rattle.irtext_arith.specs.Attributes.{attr_at, attr_text};
    ghost use Rattle.irtext_arith.specs.AttributeLaws.{attr_lawful, attr_sincere, attr_decides};

    ghost reading = { attr_at T.reading T.written T.eq };

    ghost written = { attr_text T.reading T.written T.eq };

    ghost lawful = { attr_lawful T.lawful T.sincere T.decides };

    ghost sincere = { attr_sincere T.lawful T.sincere T.decides };

    ghost decides = { attr_decides T.lawful T.sincere T.decides ⟦<ArithAttr<T> as PartialEq>⟧.eq (elim [ Value x ↦ elim [ Value y ↦ refl | Compares y ↦ refl | Overflow y ↦ refl | Align y ↦ refl | Doc y ↦ refl ] | Compares x ↦ elim [ Value y ↦ refl | Compares y ↦ refl | Overflow y ↦ refl | Align y ↦ refl | Doc y ↦ refl ] | Overflow x ↦ elim [ Value y ↦ refl | Compares y ↦ refl | Overflow y ↦ refl | Align y ↦ refl | Doc y ↦ refl ] | Align x ↦ elim [ Value y ↦ refl | Compares y ↦ refl | Overflow y ↦ refl | Align y ↦ refl | Doc y ↦ refl ] | Doc x ↦ elim [ Value y ↦ refl | Compares y ↦ refl | Overflow y ↦ refl | Align y ↦ refl | Doc y ↦ refl ] ]) };

    fn read(stream: &mut TextStream) -> ParseResult<ArithAttr<T>, B> {
        table_parse::<AttrWord, ArithAttr<T>, B>(
            stream,
            "Unregistered attribute ",
            Expected::Attribute,
        )
    }

    fn write_text(&self, f: &mut String) -> Result<(), OutOfMemory> {
        match self {
            ArithAttr::Value(part) => write_row::<ValueText<T>, B>("arith.value", part, f),
            ArithAttr::Compares(part) => write_row::<Predicate, B>("arith.predicate", part, f),
            ArithAttr::Overflow(part) => write_row::<OverflowText, B>("arith.overflow", part, f),
            ArithAttr::Align(part) => write_row::<Ranged<Bytes>, B>("arith.align", part, f),
            ArithAttr::Doc(part) => write_row::<Characters, B>("arith.doc", part, f),
        }
    }
}

impl<B, T: IrText<B> + Hash + TryClone> AttrText<B> for ArithAttr<T> {
    ghost use Rattle.irtext_arith.specs.Attributes.{is_outlined, is_print_once};
    ghost use Rattle.irtext_arith.specs.AttributeLaws.{attr_unreserved};

    ghost outlined = { is_outlined };

    ghost print_once = { is_print_once };

    ghost unreserved = { attr_unreserved T.lawful T.sincere T.decides };

    fn is_outlined(&self) -> bool {
        matches!(self, ArithAttr::Doc(_))
    }

    fn is_print_once(&self) -> bool {
        matches!(self, ArithAttr::Doc(_))
    }

    fn try_clone(&self) -> Result<ArithAttr<T>, AllocError> {
        match self {
            ArithAttr::Value(part) => Ok(ArithAttr::Value(part.try_clone()?)),
            ArithAttr::Compares(part) => Ok(ArithAttr::Compares(part.try_clone()?)),
            ArithAttr::Overflow(part) => Ok(ArithAttr::Overflow(part.try_clone()?)),
            ArithAttr::Align(part) => Ok(ArithAttr::Align(part.try_clone()?)),
            ArithAttr::Doc(part) => Ok(ArithAttr::Doc(part.try_clone()?)),
        }
    }
}

impl<T> Worded for ArithAttr<T> {
    ghost use Rattle.irtext_arith.specs.Attributes.{attr_words};

    ghost words = { attr_words };

    fn has_word(word: &str) -> bool {
        matches_text!(
            word,
            "arith.value" | "arith.predicate" | "arith.overflow" | "arith.align" | "arith.doc"
        )
    }
}

impl<B, T: IrText<B>> Family<B> for ArithAttr<T> {
    ghost use Rattle.irtext_arith.specs.AttributeLaws.{attr_led};

    ghost led = { attr_led T.lawful T.sincere T.decides };
}
