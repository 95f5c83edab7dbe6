//! Constructors of the types and the attributes of the dialect `arith`, and what each holds.
ghost use Rattle.std.specs.Prelude.{◌≡◌, Some, option_map, string_bytes};
ghost use Rattle.std.specs.Str.{chars};

use crate::attributes::ArithAttr;
use crate::fixed::Bytes;
use crate::predicate::Predicate;
use crate::types::ArithType;
use irtext_syntax::keyword::Flag;
use irtext_syntax::own::Own;
use irtext_syntax::range::Ranged;
use irtext_syntax::sequence::{Then, Within};
use irtext_syntax::{Characters, Number};
use std::marker::PhantomData;

impl ArithType {
    ghost use Rattle.irtext_arith.specs.TypeValues.{as_int};

    /// Returns the type `arith.int` of `number`.
    pub fn int(number: u32) -> ArithType
        ensures { as_int result ≡ Some number }
    {
        ArithType::Int(Number::new(number))
    }

    /// Returns `number` of `arith.int`, or `None` for any other type.
    pub fn as_int(&self) -> Option<u32>
        ensures { result ≡ as_int self.now }
    {
        match self {
            ArithType::Int(part) => Some(part.get()),
            _ => None,
        }
    }
}

impl<T> ArithAttr<T> {
    ghost use Rattle.irtext_arith.specs.AttributeValues.{as_value, as_compares, as_overflow, as_align, as_doc};

    /// Returns the attribute `arith.value` of `number` and `of_type`.
    pub fn value(number: i64, of_type: T) -> ArithAttr<T>
        ensures { as_value result ≡ Some (number, of_type) }
    {
        ArithAttr::Value(Within {
            inside: Then {
                first: Number::new(number),
                second: Own { value: of_type },
                between: PhantomData,
            },
            brackets: PhantomData,
        })
    }

    /// Returns `number` and `of_type` of `arith.value`, or `None` for any other attribute.
    pub fn as_value(&self) -> Option<(i64, &T)>
        ensures { option_map (λ v. (v.0, v.1.now)) result ≡ as_value self.now }
    {
        match self {
            ArithAttr::Value(part) => Some((part.inside.first.get(), &part.inside.second.value)),
            _ => None,
        }
    }

    /// Returns the attribute `arith.predicate` of `predicate`.
    pub fn compares(predicate: Predicate) -> ArithAttr<T>
        ensures { as_compares result ≡ Some predicate }
    {
        ArithAttr::Compares(predicate)
    }

    /// Returns `predicate` of `arith.predicate`, or `None` for any other attribute.
    pub fn as_compares(&self) -> Option<Predicate>
        ensures { result ≡ as_compares self.now }
    {
        match self {
            ArithAttr::Compares(part) => Some(*part),
            _ => None,
        }
    }

    /// Returns the attribute `arith.overflow` of `is_nsw` and `is_nuw`.
    pub fn overflow(is_nsw: bool, is_nuw: bool) -> ArithAttr<T>
        ensures { as_overflow result ≡ Some (is_nsw, is_nuw) }
    {
        ArithAttr::Overflow(Within {
            inside: Then {
                first: Flag::new(is_nsw),
                second: Flag::new(is_nuw),
                between: PhantomData,
            },
            brackets: PhantomData,
        })
    }

    /// Returns `is_nsw` and `is_nuw` of `arith.overflow`, or `None` for any other attribute.
    pub fn as_overflow(&self) -> Option<(bool, bool)>
        ensures { result ≡ as_overflow self.now }
    {
        match self {
            ArithAttr::Overflow(part) => Some((
                part.inside.first.is_set(),
                part.inside.second.is_set(),
            )),
            _ => None,
        }
    }

    /// Returns the attribute `arith.align` of `bytes`.
    pub fn align(bytes: Ranged<Bytes>) -> ArithAttr<T>
        ensures { as_align result ≡ Some bytes.value }
    {
        ArithAttr::Align(bytes)
    }

    /// Returns `bytes` of `arith.align`, or `None` for any other attribute.
    pub fn as_align(&self) -> Option<u64>
        ensures { result ≡ as_align self.now }
    {
        match self {
            ArithAttr::Align(part) => Some(part.get()),
            _ => None,
        }
    }

    /// Returns the attribute `arith.doc` of `text`.
    pub fn doc(text: String) -> ArithAttr<T>
        ensures { as_doc result ≡ Some (chars (string_bytes text)) }
    {
        ArithAttr::Doc(Characters::new(text))
    }

    /// Returns `text` of `arith.doc`, or `None` for any other attribute.
    pub fn as_doc(&self) -> Option<&str>
        ensures { option_map (λ v. chars v.now) result ≡ as_doc self.now }
    {
        match self {
            ArithAttr::Doc(part) => Some(part.as_str()),
            _ => None,
        }
    }
}
