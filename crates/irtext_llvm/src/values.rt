//! Constructors of the attributes of the dialect `llvm`, and what each holds.
ghost use Rattle.std.specs.Prelude.{◌≡◌, Some, option_copied, option_map, string_bytes};
ghost use Rattle.std.specs.Str.{chars};

use crate::attributes::LlvmAttr;
use crate::clause::Clause;
use crate::fixed::Bytes;
use crate::float_predicate::FloatPredicate;
use crate::freedom::Freedom;
use crate::int_predicate::IntPredicate;
use crate::linkage_kind::LinkageKind;
use crate::memory_order::MemoryOrder;
use crate::update::Update;
use crate::wrapping::Wrapping;
use irtext_base::base::Identifier;
use irtext_parts::{Decimal, Digits, Hexadecimal, Symbol, Truth};
use irtext_syntax::own::Own;
use irtext_syntax::range::Ranged;
use irtext_syntax::sequence::{Then, Within};
use irtext_syntax::{Characters, ListOf, Name, Number};
use std::marker::PhantomData;

impl<T> LlvmAttr<T> {
    ghost use Rattle.irtext_llvm.specs.AttributeValues.{as_integer, as_bool, as_floating, as_float_bits, as_text, as_bytes, as_symbol_ref, as_block_ref, as_integers, as_floats, as_symbols, as_type_of, as_in_bounds, as_int_condition, as_float_condition, as_overflow, as_indices, as_mask, as_cases, as_ordering, as_read_modify_write, as_clauses, as_assembly, as_linkage, as_align, as_word, as_other, as_signature, as_fast};

    /// Returns the attribute `llvm.int` of `digits`.
    pub fn integer(digits: Digits) -> LlvmAttr<T>
        ensures { as_integer result ≡ Some digits }
    {
        LlvmAttr::Integer(digits)
    }

    /// Returns `digits` of `llvm.int`, or `None` for any other attribute.
    pub fn as_integer(&self) -> Option<&Digits>
        ensures { option_copied result ≡ as_integer self.now }
    {
        match self {
            LlvmAttr::Integer(part) => Some(part),
            _ => None,
        }
    }

    /// Returns the attribute `llvm.bool` of `is_true`.
    pub fn bool(is_true: bool) -> LlvmAttr<T>
        ensures { as_bool result ≡ Some is_true }
    {
        LlvmAttr::Bool(Truth { value: is_true })
    }

    /// Returns `is_true` of `llvm.bool`, or `None` for any other attribute.
    pub fn as_bool(&self) -> Option<bool>
        ensures { result ≡ as_bool self.now }
    {
        match self {
            LlvmAttr::Bool(part) => Some(part.value),
            _ => None,
        }
    }

    /// Returns the attribute `llvm.float` of `decimal`.
    pub fn floating(decimal: Decimal) -> LlvmAttr<T>
        ensures { as_floating result ≡ Some decimal }
    {
        LlvmAttr::Floating(decimal)
    }

    /// Returns `decimal` of `llvm.float`, or `None` for any other attribute.
    pub fn as_floating(&self) -> Option<&Decimal>
        ensures { option_copied result ≡ as_floating self.now }
    {
        match self {
            LlvmAttr::Floating(part) => Some(part),
            _ => None,
        }
    }

    /// Returns the attribute `llvm.bits` of `hexadecimal`.
    pub fn float_bits(hexadecimal: Hexadecimal) -> LlvmAttr<T>
        ensures { as_float_bits result ≡ Some hexadecimal }
    {
        LlvmAttr::FloatBits(hexadecimal)
    }

    /// Returns `hexadecimal` of `llvm.bits`, or `None` for any other attribute.
    pub fn as_float_bits(&self) -> Option<&Hexadecimal>
        ensures { option_copied result ≡ as_float_bits self.now }
    {
        match self {
            LlvmAttr::FloatBits(part) => Some(part),
            _ => None,
        }
    }

    /// Returns the attribute `llvm.string` of `text`.
    pub fn text(text: String) -> LlvmAttr<T>
        ensures { as_text result ≡ Some (chars (string_bytes text)) }
    {
        LlvmAttr::Text(Characters::new(text))
    }

    /// Returns `text` of `llvm.string`, or `None` for any other attribute.
    pub fn as_text(&self) -> Option<&str>
        ensures { option_map (λ v. chars v.now) result ≡ as_text self.now }
    {
        match self {
            LlvmAttr::Text(part) => Some(part.as_str()),
            _ => None,
        }
    }

    /// Returns the attribute `llvm.bytes` of `hexadecimal`.
    pub fn bytes(hexadecimal: Hexadecimal) -> LlvmAttr<T>
        ensures { as_bytes result ≡ Some hexadecimal }
    {
        LlvmAttr::Bytes(hexadecimal)
    }

    /// Returns `hexadecimal` of `llvm.bytes`, or `None` for any other attribute.
    pub fn as_bytes(&self) -> Option<&Hexadecimal>
        ensures { option_copied result ≡ as_bytes self.now }
    {
        match self {
            LlvmAttr::Bytes(part) => Some(part),
            _ => None,
        }
    }

    /// Returns the attribute `llvm.symbol` of `symbol`.
    pub fn symbol_ref(symbol: Symbol) -> LlvmAttr<T>
        ensures { as_symbol_ref result ≡ Some symbol }
    {
        LlvmAttr::SymbolRef(symbol)
    }

    /// Returns `symbol` of `llvm.symbol`, or `None` for any other attribute.
    pub fn as_symbol_ref(&self) -> Option<&Symbol>
        ensures { option_copied result ≡ as_symbol_ref self.now }
    {
        match self {
            LlvmAttr::SymbolRef(part) => Some(part),
            _ => None,
        }
    }

    /// Returns the attribute `llvm.block` of `symbol` and `name`.
    pub fn block_ref(symbol: Symbol, name: Identifier) -> LlvmAttr<T>
        ensures { as_block_ref result ≡ Some (symbol, name) }
    {
        LlvmAttr::BlockRef(Within {
            inside: Then {
                first: symbol,
                second: Name::new(name),
                between: PhantomData,
            },
            brackets: PhantomData,
        })
    }

    /// Returns `symbol` and `name` of `llvm.block`, or `None` for any other attribute.
    pub fn as_block_ref(&self) -> Option<(&Symbol, &Identifier)>
        ensures { option_map (λ v. (v.0.now, v.1.now)) result ≡ as_block_ref self.now }
    {
        match self {
            LlvmAttr::BlockRef(part) => Some((
                &part.inside.first,
                part.inside.second.as_identifier(),
            )),
            _ => None,
        }
    }

    /// Returns the attribute `llvm.ints` of `items`.
    pub fn integers(items: Vec<Digits>) -> LlvmAttr<T>
        ensures { as_integers result ≡ Some items.items }
    {
        LlvmAttr::Integers(ListOf::new(items))
    }

    /// Returns `items` of `llvm.ints`, or `None` for any other attribute.
    pub fn as_integers(&self) -> Option<&[Digits]>
        ensures { option_copied result ≡ as_integers self.now }
    {
        match self {
            LlvmAttr::Integers(part) => Some(part.as_slice()),
            _ => None,
        }
    }

    /// Returns the attribute `llvm.floats` of `items`.
    pub fn floats(items: Vec<Decimal>) -> LlvmAttr<T>
        ensures { as_floats result ≡ Some items.items }
    {
        LlvmAttr::Floats(ListOf::new(items))
    }

    /// Returns `items` of `llvm.floats`, or `None` for any other attribute.
    pub fn as_floats(&self) -> Option<&[Decimal]>
        ensures { option_copied result ≡ as_floats self.now }
    {
        match self {
            LlvmAttr::Floats(part) => Some(part.as_slice()),
            _ => None,
        }
    }

    /// Returns the attribute `llvm.symbols` of `items`.
    pub fn symbols(items: Vec<Symbol>) -> LlvmAttr<T>
        ensures { as_symbols result ≡ Some items.items }
    {
        LlvmAttr::Symbols(ListOf::new(items))
    }

    /// Returns `items` of `llvm.symbols`, or `None` for any other attribute.
    pub fn as_symbols(&self) -> Option<&[Symbol]>
        ensures { option_copied result ≡ as_symbols self.now }
    {
        match self {
            LlvmAttr::Symbols(part) => Some(part.as_slice()),
            _ => None,
        }
    }

    /// Returns the attribute `llvm.type` of `of_type`.
    pub fn type_of(of_type: T) -> LlvmAttr<T>
        ensures { as_type_of result ≡ Some of_type }
    {
        LlvmAttr::TypeOf(Own { value: of_type })
    }

    /// Returns `of_type` of `llvm.type`, or `None` for any other attribute.
    pub fn as_type_of(&self) -> Option<&T>
        ensures { option_copied result ≡ as_type_of self.now }
    {
        match self {
            LlvmAttr::TypeOf(part) => Some(&part.value),
            _ => None,
        }
    }

    /// Returns the attribute `llvm.inbounds` of `of_type`.
    pub fn in_bounds(of_type: T) -> LlvmAttr<T>
        ensures { as_in_bounds result ≡ Some of_type }
    {
        LlvmAttr::InBounds(Own { value: of_type })
    }

    /// Returns `of_type` of `llvm.inbounds`, or `None` for any other attribute.
    pub fn as_in_bounds(&self) -> Option<&T>
        ensures { option_copied result ≡ as_in_bounds self.now }
    {
        match self {
            LlvmAttr::InBounds(part) => Some(&part.value),
            _ => None,
        }
    }

    /// Returns the attribute `llvm.cond` of `int_predicate`.
    pub fn int_condition(int_predicate: IntPredicate) -> LlvmAttr<T>
        ensures { as_int_condition result ≡ Some int_predicate }
    {
        LlvmAttr::IntCondition(int_predicate)
    }

    /// Returns `int_predicate` of `llvm.cond`, or `None` for any other attribute.
    pub fn as_int_condition(&self) -> Option<IntPredicate>
        ensures { result ≡ as_int_condition self.now }
    {
        match self {
            LlvmAttr::IntCondition(part) => Some(*part),
            _ => None,
        }
    }

    /// Returns the attribute `llvm.fcond` of `float_predicate`.
    pub fn float_condition(float_predicate: FloatPredicate) -> LlvmAttr<T>
        ensures { as_float_condition result ≡ Some float_predicate }
    {
        LlvmAttr::FloatCondition(float_predicate)
    }

    /// Returns `float_predicate` of `llvm.fcond`, or `None` for any other attribute.
    pub fn as_float_condition(&self) -> Option<FloatPredicate>
        ensures { result ≡ as_float_condition self.now }
    {
        match self {
            LlvmAttr::FloatCondition(part) => Some(*part),
            _ => None,
        }
    }

    /// Returns the attribute `llvm.overflow` of `wrapping`.
    pub fn overflow(wrapping: Wrapping) -> LlvmAttr<T>
        ensures { as_overflow result ≡ Some wrapping }
    {
        LlvmAttr::Overflow(wrapping)
    }

    /// Returns `wrapping` of `llvm.overflow`, or `None` for any other attribute.
    pub fn as_overflow(&self) -> Option<Wrapping>
        ensures { result ≡ as_overflow self.now }
    {
        match self {
            LlvmAttr::Overflow(part) => Some(*part),
            _ => None,
        }
    }

    /// Returns the attribute `llvm.at` of `items`.
    pub fn indices(items: Vec<Number<u32>>) -> LlvmAttr<T>
        ensures { as_indices result ≡ Some items.items }
    {
        LlvmAttr::Indices(ListOf::new(items))
    }

    /// Returns `items` of `llvm.at`, or `None` for any other attribute.
    pub fn as_indices(&self) -> Option<&[Number<u32>]>
        ensures { option_copied result ≡ as_indices self.now }
    {
        match self {
            LlvmAttr::Indices(part) => Some(part.as_slice()),
            _ => None,
        }
    }

    /// Returns the attribute `llvm.mask` of `items`.
    pub fn mask(items: Vec<Number<i32>>) -> LlvmAttr<T>
        ensures { as_mask result ≡ Some items.items }
    {
        LlvmAttr::Mask(ListOf::new(items))
    }

    /// Returns `items` of `llvm.mask`, or `None` for any other attribute.
    pub fn as_mask(&self) -> Option<&[Number<i32>]>
        ensures { option_copied result ≡ as_mask self.now }
    {
        match self {
            LlvmAttr::Mask(part) => Some(part.as_slice()),
            _ => None,
        }
    }

    /// Returns the attribute `llvm.cases` of `items`.
    pub fn cases(items: Vec<Digits>) -> LlvmAttr<T>
        ensures { as_cases result ≡ Some items.items }
    {
        LlvmAttr::Cases(ListOf::new(items))
    }

    /// Returns `items` of `llvm.cases`, or `None` for any other attribute.
    pub fn as_cases(&self) -> Option<&[Digits]>
        ensures { option_copied result ≡ as_cases self.now }
    {
        match self {
            LlvmAttr::Cases(part) => Some(part.as_slice()),
            _ => None,
        }
    }

    /// Returns the attribute `llvm.ordering` of `memory_order`.
    pub fn ordering(memory_order: MemoryOrder) -> LlvmAttr<T>
        ensures { as_ordering result ≡ Some memory_order }
    {
        LlvmAttr::Ordering(memory_order)
    }

    /// Returns `memory_order` of `llvm.ordering`, or `None` for any other attribute.
    pub fn as_ordering(&self) -> Option<MemoryOrder>
        ensures { result ≡ as_ordering self.now }
    {
        match self {
            LlvmAttr::Ordering(part) => Some(*part),
            _ => None,
        }
    }

    /// Returns the attribute `llvm.rmw` of `update`.
    pub fn read_modify_write(update: Update) -> LlvmAttr<T>
        ensures { as_read_modify_write result ≡ Some update }
    {
        LlvmAttr::ReadModifyWrite(update)
    }

    /// Returns `update` of `llvm.rmw`, or `None` for any other attribute.
    pub fn as_read_modify_write(&self) -> Option<Update>
        ensures { result ≡ as_read_modify_write self.now }
    {
        match self {
            LlvmAttr::ReadModifyWrite(part) => Some(*part),
            _ => None,
        }
    }

    /// Returns the attribute `llvm.clauses` of `items`.
    pub fn clauses(items: Vec<Clause>) -> LlvmAttr<T>
        ensures { as_clauses result ≡ Some items.items }
    {
        LlvmAttr::Clauses(ListOf::new(items))
    }

    /// Returns `items` of `llvm.clauses`, or `None` for any other attribute.
    pub fn as_clauses(&self) -> Option<&[Clause]>
        ensures { option_copied result ≡ as_clauses self.now }
    {
        match self {
            LlvmAttr::Clauses(part) => Some(part.as_slice()),
            _ => None,
        }
    }

    /// Returns the attribute `llvm.asm` of `text_1` and `text_2`.
    pub fn assembly(text_1: String, text_2: String) -> LlvmAttr<T>
        ensures { as_assembly result ≡ Some ((chars (string_bytes text_1)), (chars (string_bytes text_2))) }
    {
        LlvmAttr::Assembly(Within {
            inside: Then {
                first: Characters::new(text_1),
                second: Characters::new(text_2),
                between: PhantomData,
            },
            brackets: PhantomData,
        })
    }

    /// Returns `text_1` and `text_2` of `llvm.asm`, or `None` for any other attribute.
    pub fn as_assembly(&self) -> Option<(&str, &str)>
        ensures { option_map (λ v. (chars v.0.now, chars v.1.now)) result ≡ as_assembly self.now }
    {
        match self {
            LlvmAttr::Assembly(part) => Some((
                part.inside.first.as_str(),
                part.inside.second.as_str(),
            )),
            _ => None,
        }
    }

    /// Returns the attribute `llvm.linkage` of `linkage_kind`.
    pub fn linkage(linkage_kind: LinkageKind) -> LlvmAttr<T>
        ensures { as_linkage result ≡ Some linkage_kind }
    {
        LlvmAttr::Linkage(linkage_kind)
    }

    /// Returns `linkage_kind` of `llvm.linkage`, or `None` for any other attribute.
    pub fn as_linkage(&self) -> Option<LinkageKind>
        ensures { result ≡ as_linkage self.now }
    {
        match self {
            LlvmAttr::Linkage(part) => Some(*part),
            _ => None,
        }
    }

    /// Returns the attribute `llvm.align` of `bytes`.
    pub fn align(bytes: Ranged<Bytes>) -> LlvmAttr<T>
        ensures { as_align result ≡ Some bytes.value }
    {
        LlvmAttr::Align(bytes)
    }

    /// Returns `bytes` of `llvm.align`, or `None` for any other attribute.
    pub fn as_align(&self) -> Option<u64>
        ensures { result ≡ as_align self.now }
    {
        match self {
            LlvmAttr::Align(part) => Some(part.get()),
            _ => None,
        }
    }

    /// Returns the attribute `llvm.word` of `name`.
    pub fn word(name: Identifier) -> LlvmAttr<T>
        ensures { as_word result ≡ Some name }
    {
        LlvmAttr::Word(Name::new(name))
    }

    /// Returns `name` of `llvm.word`, or `None` for any other attribute.
    pub fn as_word(&self) -> Option<&Identifier>
        ensures { option_copied result ≡ as_word self.now }
    {
        match self {
            LlvmAttr::Word(part) => Some(part.as_identifier()),
            _ => None,
        }
    }

    /// Returns the attribute `llvm.text` of `text`.
    pub fn other(text: String) -> LlvmAttr<T>
        ensures { as_other result ≡ Some (chars (string_bytes text)) }
    {
        LlvmAttr::Other(Characters::new(text))
    }

    /// Returns `text` of `llvm.text`, or `None` for any other attribute.
    pub fn as_other(&self) -> Option<&str>
        ensures { option_map (λ v. chars v.now) result ≡ as_other self.now }
    {
        match self {
            LlvmAttr::Other(part) => Some(part.as_str()),
            _ => None,
        }
    }

    /// Returns the attribute `llvm.signature` of `of_type`.
    pub fn signature(of_type: T) -> LlvmAttr<T>
        ensures { as_signature result ≡ Some of_type }
    {
        LlvmAttr::Signature(Own { value: of_type })
    }

    /// Returns `of_type` of `llvm.signature`, or `None` for any other attribute.
    pub fn as_signature(&self) -> Option<&T>
        ensures { option_copied result ≡ as_signature self.now }
    {
        match self {
            LlvmAttr::Signature(part) => Some(&part.value),
            _ => None,
        }
    }

    /// Returns the attribute `llvm.fast` of `items`.
    pub fn fast(items: Vec<Freedom>) -> LlvmAttr<T>
        ensures { as_fast result ≡ Some items.items }
    {
        LlvmAttr::Fast(ListOf::new(items))
    }

    /// Returns `items` of `llvm.fast`, or `None` for any other attribute.
    pub fn as_fast(&self) -> Option<&[Freedom]>
        ensures { option_copied result ≡ as_fast self.now }
    {
        match self {
            LlvmAttr::Fast(part) => Some(part.as_slice()),
            _ => None,
        }
    }
}
