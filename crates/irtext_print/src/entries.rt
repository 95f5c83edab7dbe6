//! The entries of a section, piece by piece. An item is an operation or a block that carries a mark. Each of these calls fails only if
//! out of memory; what was appended up to the error remains.
ghost use Rattle.std.specs.Prelude.{◌≡◌, ◌++◌, ◌<◌, ◌^◌, [], OnOk, OnErr, codes, cond, decimal, string_bytes, true, false};
ghost use Rattle.std.specs.Str.{encode_utf8_all};
ghost use Rattle.irtext_base.specs.Appending.{OnlyAppends};
ghost use Rattle.irtext_base.specs.declared.location.Source.TheVariants as source;
ghost use Rattle.irtext_grammar.specs.Contexts.Held.{attribute_of};
ghost use Rattle.irtext_grammar.specs.Grammar.Tree.{own};
ghost use Rattle.irtext_grammar.specs.Spelling.Locations.{known_text};
ghost use Rattle.irtext_grammar.specs.Spelling.Spell.{comma};
ghost use Rattle.irtext_print.specs.Entries as texts;
ghost use Rattle.irtext_print.specs.Given.{given_pair, attributes_of};
ghost use Rattle.irtext_print.specs.Printers.Appended.{AppendsText};

use crate::given::{Given, GivenAttribute};
use crate::location::print::{fmt_known, fmt_numbers};
use crate::mentions::Mentions;
use crate::printable::attributes::fmt_attr;
use crate::printable::numbers::{InPlace, fmt_led_number, in_place, put_number};
use arrayvec::ArrayString;
use irtext_base::base::{AttrObj, Identifier};
use irtext_base::location::{Location, Source};
use irtext_base::parsable::SourcePosition;
use irtext_base::text::{AttrText, IrText};
use irtext_context::base::Context;
use irtext_memory::{OutOfMemory, string};

/// Appends `!` and an index.
#[inline(never)]
fn fmt_index(index: usize, f: &mut String) -> Result<(), OutOfMemory>
    ensures text { OnOk result (AppendsText f.old (codes "!" ++ decimal index) f.new) }
    ensures appended { OnErr result (OnlyAppends f.old f.new) }
{
    fmt_led_number("!", index as u64, f)
}

/// Appends a label under the key of labels.
fn fmt_label(label: &Identifier, f: &mut String) -> Result<(), OutOfMemory>
    ensures text { OnOk result (AppendsText f.old (texts.label_text label.now) f.new) }
    ensures appended { OnErr result (OnlyAppends f.old f.new) }
{
    string::push_str(f, "builtin_block_label = builtin.identifier ")?;
    string::push_str(f, label.as_str())?;
    Ok(())
}

/// Appends `, `, except before the first attribute.
fn fmt_comma(first: bool, f: &mut String) -> Result<(), OutOfMemory>
    ensures text { OnOk result (string_bytes f.new ≡ string_bytes f.old ++ cond first [] comma) }
    ensures appended { OnErr result (OnlyAppends f.old f.new) }
{
    if !first {
        string::push_str(f, ", ")?;
    }
    Ok(())
}

/// Whether a source is in memory, and so has no path.
pub(crate) fn is_in_memory(src: Source) -> bool
    ensures { result ≡ elim src [ source.InMemory ↦ true | _ ↦ false ] }
{
    matches!(src, Source::InMemory)
}

/// Appends what is before an entry's attributes for a position in memory, in one piece. The numbers have at most six digits.
#[inline(always)]
fn fmt_memory(index: usize, line: usize, column: usize, f: &mut String) -> Result<(), OutOfMemory>
    requires index { index < 1000000 }
    requires line { line < 1000000 }
    requires column { column < 1000000 }
    ensures text { OnOk result (string_bytes f.new ≡ string_bytes f.old ++ texts.memory_text index line column) }
    ensures appended { OnErr result (OnlyAppends f.old f.new) }
{
    let mut front: InPlace = ArrayString::new();
    front.push_str("!");
    put_number(index, &mut front);
    front.push_str(" = @[<in-memory>: line: ");
    put_number(line, &mut front);
    front.push_str(", column: ");
    put_number(column, &mut front);
    front.push_str("], [");
    string::push_str(f, front.as_str())?;
    Ok(())
}

/// Appends what is before an entry's attributes for a position in memory, piece by piece.
#[cold]
#[inline(never)]
fn fmt_memory_slowly(index: usize, pos: &SourcePosition, f: &mut String) -> Result<(), OutOfMemory>
    ensures text { OnOk result (string_bytes f.new ≡ texts.memory_front (string_bytes f.old) index pos.now) }
    ensures appended { OnErr result (OnlyAppends f.old f.new) }
{
    fmt_index(index, f)?;
    string::push_str(f, " = @[<in-memory>: line: ")?;
    fmt_numbers(pos, f)?;
    string::push_str(f, "], [")?;
    Ok(())
}

/// Appends what is before an entry's attributes for a position in memory.
#[inline(always)]
fn fmt_memory_front(index: usize, pos: &SourcePosition, f: &mut String) -> Result<(), OutOfMemory>
    ensures text { OnOk result (string_bytes f.new ≡ texts.memory_front (string_bytes f.old) index pos.now) }
    ensures appended { OnErr result (OnlyAppends f.old f.new) }
{
    let Some(line) = in_place(&pos.line) else {
        return fmt_memory_slowly(index, pos, f);
    };
    let Some(column) = in_place(&pos.column) else {
        return fmt_memory_slowly(index, pos, f);
    };
    if index >= 1_000_000 {
        return fmt_memory_slowly(index, pos, f);
    }
    fmt_memory(index, line, column, f)
}

/// Appends what is between an entry's index and its attributes: ` = `, the location if it is known, and `[`.
#[inline(always)]
fn fmt_entry_location<T: IrText<A>, A: AttrText<A>>(
    location: &Location<A>,
    ctx: &Context<T, A>,
    f: &mut String,
) -> Result<(), OutOfMemory>
    ensures text { OnOk result (string_bytes f.new ≡ texts.location_front A.written ctx.now.paths location.now
        (string_bytes f.old)) }
    ensures appended { OnErr result (OnlyAppends f.old f.new) }
{
    if let Location::Unknown = location {
        string::push_str(f, " = [")?;
        return Ok(());
    }
    fmt_known(location, " = @[", "], [", ctx, f)
}

/// Appends what is before an entry's attributes: `!` and its index, ` = `, the location if it is known, and `[`. For a position in
/// memory these are put together first, and appended at once.
#[inline(always)]
fn fmt_front<T: IrText<A>, A: AttrText<A>>(
    index: usize,
    location: &Location<A>,
    ctx: &Context<T, A>,
    f: &mut String,
) -> Result<(), OutOfMemory>
    ensures text { OnOk result (string_bytes f.new ≡ texts.location_front A.written ctx.now.paths location.now
        (string_bytes f.old ++ encode_utf8_all (codes "!" ++ decimal index))) }
    ensures appended { OnErr result (OnlyAppends f.old f.new) }
{
    if let Location::SrcPos { src, pos } = location {
        if is_in_memory(*src) {
            return fmt_memory_front(index, pos, f);
        }
    }
    fmt_index(index, f)?;
    fmt_entry_location(location, ctx, f)
}

impl<'c, A: AttrText<A>> Mentions<'c, A> {
    /// Appends the reference to a print-once attribute: `!` and its index, which comes after those of all items. The attribute is known
    /// from then on.
    fn fmt_reference(&mut self, attr: &'c A, f: &mut String) -> Result<(), OutOfMemory>
        requires { self.old.items < 2 ^ 63 }
        ensures writes { OnOk result (texts.WritesReference A.IrText.own A.AttrText.own A.eq self.old self.new
            f.old f.new attr.now) }
        ensures appended { OnErr result (OnlyAppends f.old f.new) }
    {
        let place = self.note(attr)?;
        let index = self.items + place;
        fmt_index(index, f)
    }

    /// Appends an attribute of the caller, or the reference to a print-once one.
    fn fmt_own(&mut self, attr: &'c A, f: &mut String) -> Result<(), OutOfMemory>
        requires { self.old.items < 2 ^ 63 }
        ensures writes { OnOk result (texts.WritesItem A.IrText.own A.AttrText.own A.eq self.old self.new f.old
            f.new (own attr.now)) }
        ensures appended { OnErr result (OnlyAppends f.old f.new) }
    {
        if attr.is_print_once() {
            return self.fmt_reference(attr, f);
        }
        attr.write_text(f)
    }

    /// Appends an attribute, or the reference to a print-once one.
    #[inline(always)]
    fn fmt_attribute(&mut self, attr: &'c AttrObj<A>, f: &mut String) -> Result<(), OutOfMemory>
        requires { self.old.items < 2 ^ 63 }
        ensures writes { OnOk result (texts.WritesItem A.IrText.own A.AttrText.own A.eq self.old self.new f.old
            f.new (attribute_of attr.now)) }
        ensures appended { OnErr result (OnlyAppends f.old f.new) }
    {
        match attr {
            AttrObj::Own(own) => self.fmt_own(own, f),
            _ => fmt_attr(attr, f),
        }
    }

    /// Appends what the section contains for an item under one key.
    #[inline(always)]
    fn fmt_pair(&mut self, pair: GivenAttribute<'c, A>, f: &mut String) -> Result<(), OutOfMemory>
        requires { self.old.items < 2 ^ 63 }
        ensures writes { OnOk result (texts.WritesPair A.IrText.own A.AttrText.own A.eq self.old self.new f.old
            f.new (given_pair pair.entry)) }
        ensures appended { OnErr result (OnlyAppends f.old f.new) }
    {
        match pair {
            GivenAttribute::Label(label) => fmt_label(label, f),
            GivenAttribute::Outlined(key, attr) => {
                string::push_str(f, key.as_str())?;
                string::push_str(f, " = ")?;
                self.fmt_attribute(attr, f)
            }
        }
    }

    /// Appends what the section contains for an item besides its location, with `, ` between.
    #[inline(always)]
    fn fmt_pairs(&mut self, given: &Given<'c, A>, f: &mut String) -> Result<(), OutOfMemory>
        requires { self.old.items < 2 ^ 63 }
        ensures writes { OnOk result (texts.WritesPairs A.IrText.own A.AttrText.own A.eq self.old self.new f.old
            f.new
            (attributes_of A.outlined given.now)) }
        ensures appended { OnErr result (OnlyAppends f.old f.new) }
    {
        let mut first = true;
        for pair in given.attributes() {
            fmt_comma(first, f)?;
            self.fmt_pair(pair, f)?;
            first = false;
        }
        Ok(())
    }

    /// Appends the entry of an item, from what the section contains for it: `!0 = @[<in-memory>: line: 1, column: 1], []`.
    pub(crate) fn fmt_entry<T: IrText<A>>(
        &mut self,
        ctx: &Context<T, A>,
        index: usize,
        given: &Given<'c, A>,
        f: &mut String,
    ) -> Result<(), OutOfMemory>
        requires { self.old.items < 2 ^ 63 }
        ensures writes { OnOk result (texts.WritesEntry A.IrText.own A.AttrText.own A.eq self.old self.new f.old
            f.new index
            (known_text A.written ctx.now.paths given.now.location.now) (attributes_of A.outlined
            given.now)) }
        ensures appended { OnErr result (OnlyAppends f.old f.new) }
    {
        fmt_front(index, given.location, ctx, f)?;
        self.fmt_pairs(given, f)?;
        string::push_str(f, "]\n")?;
        Ok(())
    }
}
