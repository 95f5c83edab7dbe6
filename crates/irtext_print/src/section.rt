//! The section after a root. An item is an operation or a block that carries a mark.
ghost use Rattle.std.specs.Prelude.{◌≡◌, ◌++◌, ◌<◌, ◌^◌, OnOk, OnErr, IfErr, codes, string_bytes};
ghost use Rattle.irtext_base.specs.Appending.{OnlyAppends};
ghost use Rattle.irtext_grammar.specs.Spelling.Locations.{known_text};
ghost use Rattle.irtext_grammar.specs.Spelling.Section.{once_texts};
ghost use Rattle.irtext_print.specs.Entries as texts;
ghost use Rattle.irtext_print.specs.Errors.Located.{framed};
ghost use Rattle.irtext_print.specs.Items as section;
ghost use Rattle.irtext_print.specs.Mentions as mentions;
ghost use Rattle.irtext_print.specs.Printers.Appended.{AppendsText};
ghost use Rattle.irtext_print.specs.Printers.PieceText.{words};
ghost use Rattle.irtext_print.specs.Refusals.{IsMemory};

use crate::entries::is_in_memory;
use crate::given::given_of;
use crate::location::print::{fmt_known, fmt_numbers};
use crate::mentions::Mentions;
use crate::printable::Refusal;
use crate::printable::numbers::fmt_number;
use crate::printable::refusal::memory_alone;
use indexmap::IndexSet;
use irtext_base::location::Location;
use irtext_base::text::{AttrText, IrText};
use irtext_context::base::{Context, Item};
use irtext_memory::{OutOfMemory, string};

/// Appends a print-once attribute, after its index.
fn fmt_once<A: AttrText<A>>(index: usize, attr: &A, f: &mut String) -> Result<(), OutOfMemory>
    ensures text { OnOk result (AppendsText f.old (texts.once_text A.IrText.written index attr.now) f.new) }
    ensures appended { OnErr result (OnlyAppends f.old f.new) }
{
    string::push_str(f, "!")?;
    fmt_number(index as u64, f)?;
    string::push_str(f, " = ")?;
    attr.write_text(f)?;
    string::push_str(f, "\n")?;
    Ok(())
}

impl<'c, A: AttrText<A>> Mentions<'c, A> {
    /// Appends the entry of an item; an erased one has none.
    fn fmt_item<T: IrText<A>>(
        &mut self,
        ctx: &'c Context<T, A>,
        index: usize,
        item: Item,
        f: &mut String,
    ) -> Result<(), OutOfMemory>
        requires { self.old.items < 2 ^ 63 }
        ensures writes { OnOk result (section.WritesItemEntry T.IrText.own A.IrText.own A.AttrText.own A.eq ctx.now
            self.old self.new f.old f.new index item) }
        ensures appended { OnErr result (OnlyAppends f.old f.new) }
    {
        match given_of(ctx, item) {
            Some(given) => self.fmt_entry(ctx, index, &given, f),
            None => Ok(()),
        }
    }

    /// Appends the entries of items.
    fn fmt_items<T: IrText<A>>(
        &mut self,
        ctx: &'c Context<T, A>,
        items: &[Item],
        f: &mut String,
    ) -> Result<(), OutOfMemory>
        requires { self.old.items < 2 ^ 63 }
        ensures writes { OnOk result (section.WritesEntries T.IrText.own A.IrText.own A.AttrText.own A.eq ctx.now
            self.old self.new f.old f.new items.now) }
        ensures appended { OnErr result (OnlyAppends f.old f.new) }
    {
        for (index, item) in items.iter().enumerate() {
            self.fmt_item(ctx, index, *item, f)?;
        }
        Ok(())
    }

    /// Appends the print-once attributes, numbered on after all items.
    fn fmt_all_once(&self, f: &mut String) -> Result<(), OutOfMemory>
        requires { self.now.items < 2 ^ 63 }
        ensures text { OnOk result (AppendsText f.old (once_texts (words A.IrText.written) (mentions.asking
            A.print_once A.eq)
            self.now.items (mentions.known_in self.now.known)) f.new) }
        ensures appended { OnErr result (OnlyAppends f.old f.new) }
    {
        let attrs = self.known.as_slice();
        for (place, attr) in attrs.iter().enumerate() {
            fmt_once(self.items + place, *attr, f)?;
        }
        Ok(())
    }
}

/// Appends the section of items, if there are any.
fn fmt_section<T: IrText<A>, A: AttrText<A>>(
    ctx: &Context<T, A>,
    items: &[Item],
    f: &mut String,
) -> Result<(), OutOfMemory>
    ensures text { OnOk result (AppendsText f.old (section.section_at T.IrText.own A.IrText.own A.AttrText.own A.eq
        ctx.now items.now) f.new) }
    ensures appended { OnErr result (OnlyAppends f.old f.new) }
{
    if items.is_empty() {
        return Ok(());
    }
    string::push_str(f, "\n\noutlined_attributes:\n")?;
    let mut mentions = Mentions {
        items: items.len(),
        known: IndexSet::with_hasher(ctx.allocator(), ctx.seed()),
    };
    mentions.fmt_items(ctx, items, f)?;
    mentions.fmt_all_once(f)
}

/// Appends the section of items. The index of each is its place among them; an erased one has no entry, and keeps its index. After them
/// comes each print-once attribute, numbered on. If there are no items, nothing is appended. The text begins with two newlines:
///
/// ```text
/// outlined_attributes:
/// !0 = @[<in-memory>: line: 1, column: 1], [dbg = !1]
/// !1 = test.dbg "s"
/// ```
///
/// Allocates only for the print-once attributes, a reference for each. The error is always `Memory`; what was appended up to the error
/// remains.
pub fn print_section<T: IrText<A>, A: AttrText<A>>(
    ctx: &Context<T, A>,
    items: &[Item],
    f: &mut String,
) -> Result<(), Refusal>
    ensures text { OnOk result (AppendsText f.old
        (section.section_at T.IrText.own A.IrText.own A.AttrText.own A.eq ctx.now items.now) f.new) }
    ensures refused { IfErr result (λ e. IsMemory e) }
    ensures appended { OnErr result (OnlyAppends f.old f.new) }
{
    memory_alone(fmt_section(ctx, items, f))
}

/// Appends the mark and the section of an item if its location is known and is all that the section contains for it. For a position in
/// memory, everything before the line number is appended at once.
fn fmt_located<T: IrText<A>, A: AttrText<A>>(
    location: &Location<A>,
    ctx: &Context<T, A>,
    f: &mut String,
) -> Result<(), OutOfMemory>
    ensures text { OnOk result (string_bytes f.new ≡ string_bytes f.old
        ++ framed (codes " !0\n\noutlined_attributes:\n!0 = @[") (codes "], []\n")
        (known_text A.written ctx.now.paths location.now)) }
    ensures appended { OnErr result (OnlyAppends f.old f.new) }
{
    if let Location::SrcPos { src, pos } = location {
        if is_in_memory(*src) {
            string::push_str(f, " !0\n\noutlined_attributes:\n!0 = @[<in-memory>: line: ")?;
            fmt_numbers(pos, f)?;
            string::push_str(f, "], []\n")?;
            return Ok(());
        }
    }
    fmt_known(
        location,
        " !0\n\noutlined_attributes:\n!0 = @[",
        "], []\n",
        ctx,
        f,
    )
}

/// Appends the mark and the section of an item, as [`print_alone`] does.
fn fmt_alone<T: IrText<A>, A: AttrText<A>>(
    ctx: &Context<T, A>,
    item: Item,
    f: &mut String,
) -> Result<(), OutOfMemory>
    ensures text { OnOk result (AppendsText f.old (section.alone_at T.IrText.own A.IrText.own A.AttrText.own A.eq
        ctx.now item) f.new) }
    ensures appended { OnErr result (OnlyAppends f.old f.new) }
{
    let Some(given) = given_of(ctx, item) else {
        return Ok(());
    };
    if given.has_attributes() {
        string::push_str(f, " !0")?;
        return fmt_section(ctx, &[item], f);
    }
    fmt_located(given.location, ctx, f)
}

/// Appends the mark of an item and a section with its entry alone; nothing if the item has no mark. The section's first words and the
/// entry are appended together, and no list of items is allocated: ` !0`, and the section with the entry of `!0`.
///
/// Allocates as [`print_section`] does. The error is always `Memory`; what was appended up to the error remains.
pub fn print_alone<T: IrText<A>, A: AttrText<A>>(
    ctx: &Context<T, A>,
    item: Item,
    f: &mut String,
) -> Result<(), Refusal>
    ensures text { OnOk result (AppendsText f.old (section.alone_at T.IrText.own A.IrText.own A.AttrText.own
        A.eq ctx.now item) f.new) }
    ensures refused { IfErr result (λ e. IsMemory e) }
    ensures appended { OnErr result (OnlyAppends f.old f.new) }
{
    memory_alone(fmt_alone(ctx, item, f))
}
