//! Printing of locations: files are printed as the paths that the context keeps for them.
ghost use Rattle.std.specs.Prelude.{◌≡◌, ◌++◌, FitsSigned, OnOk, OnErr, codes, option_copied, string_bytes};
ghost use Rattle.std.specs.Int.{w32};
ghost use Rattle.irtext_base.specs.Appending.{OnlyAppends};
ghost use Rattle.irtext_base.specs.Causes.{position_text};
ghost use Rattle.irtext_base.specs.Locations.{attr_view_in};
ghost use Rattle.irtext_base.specs.Paths.{path_of};
ghost use Rattle.irtext_grammar.specs.Spelling.Locations.{source_text, metadata_text, location_text, known_text};
ghost use Rattle.irtext_print.specs.Errors.Located.{framed};
ghost use Rattle.irtext_print.specs.Printers.Appended.{AppendsText};
ghost use Rattle.irtext_print.specs.Printers.LocationParts.{numbers_text};

use crate::location::parts::{Part, fmt_part};
use crate::printable::attributes::fmt_attr;
use crate::printable::numbers::fmt_signed;
use irtext_base::base::AttrObj;
use irtext_base::location::{Location, Source};
use irtext_base::parsable::SourcePosition;
use irtext_base::text::{AttrText, IrText};
use irtext_context::base::Context;
use irtext_memory::{OutOfMemory, string};
use irtext_tokens::printable::fmt_quoted;

/// Returns the path of a file, if the context keeps it.
fn path_of<'c, T: IrText<A>, A: AttrText<A>>(src: Source, ctx: &'c Context<T, A>) -> Option<&'c str>
    ensures { option_copied result ≡ path_of ctx.now.paths src }
{
    if !src.is_of(ctx) {
        return None;
    }
    match src {
        Source::File(key) => Some(ctx.path(key)),
        Source::InMemory => None,
    }
}

/// Appends the path of a file between quotation marks, or `<in-memory>`.
pub fn fmt_source<T: IrText<A>, A: AttrText<A>>(
    src: Source,
    ctx: &Context<T, A>,
    f: &mut String,
) -> Result<(), OutOfMemory>
    ensures text { OnOk result (AppendsText f.old (source_text (path_of ctx.now.paths src)) f.new) }
    ensures appended { OnErr result (OnlyAppends f.old f.new) }
{
    match path_of(src, ctx) {
        Some(path) => fmt_quoted(path, f),
        None => {
            string::push_str(f, "<in-memory>")?;
            Ok(())
        }
    }
}

/// A number fits its type. Does nothing: the contract hands that out.
fn number_fits(number: &i32)
    ensures { FitsSigned w32 number.now }
{
    let _number = *number;
}

/// Appends a source and the word before a line: `<in-memory>: line: `.
fn fmt_front<T: IrText<A>, A: AttrText<A>>(
    src: Source,
    ctx: &Context<T, A>,
    f: &mut String,
) -> Result<(), OutOfMemory>
    ensures text { OnOk result (AppendsText f.old
        (source_text (path_of ctx.now.paths src) ++ codes ": line: ") f.new) }
    ensures appended { OnErr result (OnlyAppends f.old f.new) }
{
    match path_of(src, ctx) {
        Some(path) => {
            fmt_quoted(path, f)?;
            string::push_str(f, ": line: ")?;
        }
        None => string::push_str(f, "<in-memory>: line: ")?,
    }
    Ok(())
}

/// Appends the numbers of line and column, in characters from 1: `1, column: 21`. Fails only if out of memory.
#[inline(always)]
pub fn fmt_numbers(pos: &SourcePosition, f: &mut String) -> Result<(), OutOfMemory>
    ensures text { OnOk result (AppendsText f.old (numbers_text pos.now) f.new) }
    ensures appended { OnErr result (OnlyAppends f.old f.new) }
{
    number_fits(&pos.line);
    number_fits(&pos.column);
    fmt_signed(pos.line, f)?;
    string::push_str(f, ", column: ")?;
    fmt_signed(pos.column, f)
}

/// Appends an attribute between `<` and `>`, if there is one.
pub(super) fn fmt_metadata<A: AttrText<A>>(
    metadata: &Option<AttrObj<A>>,
    f: &mut String,
) -> Result<(), OutOfMemory>
    ensures text { OnOk result (AppendsText f.old (metadata_text A.written (attr_view_in metadata.now)) f.new) }
    ensures appended { OnErr result (OnlyAppends f.old f.new) }
{
    if let Some(attr) = metadata {
        string::push_str(f, "<")?;
        fmt_attr(attr, f)?;
        string::push_str(f, ">")?;
    }
    Ok(())
}

/// Appends a source, a line and a column: `<in-memory>: line: 1, column: 21`.
#[inline(always)]
pub(crate) fn fmt_place<T: IrText<A>, A: AttrText<A>>(
    src: Source,
    pos: &SourcePosition,
    ctx: &Context<T, A>,
    f: &mut String,
) -> Result<(), OutOfMemory>
    ensures text { OnOk result (AppendsText f.old
        (source_text (path_of ctx.now.paths src) ++ (codes ": " ++ position_text pos.now)) f.new) }
    ensures appended { OnErr result (OnlyAppends f.old f.new) }
{
    fmt_front(src, ctx, f)?;
    fmt_numbers(pos, f)
}

/// Appends the text of a location. Fails only if out of memory; what was appended up to the error remains. Does not recurse: what
/// follows after inner locations waits on a stack in memory of the context's allocator. A position has none, and needs no stack.
pub fn fmt_location<T: IrText<A>, A: AttrText<A>>(
    location: &Location<A>,
    ctx: &Context<T, A>,
    f: &mut String,
) -> Result<(), OutOfMemory>
    ensures text { OnOk result (AppendsText f.old (location_text A.written ctx.now.paths location.now) f.new) }
    ensures appended { OnErr result (OnlyAppends f.old f.new) }
{
    if let Location::SrcPos { src, pos } = location {
        return fmt_place(*src, pos, ctx, f);
    }
    let mut waiting = Vec::new(ctx.allocator());
    let mut next = Some(Part::Whole(location));
    while let Some(part) = next {
        next = fmt_part(part, ctx, &mut waiting, f)?;
    }
    Ok(())
}

/// Appends the text of a location between these two texts, if the location is known. Fails only if out of memory.
pub fn fmt_known<T: IrText<A>, A: AttrText<A>>(
    location: &Location<A>,
    before: &str,
    after: &str,
    ctx: &Context<T, A>,
    f: &mut String,
) -> Result<(), OutOfMemory>
    ensures text { OnOk result (string_bytes f.new ≡ string_bytes f.old ++ framed before.now after.now
        (known_text A.written ctx.now.paths location.now)) }
    ensures appended { OnErr result (OnlyAppends f.old f.new) }
{
    if let Location::Unknown = location {
        return Ok(());
    }
    string::push_str(f, before)?;
    fmt_location(location, ctx, f)?;
    string::push_str(f, after)?;
    Ok(())
}
