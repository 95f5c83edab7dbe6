//! What comes before regions, blocks and operations, and after them.
ghost use Rattle.std.specs.Prelude.{◌≡◌, ◌+◌, ◌≤◌, ◌^◌, ◌++◌, [], OnOk, OnErr, IfOk, IfErr, codes, cond, decimal};
ghost use Rattle.irtext_base.specs.Appending.{OnlyAppends};
ghost use Rattle.irtext_grammar.specs.Spelling.Spell.{newline};
ghost use Rattle.irtext_print.specs.Printers.Appended.{AppendsText};
ghost use Rattle.irtext_print.specs.Printers.Printing.{lowered};
ghost use Rattle.irtext_print.specs.Refusals.{IsMemory, IsOther};
ghost use Rattle.irtext_print.specs.declared.printable.refusal.Refusal.TheVariants as refusal;
ghost use Rattle.irtext_print_ops.specs.Opened.{closing, between_blocks, between_operations, unless_first};
ghost use Rattle.irtext_print_ops.specs.Steps.{IsTooDeep, begun_frames, region_front, region_frames};

use crate::frame::RegionFrame;
use irtext_context::base::{Ptr, Region};
use irtext_memory::string;
use irtext_print::printable;
use irtext_print::printable::numbers::fmt_led_number;
use irtext_print::printable::refusal::memory_alone;
use irtext_print::printable::{
    Refusal, RegionPrintDepthLimit, fmt_colon_newline, fmt_newline, fmt_opening,
    fmt_semicolon_newline,
};

/// Returns the indentation one step deeper. The error is always `Depth`: the number of spaces does not fit 16 bits.
#[inline(always)]
pub(crate) fn deeper(indent: u16, width: u16) -> Result<u16, Refusal>
    ensures ok { IfOk result (λ inner. inner ≡ indent + width) }
    ensures refused { IfErr result (λ e. (e ≡ refusal.Depth) × (2 ^ 16 ≤ indent + width)) }
{
    match indent.checked_add(width) {
        Some(inner) => Ok(inner),
        None => Err(Refusal::Depth),
    }
}

/// Returns the limit inside a region; `None` if the region is elided.
#[inline(always)]
pub(crate) fn inside(limit: RegionPrintDepthLimit) -> Option<RegionPrintDepthLimit>
    ensures { result ≡ lowered limit }
{
    match limit {
        RegionPrintDepthLimit::Unlimited => Some(RegionPrintDepthLimit::Unlimited),
        RegionPrintDepthLimit::Max(levels) => {
            if levels == 0 {
                return None;
            }
            Some(RegionPrintDepthLimit::Max(levels - 1))
        }
    }
}

/// Appends a newline and so many spaces.
#[inline(always)]
fn fmt_line(indent: u16, f: &mut String) -> Result<(), Refusal>
    ensures text { OnOk result (AppendsText f.old (newline indent) f.new) }
    ensures refused { IfErr result (λ e. IsMemory e) }
    ensures appended { OnErr result (OnlyAppends f.old f.new) }
{
    match fmt_newline(indent, f) {
        Ok(()) => Ok(()),
        Err(e) => Err(Refusal::Memory(e)),
    }
}

/// Appends what comes before the next operation of a block.
pub(crate) fn fmt_between_operations(
    first: bool,
    indent: u16,
    f: &mut String,
) -> Result<(), Refusal>
    ensures text { OnOk result (AppendsText f.old (unless_first first (between_operations indent)) f.new) }
    ensures refused { IfErr result (λ e. IsMemory e) }
    ensures appended { OnErr result (OnlyAppends f.old f.new) }
{
    if first {
        return Ok(());
    }
    memory_alone(fmt_semicolon_newline(indent, f))
}

/// Appends what comes before the next block of a region.
pub(crate) fn fmt_between_blocks(first: bool, indent: u16, f: &mut String) -> Result<(), Refusal>
    ensures text { OnOk result (AppendsText f.old (unless_first first (between_blocks indent)) f.new) }
    ensures refused { IfErr result (λ e. IsMemory e) }
    ensures appended { OnErr result (OnlyAppends f.old f.new) }
{
    if first {
        return Ok(());
    }
    string::push_str(f, "\n")?;
    fmt_line(indent, f)
}

/// Appends what comes after a block's mark.
pub(crate) fn fmt_colon(indent: u16, f: &mut String) -> Result<(), Refusal>
    ensures text { OnOk result (AppendsText f.old (codes ":" ++ newline indent) f.new) }
    ensures refused { IfErr result (λ e. IsMemory e) }
    ensures appended { OnErr result (OnlyAppends f.old f.new) }
{
    memory_alone(fmt_colon_newline(indent, f))
}

/// Appends what comes after a region's blocks.
pub(crate) fn fmt_closing(indent: u16, f: &mut String) -> Result<(), Refusal>
    ensures text { OnOk result (AppendsText f.old (closing indent) f.new) }
    ensures refused { IfErr result (λ e. IsMemory e) }
    ensures appended { OnErr result (OnlyAppends f.old f.new) }
{
    memory_alone(printable::fmt_closing(indent, f))
}

/// Appends a mark with this index.
#[inline(never)]
pub(crate) fn fmt_index(index: usize, f: &mut String) -> Result<(), Refusal>
    ensures text { OnOk result (AppendsText f.old (codes " !" ++ decimal index) f.new) }
    ensures refused { IfErr result (λ e. IsMemory e) }
    ensures appended { OnErr result (OnlyAppends f.old f.new) }
{
    match fmt_led_number(" !", index as u64, f) {
        Ok(()) => Ok(()),
        Err(e) => Err(Refusal::Memory(e)),
    }
}

/// Appends `{..}` for an elided region, after a space unless the region joins what is before it.
fn fmt_elided(joins: bool, f: &mut String) -> Result<(), Refusal>
    ensures text { OnOk result (AppendsText f.old (cond joins [] (codes " ") ++ codes "{..}") f.new) }
    ensures refused { IfErr result (λ e. IsMemory e) }
    ensures appended { OnErr result (OnlyAppends f.old f.new) }
{
    if joins {
        string::push_str(f, "{..}")?;
        return Ok(());
    }
    string::push_str(f, " {..}")?;
    Ok(())
}

/// Appends what comes before a region's blocks, after a space unless the region joins what is before it.
fn fmt_begun(joins: bool, indent: u16, inner: u16, f: &mut String) -> Result<(), Refusal>
    ensures text { OnOk result (AppendsText f.old
        (cond joins [] (codes " ") ++ (newline indent ++ (codes "{" ++ newline inner))) f.new) }
    ensures refused { IfErr result (λ e. IsMemory e) }
    ensures appended { OnErr result (OnlyAppends f.old f.new) }
{
    match fmt_opening(joins, indent, inner, f) {
        Ok(()) => Ok(()),
        Err(e) => Err(Refusal::Memory(e)),
    }
}

/// Begins a region: appends what comes before its blocks, or `{..}` if it is elided, after a space unless `joins`. Returns the frame of
/// the region, if it is not elided. The error is `Depth` if the indentation inside does not fit 16 bits, otherwise `Memory`.
#[inline(always)]
pub(crate) fn begin_region(
    region: Ptr<Region>,
    joins: bool,
    indent: u16,
    width: u16,
    limit: RegionPrintDepthLimit,
    f: &mut String,
) -> Result<Option<RegionFrame>, Refusal>
    ensures text { OnOk result (AppendsText f.old
        (cond joins [] (codes " ") ++ region_front width indent limit) f.new) }
    ensures opens { IfOk result (λ begun. begun_frames begun ≡ region_frames region indent limit) }
    ensures refused { IfErr result (λ e. IsOther e → (e ≡ refusal.Depth)
        × IsTooDeep width indent limit) }
    ensures appended { OnErr result (OnlyAppends f.old f.new) }
{
    let Some(limit) = inside(limit) else {
        fmt_elided(joins, f)?;
        return Ok(None);
    };
    let inner = deeper(indent, width)?;
    fmt_begun(joins, indent, inner, f)?;
    Ok(Some(RegionFrame {
        region,
        block: 0,
        first: true,
        indent,
        limit,
    }))
}
