//! Whether an operation fits its format, and why not.
ghost use Rattle.std.specs.Prelude.{◌≡◌, not, ◌||◌, ◌==◌, nat_lt, cond, length, option_copied, option_map, Some, None, IsSome, IfSome, IfOk, IfErr, OnOk};
ghost use Rattle.irtext_context.specs.Context.{operation};
ghost use Rattle.irtext_base.specs.FormatViews.{directive_of, directives_of};
ghost use Rattle.irtext_graph.specs.Graph.{IsLive};
ghost use Rattle.irtext_graph.specs.Parts.{regions};
ghost use Rattle.irtext_graph.specs.declared.object.Object.TheVariants.{TheOperation};
ghost use Rattle.irtext_grammar.specs.Contexts.Formats.{format_of};
ghost use Rattle.irtext_grammar.specs.Contexts.Held.{attribute_of, entries_of, known_types};
ghost use Rattle.irtext_grammar.specs.Contexts.Nested.{seen_own};
ghost use Rattle.irtext_print.specs.Printers.FitFaults.{missing_key};
ghost use Rattle.irtext_print.specs.Printers.PrintedOperation.{has_symbol};
ghost use Rattle.irtext_print_ops.specs.Fits as fits;
ghost use Rattle.irtext_print_ops.specs.Listed as texts;
ghost use Rattle.irtext_print_ops.specs.declared.lists.Listed.TheVariants as listed;

use crate::children::count_regions;
use crate::lists::Listed;
use crate::printer::Printer;
use irtext_base::base::{AttrObj, Identifier};
use irtext_base::format::{Directive, OpFormat};
use irtext_base::text::{AttrText, IrText};
use irtext_context::base::{AttributeDict, Context, Operation, OperationAccess, Ptr, Value};
use irtext_graph::held::HasGraph;
use irtext_print::ir::print::fits::missing_key;
use irtext_print::ir::print::pieces::{is_key_written, is_outlined, symbol_of};
use std::fmt;
use std::fmt::Display;

/// Why an operation does not fit its format, in the order in which the reasons are checked. Keys are borrowed, so a fault allocates
/// nothing.
#[non_exhaustive]
#[derive(Clone, Copy)]
pub enum FitFault<'c> {
    /// The operation is not registered with a dialect of the context. Text: `The operation is not registered`.
    NotRegistered,
    /// The number of the operation's operands; the format prints another number. Text: `The format does not write 2 operands`.
    OperandCount(usize),
    /// The number of the operation's successors; the format prints another number. Text: `The format does not write 2 successors`.
    SuccessorCount(usize),
    /// The number of results with known types; the format prints another number. Text: `The format does not write 2 result types`.
    ResultCount(usize),
    /// The number of the operation's regions; the format prints another number. Text: `The format does not write 2 regions`.
    RegionCount(usize),
    /// A directive prints the attribute under this key, and the operation has none. Text: `The operation has no attribute k`.
    MissingAttribute(&'c Identifier),
    /// A directive prints the symbol's name, and the operation has none. Text: `The operation has no symbol`.
    NoSymbol,
    /// Neither a directive nor the section prints this attribute. Text: `The format does not write the attribute k`.
    UnwrittenAttribute(&'c Identifier),
}

impl Display for FitFault<'_> {
    ghost output = { λ fault. Some (fits.fault_text fault) };

    fn fmt<W: fmt::Write>(&self, f: &mut fmt::Formatter<W>) -> fmt::Result {
        match self {
            FitFault::NotRegistered => write!(f, "The operation is not registered"),
            FitFault::OperandCount(count) => {
                write!(f, "The format does not write {count} operands")
            }
            FitFault::SuccessorCount(count) => {
                write!(f, "The format does not write {count} successors")
            }
            FitFault::ResultCount(count) => {
                write!(f, "The format does not write {count} result types")
            }
            FitFault::RegionCount(count) => {
                write!(f, "The format does not write {count} regions")
            }
            FitFault::MissingAttribute(key) => { write!(f, "The operation has no attribute {key}") }
            FitFault::NoSymbol => write!(f, "The operation has no symbol"),
            FitFault::UnwrittenAttribute(key) => {
                write!(f, "The format does not write the attribute {key}")
            }
        }
    }
}

/// The numbers of operands, successors and regions of an operation, and of its results with known types.
#[derive(Clone, Copy)]
struct Counts {
    operands: usize,
    successors: usize,
    results: usize,
    regions: usize,
}

/// How many parts the directives print one by one, and what else they print.
#[derive(Clone, Copy)]
struct Places {
    operands: usize,
    successors: usize,
    types: usize,
    regions: usize,
    /// Whether a directive prints the operands that have no directive of their own.
    all_operands: bool,
    /// Whether a directive prints the successors that have no directive of their own.
    all_successors: bool,
    /// Whether a directive prints the regions that have no directive of their own.
    all_regions: bool,
    /// Whether a directive names a key.
    keys: bool,
    /// Whether a directive prints the symbol's name.
    header: bool,
    /// Whether a directive prints the dictionary.
    dictionary: bool,
}

/// Counts one more directive.
#[inline(always)]
fn count_directive(places: &mut Places, directive: &Directive)
    requires few { fits.AreFew places.old }
    ensures { places.new ≡ fits.counted places.old (directive_of directive.now) }
{
    match directive {
        Directive::Literal(_) => {}
        Directive::Operand(_) => places.operands += 1,
        Directive::Operands => places.all_operands = true,
        Directive::Successor(_) => places.successors += 1,
        Directive::Successors => places.all_successors = true,
        Directive::Attr(_) => places.keys = true,
        Directive::AttrDict => places.dictionary = true,
        Directive::ResultType(_) => places.types += 1,
        Directive::Region(_) => places.regions += 1,
        Directive::Regions => places.all_regions = true,
        Directive::SymbolHeader => places.header = true,
    }
}

/// Counts what directives print, in one pass over them.
#[inline(always)]
fn places_of(directives: &[Directive]) -> Places
    ensures { result ≡ fits.places_of (directives_of directives.now) }
{
    let mut places = Places {
        operands: 0,
        successors: 0,
        types: 0,
        regions: 0,
        all_operands: false,
        all_successors: false,
        all_regions: false,
        keys: false,
        header: false,
        dictionary: false,
    };
    for directive in directives {
        count_directive(&mut places, directive);
    }
    places
}

/// Whether directives with so many places print so many parts. If `all`, one of them prints the parts that have no place.
#[inline(always)]
fn counts_fit(places: usize, all: bool, parts: usize) -> bool
    ensures { result ≡ cond all (not (nat_lt parts places)) (parts == places) }
{
    if all {
        parts >= places
    } else {
        parts == places
    }
}

/// Returns the first key that directives name and no attribute has. Looks only if they name a key at all.
#[inline(always)]
fn missing_named<'d, A: AttrText<A>>(
    names_keys: bool,
    attributes: &AttributeDict<A>,
    directives: &'d [Directive],
) -> Option<&'d Identifier>
    requires { names_keys ≡ (fits.places_of (directives_of directives.now)).keys }
    ensures { option_copied result ≡ missing_key (entries_of attributes.now) (directives_of directives.now) }
{
    if !names_keys {
        return None;
    }
    missing_key(attributes, directives)
}

/// Whether the symbol's name exists, if a directive prints it.
#[inline(always)]
fn symbol_fits<A: AttrText<A>>(header: bool, attributes: &AttributeDict<A>) -> bool
    ensures { result ≡ (not header || has_symbol (entries_of attributes.now)) }
{
    !header || symbol_of(attributes).is_some()
}

/// Whether an attribute is printed by a directive that names its key, or in the section.
fn is_covered<A: AttrText<A>>(directives: &[Directive], key: &Identifier, attr: &AttrObj<A>) -> bool
    ensures { result ≡ fits.is_covered A.outlined (directives_of directives.now) (
      key.now,
      attribute_of
          attr.now,
    ) }
{
    is_key_written(directives, key.as_str()) || is_outlined(attr)
}

/// Returns the key of the first attribute that neither a directive that names its key nor the section prints.
#[inline(always)]
fn first_uncovered<'c, A: AttrText<A>>(
    attributes: &'c AttributeDict<A>,
    directives: &[Directive],
) -> Option<&'c Identifier>
    ensures { option_copied result ≡ fits.first_uncovered A.outlined (directives_of directives.now)
        (entries_of attributes.now) }
{
    for (key, attr) in attributes.iter() {
        if !is_covered(directives, key, attr) {
            return Some(key);
        }
    }
    None
}

/// Returns the key of the first attribute that is not printed at all.
#[inline(always)]
fn uncovered_key<'c, A: AttrText<A>>(
    dictionary: bool,
    attributes: &'c AttributeDict<A>,
    directives: &[Directive],
) -> Option<&'c Identifier>
    requires { dictionary ≡ (fits.places_of (directives_of directives.now)).dictionary }
    ensures { option_copied result ≡ fits.uncovered_key A.outlined (directives_of directives.now)
        (entries_of attributes.now) }
{
    if dictionary {
        return None;
    }
    first_uncovered(attributes, directives)
}

/// Whether directives print so many parts and all these attributes, and name nothing that is absent; otherwise the first reason why
/// not.
#[inline(always)]
fn check_parts<'c, A: AttrText<A>>(
    directives: &'c [Directive],
    counts: Counts,
    attributes: &'c AttributeDict<A>,
) -> Result<(), FitFault<'c>>
    ensures first { fits.refused_by result ≡ fits.first_failed 1
        (fits.tests A.outlined (directives_of directives.now) counts (entries_of attributes.now)) }
    ensures names { IfErr result (fits.Names A.outlined (directives_of directives.now) counts
        (entries_of attributes.now)) }
{
    let places = places_of(directives);
    if !counts_fit(places.operands, places.all_operands, counts.operands) {
        return Err(FitFault::OperandCount(counts.operands));
    }
    if !counts_fit(places.successors, places.all_successors, counts.successors) {
        return Err(FitFault::SuccessorCount(counts.successors));
    }
    if !counts_fit(places.types, false, counts.results) {
        return Err(FitFault::ResultCount(counts.results));
    }
    if !counts_fit(places.regions, places.all_regions, counts.regions) {
        return Err(FitFault::RegionCount(counts.regions));
    }
    match missing_named(places.keys, attributes, directives) {
        Some(key) => return Err(FitFault::MissingAttribute(key)),
        None => {}
    }
    if !symbol_fits(places.header, attributes) {
        return Err(FitFault::NoSymbol);
    }
    match uncovered_key(places.dictionary, attributes, directives) {
        Some(key) => Err(FitFault::UnwrittenAttribute(key)),
        None => Ok(()),
    }
}

impl<'c, T: IrText<A>, A: AttrText<A>> Printer<'c, T, A> {
    /// Counts the results of an operation with known types.
    fn count_typed(self, op: Ptr<Operation>) -> usize
        requires { IsLive self.ctx.now.graph (TheOperation op) }
        ensures { result ≡ length (known_types (texts.texts_of T.IrText.written self.entry.ctx.now
            (listed.ResultTypes op))) }
    {
        let mut typed = 0;
        for place in 0..self.count(Listed::ResultTypes(op)) {
            let Some(_of_type) = self.known_type(Value::Result(op, place)) else {
                continue;
            };
            typed += 1;
        }
        typed
    }

    /// Counts the parts of an operation.
    fn count_parts(self, op: Ptr<Operation>) -> Counts
        requires { IsSome (operation self.ctx.now op) }
        ensures { IfSome (seen_own A.IrText.written self.entry.ctx.now op) (λ o. result ≡ fits.counts_of o
            (length (regions self.entry.ctx.now.graph op))) }
    {
        self.keeps_operands(op);
        Counts {
            operands: self.count(Listed::Operands(op)),
            successors: self.count(Listed::Successors(op)),
            results: self.count_typed(op),
            regions: count_regions(self.ctx.graph(), op),
        }
    }
}

/// Returns the directives of an operation's format, or `None` if it is printed in the canonical form. The error is the first reason why
/// it does not fit its format, as in [`check_fits`]. Looks the format up once, and allocates nothing.
pub fn fitting_directives<'c, T: IrText<A>, A: AttrText<A>>(
    ctx: &'c Context<T, A>,
    op: Ptr<Operation>,
) -> Result<Option<&'c [Directive]>, FitFault<'c>>
    requires live { IsSome (operation ctx.now op) }
    ensures format { IfOk result (λ found. IfSome (seen_own A.IrText.written ctx.now op) (λ o.
        format_of ctx.now.dialects o.id ≡ Some (fits.format_by
        (option_map (λ ds. directives_of ds.now) found)))) }
    ensures fits { OnOk result (fits.FitsIn A.IrText.written A.AttrText.own A.eq ctx.now op) }
    ensures fault { IfErr result (fits.IsFirstReasonIn A.IrText.written A.AttrText.own A.eq ctx.now op) }
{
    let Some(info) = ctx.op_info(op.get_opid(ctx)) else {
        return Err(FitFault::NotRegistered);
    };
    match &info.format {
        OpFormat::Canonical => Ok(None),
        OpFormat::Custom(directives) => {
            let directives = directives.as_slice();
            let counts = Printer { ctx }.count_parts(op);
            match check_parts(directives, counts, op.attributes(ctx)) {
                Ok(()) => Ok(Some(directives)),
                Err(fault) => Err(fault),
            }
        }
    }
}

/// Checks whether an operation fits its format. The error is the first reason why not, in the order of [`FitFault`]. If several
/// attributes are at fault, it names the first: the missing one that the directives name first, or the operation's first one that is
/// not printed. An operation with the canonical form always fits. Allocates nothing.
pub fn check_fits<'c, T: IrText<A>, A: AttrText<A>>(
    ctx: &'c Context<T, A>,
    op: Ptr<Operation>,
) -> Result<(), FitFault<'c>>
    requires live { IsSome (operation ctx.now op) }
    ensures fits { OnOk result (fits.FitsIn A.IrText.written A.AttrText.own A.eq ctx.now op) }
    ensures fault { IfErr result (fits.IsFirstReasonIn A.IrText.written A.AttrText.own A.eq ctx.now op) }
{
    match fitting_directives(ctx, op) {
        Ok(_directives) => Ok(()),
        Err(fault) => Err(fault),
    }
}
