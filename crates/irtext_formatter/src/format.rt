//! The roots of a text, parsed and printed one after the other.
ghost use Rattle.std.specs.Prelude.{◌≡◌, ◌<◌, ◌++◌, ◌∷◌, ℕ, List, [], true, length, Some, IsSome, IfOk, IfErr, OnOk, string_bytes};
ghost use Rattle.irtext_base.specs.Faults.{fault_of};
ghost use Rattle.irtext_context.specs.Context.{operation};
ghost use Rattle.irtext_print_ops.specs.Heads as heads;
ghost use Rattle.pliron_text.specs.Unprinted.{plain};
ghost use Rattle.irtext_parse_state.specs.FromText.{at_beginning};
ghost use Rattle.irtext_formatter.specs.Lines.{lined, with_gap, then_root};
ghost use Rattle.irtext_formatter.specs.Rows.{FailsHere, Formats, FailsWith};
ghost use Rattle.irtext_formatter.specs.Stands.{place_of, held_by, IsKept, IsReady, GoesOn};
ghost use Rattle.irtext_formatter.specs.Unprinted.{is_memory, IsRejected, IsReason, HasText};

use crate::fault::Fault;
use crate::layout::Layout;
use crate::misfit::described_misfit;
use crate::output::ends_line;
use crate::printed::append_root;
use crate::roots::Roots;
use irtext_base::parsable::{ParseFault, TextStream};
use irtext_base::result::Cause;
use irtext_base::text::{AttrText, IrText};
use irtext_context::base::{Context, Operation, Ptr};
use irtext_memory::{OutOfMemory, string};
use irtext_print::printable::Refusal;
use std::alloc::Global;

/// Whether a cause is that memory ran out.
fn is_memory<A>(cause: &Cause<A>) -> bool
    ensures { result ≡ is_memory (fault_of cause.now) }
{
    match cause {
        Cause::Memory => true,
        _ => false,
    }
}

/// Returns the fault for a root that was rejected.
fn rejected<A: Drop>(fault: ParseFault<A>) -> Fault<A>
    ensures { IsRejected fault result }
{
    if is_memory(&fault.cause) {
        return Fault::Memory;
    }
    Fault::Rejected(fault)
}

/// Returns the fault for a root that was not printed.
fn unprinted<T: IrText<A>, A: AttrText<A>>(
    ctx: &Context<T, A>,
    root: Ptr<Operation>,
    refusal: Refusal,
) -> Fault<A>
    requires live { IsSome (operation ctx.now root) }
    requires refused { heads.RefusesUnder T.IrText.own A.IrText.own A.AttrText.own A.eq ctx.now root plain refusal }
    ensures { IsReason T.IrText.own A.IrText.own A.AttrText.own A.eq ctx.now root refusal result }
{
    match refusal {
        Refusal::Memory(_) => Fault::Memory,
        Refusal::Depth => Fault::TooDeep,
        Refusal::Misfit => match described_misfit(ctx, root) {
            Ok(misfit) => Fault::Misfit(misfit),
            Err(_) => Fault::Memory,
        },
    }
}

/// Appends a newline unless the text is empty.
fn separate(text: &mut String) -> Result<(), OutOfMemory>
    ensures { OnOk result (string_bytes text.new ≡ with_gap (string_bytes text.old)) }
{
    if text.is_empty() {
        return Ok(());
    }
    string::push(text, '\n')
}

/// Appends a newline if the text does not end with one.
fn end_line(text: &mut String) -> Result<(), OutOfMemory>
    ensures { OnOk result (string_bytes text.new ≡ lined (string_bytes text.old)) }
{
    if ends_line(text.as_str()) {
        return Ok(());
    }
    string::push(text, '\n')
}

/// Appends the text of a root, after an empty line if there is a text before it, and ended by a newline.
fn append_lines<T: IrText<A>, A: AttrText<A>>(
    ctx: &Context<T, A>,
    root: Ptr<Operation>,
    out: &mut String,
) -> Result<(), Refusal>
    requires live { IsSome (operation ctx.now root) }
    ensures text { OnOk result (HasText T.IrText.own A.IrText.own A.AttrText.own A.eq ctx.now root
        (string_bytes out.old) (string_bytes out.new)) }
    ensures refused { IfErr result (heads.RefusesUnder T.IrText.own A.IrText.own A.AttrText.own A.eq ctx.now
        root plain) }
{
    separate(out)?;
    append_root(ctx, root, out)?;
    end_line(out)?;
    Ok(())
}

/// Parses the root that comes next, and appends its text. Returns whether another root follows; then this one was erased.
fn append_next<T: IrText<A>, A: AttrText<A>>(
    roots: &mut Roots<'_, T, A>,
    layout: Layout,
    out: &mut String,
) -> Result<bool, Fault<A>>
    requires ready { IsReady roots.old }
    ensures lent { roots.new.stream.state.ctx.ghost_name ≡ roots.old.stream.state.ctx.ghost_name }
    ensures goes_on { IfOk result (λ followed. (root : List ℕ) × GoesOn T.IrText.own A.IrText.own A.AttrText.own A.eq
        layout root followed roots.old roots.new × (string_bytes out.new ≡ then_root (string_bytes out.old) root)) }
    ensures fails { IfErr result (FailsHere T.IrText.own A.IrText.own A.AttrText.own A.eq layout
        (place_of roots.old) (held_by roots.old)) }
    ensures shorter { OnOk result (length (place_of roots.new).rest < length (place_of roots.old).rest) }
{
    let root = match roots.parse_root() {
        Ok(root) => root,
        Err(fault) => return Err(rejected(fault)),
    };
    let followed = roots.is_left();
    roots.lay_out(root, layout, followed);
    match append_lines(roots.context(), root, out) {
        Ok(()) => {}
        Err(refusal) => return Err(unprinted(roots.context(), root, refusal)),
    }
    roots.erase_followed(followed);
    Ok(followed)
}

/// What is kept of the texts of roots.
#[derive(Clone, Copy)]
enum Kept {
    /// The texts of all roots, one after the other.
    All,
    /// The text of one root at a time: each takes the place of the one before.
    Last,
}

/// Drops the texts so far, unless all are kept.
fn make_room(kept: Kept, out: &mut String)
    ensures { IsKept kept (string_bytes out.old) (string_bytes out.new) }
{
    match kept {
        Kept::All => {}
        Kept::Last => out.clear(),
    }
}

/// Parses and prints all roots, and keeps their texts, or one of them at a time.
fn print_all<T: IrText<A>, A: AttrText<A>>(
    roots: &mut Roots<'_, T, A>,
    layout: Layout,
    kept: Kept,
    out: &mut String,
) -> Result<(), Fault<A>>
    requires ready { IsReady roots.old }
    ensures lent { roots.new.stream.state.ctx.ghost_name ≡ roots.old.stream.state.ctx.ghost_name }
    ensures formats { (text : List ℕ) → place_of roots.old ≡ at_beginning text → string_bytes out.old ≡ [] →
        OnOk result ((printed : List ℕ) × Formats T.IrText.own A.IrText.own A.AttrText.own A.eq layout text
        (held_by roots.old) printed (held_by roots.new) × IsKept kept printed (string_bytes out.new)) }
    ensures fails { (text : List ℕ) → place_of roots.old ≡ at_beginning text → string_bytes out.old ≡ [] →
        IfErr result (FailsWith T.IrText.own A.IrText.own A.AttrText.own A.eq layout text (held_by roots.old)) }
{
    let mut left = roots.is_left();
    while left {
        make_room(kept, out);
        match append_next(roots, layout, out) {
            Ok(followed) => left = followed,
            Err(fault) => return Err(fault),
        }
    }
    Ok(())
}

/// Returns how much room to make for what is kept of the texts of the roots in so many bytes. More room than is used costs nothing.
fn room_for(kept: Kept, bytes: usize) -> usize {
    match kept {
        Kept::All => bytes.saturating_mul(5) / 2,
        Kept::Last => 0,
    }
}

/// Returns an empty text with room for this many bytes, if there is memory for them. If not, it grows as it is written.
fn with_room(alloc: Global, bytes: usize) -> String
    ensures { string_bytes result ≡ [] }
{
    let mut text = String::new(alloc);
    let _ = text.try_reserve(bytes);
    text
}

/// Parses and prints the roots of a text, and returns what is kept of their texts.
fn print_text<T: IrText<A>, A: AttrText<A>>(
    ctx: &mut Context<T, A>,
    text: &str,
    layout: Layout,
    kept: Kept,
) -> Result<String, Fault<A>>
    ensures formats { IfOk result (λ out. (printed : List ℕ) × Formats T.IrText.own A.IrText.own A.AttrText.own A.eq
        layout text.now ctx.old printed ctx.new × IsKept kept printed (string_bytes out)) }
    ensures fails { IfErr result (FailsWith T.IrText.own A.IrText.own A.AttrText.own A.eq layout text.now ctx.old) }
{
    let alloc = ctx.allocator();
    let stream = match TextStream::new(alloc, text) {
        Ok(stream) => stream,
        Err(_) => return Err(Fault::Memory),
    };
    let mut out = with_room(alloc, room_for(kept, text.len()));
    let mut roots = Roots::new(ctx, stream);
    let answer = print_all(&mut roots, layout, kept, &mut out);
    let _ctx = roots.into_context();
    match answer {
        Ok(()) => Ok(out),
        Err(fault) => Err(fault),
    }
}

/// Parses and prints the roots of a text, and returns their texts in their order: each ends with a newline, and an empty line is between
/// two. A text of white space alone has no root, and its result is the empty text.
///
/// The error is the first one: `Rejected` if a root does not parse (what is after the last root, and is not white space, is tried as a
/// root), `Misfit` or `TooDeep` if a root cannot be printed, or `Memory`. Of several roots, only the last stays in the context; a root is
/// erased before the next is parsed.
pub fn format_text<T: IrText<A>, A: AttrText<A>>(
    ctx: &mut Context<T, A>,
    text: &str,
    layout: Layout,
) -> Result<String, Fault<A>>
    ensures formats { IfOk result (λ out. Formats T.IrText.own A.IrText.own A.AttrText.own A.eq layout text.now
        ctx.old (string_bytes out) ctx.new) }
    ensures fails { IfErr result (FailsWith T.IrText.own A.IrText.own A.AttrText.own A.eq layout text.now ctx.old) }
{
    print_text(ctx, text, layout, Kept::All)
}

/// Checks a text as [`format_text`] does, and returns no text: it succeeds exactly where that does, if there is memory enough, and fails
/// for the same reason. The text of one root is in memory at a time.
pub fn check_text<T: IrText<A>, A: AttrText<A>>(
    ctx: &mut Context<T, A>,
    text: &str,
    layout: Layout,
) -> Result<(), Fault<A>>
    ensures formats { OnOk result ((printed : List ℕ) × Formats T.IrText.own A.IrText.own A.AttrText.own A.eq layout
        text.now ctx.old printed ctx.new) }
    ensures fails { IfErr result (FailsWith T.IrText.own A.IrText.own A.AttrText.own A.eq layout text.now ctx.old) }
{
    match print_text(ctx, text, layout, Kept::Last) {
        Ok(_) => Ok(()),
        Err(fault) => Err(fault),
    }
}
