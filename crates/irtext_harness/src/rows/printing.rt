//! The texts of a root that was parsed: whole, concrete, with another layout, without locations, for debugging, and of its parts.
use crate::fault::written;
use crate::roots::{Ctx, Refusal, has_text, push_concrete, push_whole, root_unless_said};
use crate::rows::places::operation_at;
use crate::rows::row::{Given, Group};
use crate::rows::said::{push_words, require};
use irtext_context::base::Item;
use irtext_demo::DemoType;
use irtext_graph::held::HasGraph;
use irtext_tests_common::building::{erase, live};
use pliron_text::base::{Operation, OperationAccess, Ptr};
use pliron_text::ir::{OpDbg, keeps_parts, print_dbg};
use pliron_text::irfmt::printers::op::{region, symb_op_header, typed_symb_op_header};
use pliron_text::location::{Location, Source, erase_locations};
use pliron_text::parsable::SourcePosition;
use pliron_text::printable::{Disp, Printable, RegionPrintDepthLimit, State};
use std::alloc::Global;
use std::fmt::Write;
use std::test::Fail;

/// The state with which a text is printed, as the group selects it: with the layout of its numbers, which are so many spaces for each level,
/// so many before each line, and so many levels of regions that are printed; without regions; or a new one.
fn state_of(alloc: Global, group: &Group) -> State<()> {
    match group.word.as_str() {
        "layout" => laid_out(alloc, group),
        "elided" => {
            let mut state = State::new(alloc, ());
            state.set_region_print_depth_limit(RegionPrintDepthLimit::Max(0));
            state
        }
        _ => State::new(alloc, ()),
    }
}

/// The state with the layout of a group's numbers.
fn laid_out(alloc: Global, group: &Group) -> State<()> {
    let levels = u32::try_from(group.number(2)).unwrap_or(u32::MAX);
    let limit = RegionPrintDepthLimit::Max(levels);
    let spaces = u16::try_from(group.number(0)).unwrap_or(u16::MAX);
    let before = u16::try_from(group.number(1)).unwrap_or(u16::MAX);
    State::with_layout(alloc, spaces, before, limit, ())
}

/// Says the text with a state that is only read.
fn print_by(
    ctx: &Ctx,
    op: Ptr<Operation>,
    state: &State<()>,
    said: &mut String,
) -> Result<(), Fail> {
    live(ctx, op)?;
    written(write!(said, "{}", op.print(ctx, state)))
}

/// Says the text that an operation appends with this state.
fn append(
    ctx: &Ctx,
    op: Ptr<Operation>,
    state: &mut State<()>,
    said: &mut String,
) -> Result<(), Fail> {
    live(ctx, op)?;
    Ok(op.fmt(ctx, state, said).ok().ok_or("refused")?)
}

/// Says the text of the operation at a path, and that of the root after it with the same state once the operation is erased. An item (an
/// operation or a block with a mark) that was printed and then erased keeps its index and has no entry.
fn afterwards(
    ctx: &mut Ctx,
    op: Ptr<Operation>,
    path: &str,
    state: &mut State<()>,
    said: &mut String,
) -> Result<(), Fail> {
    let erased = operation_at(ctx.graph(), op, path)?;
    append(ctx, erased, state, said)?;
    erase(ctx, Item::Operation(erased))?;
    push_words("\n", said)?;
    append(ctx, op, state, said)
}

/// Says the text if the location is in a file.
fn in_file(ctx: &mut Ctx, op: Ptr<Operation>, path: &str, said: &mut String) -> Result<(), Fail> {
    let src = Source::new_from_file(ctx, path).ok().ok_or("refused")?;
    let pos = SourcePosition { line: 1, column: 2 };
    live(ctx, op)?;
    op.set_loc(ctx, Location::SrcPos { src, pos });
    push_whole(ctx, op, said)
}

/// Says the text, which has to be the same after the call that changes nothing.
fn kept(alloc: Global, ctx: &mut Ctx, op: Ptr<Operation>, said: &mut String) -> Result<(), Fail> {
    push_whole(ctx, op, said)?;
    keeps_parts(ctx);
    let is_same = has_text(alloc, ctx, op, said.as_str())?;
    require(is_same, "it is printed otherwise")
}

/// Says the texts for debugging.
fn debugged(ctx: &Ctx, op: Ptr<Operation>, said: &mut String) -> Result<(), Fail> {
    live(ctx, op)?;
    let text = OpDbg { op, ctx };
    written(write!(said, "{text} {text:?}"))
}

/// Says the text that is appended for debugging.
fn appended_debugged(ctx: &Ctx, op: Ptr<Operation>, said: &mut String) -> Result<(), Fail> {
    live(ctx, op)?;
    push_words("text: ", said)?;
    Ok(print_dbg(ctx, op, said).ok().ok_or("refused")?)
}

/// Says the header.
fn header(ctx: &Ctx, op: Ptr<Operation>, said: &mut String) -> Result<(), Fail> {
    live(ctx, op)?;
    written(write!(said, "{}", symb_op_header(op).disp(ctx)))
}

/// Says the header with a type, which is printed with this state.
fn typed_header(
    ctx: &Ctx,
    op: Ptr<Operation>,
    ty: &DemoType,
    state: &mut State<()>,
    said: &mut String,
) -> Result<(), Fail> {
    live(ctx, op)?;
    let header = typed_symb_op_header(op, ty);
    Ok(header.fmt(ctx, state, said).ok().ok_or("refused")?)
}

/// Says the region.
fn braces(ctx: &Ctx, op: Ptr<Operation>, said: &mut String) -> Result<(), Fail> {
    live(ctx, op)?;
    written(write!(said, "{}", region(op).disp(ctx)))
}

/// Says the text of a root that is only read, as the word of the group selects it.
fn text(ctx: &Ctx, op: Ptr<Operation>, group: &Group, said: &mut String) -> Result<(), Fail> {
    match group.word.as_str() {
        "printed" | "unlocated" => push_whole(ctx, op, said),
        "concrete" | "unlocated_concrete" => push_concrete(ctx, op, said),
        "debugged" => debugged(ctx, op, said),
        "header" => header(ctx, op, said),
        "braces" => braces(ctx, op, said),
        "appended_debugged" => appended_debugged(ctx, op, said),
        "objects" => written(write!(said, "{}", ctx.num_live())),
        _ => Err(Fail::from("there is no such group")),
    }
}

/// Says such a text without the locations of the root and of everything nested in it.
fn unlocated(
    ctx: &mut Ctx,
    op: Ptr<Operation>,
    group: &Group,
    said: &mut String,
) -> Result<(), Fail> {
    live(ctx, op)?;
    erase_locations(ctx, op);
    text(ctx, op, group, said)
}

/// Says the text of a root that is printed with a state, as the word of the group selects it.
fn stated(
    ctx: &mut Ctx,
    op: Ptr<Operation>,
    given: Given<'_>,
    state: &mut State<()>,
    said: &mut String,
) -> Result<(), Fail> {
    match given.group.word.as_str() {
        "typed_header" => typed_header(ctx, op, &DemoType::Pointer, state, said),
        "afterwards" => afterwards(ctx, op, given.row.text(1), state, said),
        _ => print_by(ctx, op, state, said),
    }
}

/// Does the same with the state that the group selects.
fn with_state(
    alloc: Global,
    ctx: &mut Ctx,
    op: Ptr<Operation>,
    given: Given<'_>,
    said: &mut String,
) -> Result<(), Fail> {
    let mut state = state_of(alloc, given.group);
    let done = stated(ctx, op, given, &mut state, said);
    drop(state);
    done
}

impl Given<'_> {
    /// Says the text of the root that a text is parsed as, as the word of the group selects it, or the error.
    pub(crate) fn say(self, alloc: Global, ctx: &mut Ctx, said: &mut String) -> Result<(), Fail> {
        let group = self.group;
        let Some(op) = root_unless_said(ctx, self.row.text(0), Refusal::Located, said)? else {
            return Ok(());
        };
        match group.word.as_str() {
            "unlocated" | "unlocated_concrete" => unlocated(ctx, op, group, said),
            "in_file" => in_file(ctx, op, self.row.text(1), said),
            "kept" => kept(alloc, ctx, op, said),
            "layout" | "elided" | "typed_header" | "afterwards" => {
                with_state(alloc, ctx, op, self, said)
            }
            _ => text(ctx, op, group, said),
        }
    }
}
