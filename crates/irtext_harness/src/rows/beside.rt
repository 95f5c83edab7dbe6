//! Texts that are parsed in a context with a live root, which has to be unchanged.
use crate::fault::written;
use crate::roots::{Ctx, has_text, register_z, root, whole};
use crate::rows::places::num_parts;
use crate::rows::row::Row;
use crate::rows::said::require;
use crate::rows::streams::{Asked, Question, on_stream};
use irtext_graph::held::HasGraph;
use irtext_graph::object::Object;
use pliron_text::base::{Operation, Ptr};
use std::alloc::Global;
use std::fmt::Write;
use std::test::Fail;

/// A module with a function that returns a constant, which is parsed before any other text.
const LIVE_ROOT: &str =
    "builtin.module @bar \n{\n  ^block1v1():\n    builtin.func @foo: builtin.function <()->(builtin.integer si64)> \n    {\n      ^entry_block2v1() !0:\n        c0_v0 = test.constant builtin.integer <0: si64>: builtin.integer si64 !1;\n        test.return c0_v0\n    }\n}\n\noutlined_attributes:\n!0 = [builtin_block_label = builtin.identifier entry]\n!1 = [builtin_given_names = builtin.given_names [c0]]\n";

/// Says the result for a text beside a root, whose text is `before` and must not change. If the text is rejected, no object and no mark may
/// be added.
fn compared(
    alloc: Global,
    ctx: &mut Ctx,
    live_root: Ptr<Operation>,
    before: &str,
    question: Question<'_>,
    said: &mut String,
) -> Result<(), Fail> {
    let live = ctx.num_live();
    let marks = on_stream(alloc, ctx, question, said)?;
    let is_same = has_text(alloc, ctx, live_root, before)?;
    require(is_same, "what stood has changed")?;
    let is_left = marks || ctx.num_live() != live;
    require(said.as_str() == "read" || !is_left, "something was left")
}

impl Question<'_> {
    /// Says the result for a text that is parsed beside a live root: `read`, or its fault.
    pub(crate) fn say_beside(
        self,
        alloc: Global,
        ctx: &mut Ctx,
        said: &mut String,
    ) -> Result<(), Fail> {
        let live_root = root(ctx, LIVE_ROOT)?;
        let before = whole(alloc, ctx, live_root)?;
        let done = compared(alloc, ctx, live_root, before.as_str(), self, said);
        drop(before);
        done
    }
}

/// Says the same for a root, once `test.z` is registered with the format of the letters that come first.
pub(crate) fn beside_formatted(
    alloc: Global,
    ctx: &mut Ctx,
    row: &Row,
    said: &mut String,
) -> Result<(), Fail> {
    register_z(alloc, ctx, row.text(0))?;
    Asked::Root.of(row.text(1)).say_beside(alloc, ctx, said)
}

/// Says the result for a region that is parsed into an operation, whose text is `before`: its place or the fault, whether a mark is
/// recorded, and how many regions the operation has. If it is rejected, no object of it may be left, and the operation's text has to be
/// that before it.
fn compared_region(
    alloc: Global,
    ctx: &mut Ctx,
    op: Ptr<Operation>,
    before: &str,
    text: &str,
    said: &mut String,
) -> Result<(), Fail> {
    let live = ctx.num_live();
    let marks = on_stream(alloc, ctx, Asked::Region(op).of(text), said)?;
    let is_last = said.as_str() == "last";
    let is_kept = is_last || (ctx.num_live() == live && has_text(alloc, ctx, op, before)?);
    require(is_kept, "something was left")?;
    let count = num_parts(ctx.graph(), Object::TheOperation(op))?;
    written(write!(said, ", {marks}, {count}"))
}

/// Says the result for the text of a region that is parsed into the operation of the text before it.
pub(crate) fn region(
    alloc: Global,
    ctx: &mut Ctx,
    row: &Row,
    said: &mut String,
) -> Result<(), Fail> {
    let op = root(ctx, row.text(0))?;
    let before = whole(alloc, ctx, op)?;
    let done = compared_region(alloc, ctx, op, before.as_str(), row.text(1), said);
    drop(before);
    done
}
