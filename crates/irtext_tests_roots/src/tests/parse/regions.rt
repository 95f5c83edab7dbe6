//! Regions that are parsed into one operation, one after the other on a stream with its state; and the root after them, whose section has
//! an entry for each of their marks.
ghost use Rattle.std.specs.Prelude.{IsTrue, IsSome};
ghost use Rattle.irtext_context.specs.Context.{operation};

use crate::tests::checks::{Check, alone};
use crate::tests::reading::{root, whole};
use crate::tests::value::{is_done, same, value_of};
use irtext_context::base::Item;
use irtext_demo::{DemoAttr, DemoType};
use irtext_parse_root::outermost::outermost_parse;
use irtext_tests_common::building::register;
use irtext_tests_common::contexts::{Ctx, Stream};
use pliron_text::base::{Operation, Ptr, Region};
use pliron_text::location::Source;
use pliron_text::parsable::{Parsable, ParseResult, State, StateStream, TextStream};
use std::alloc::Global;
use std::process::Abort;

/// The id of an operation whose format is its regions.
const PARTS: (&str, &str) = ("test", "parts");

/// The operation that gets the regions.
const BEFORE: &str = "test.parts";

/// Two regions with marks, and a root whose section has their entries.
const TEXT: &str =
    "{ ^a() !3: test.br ^b !4 ^b() !5: }{ ^c() !6: }builtin.module @n {} outlined_attributes: !3 = @[?], [builtin_block_label = builtin.identifier one] !4 = @[<in-memory>: line: 7, column: 8], [] !5 = @[?], [builtin_block_label = builtin.identifier two] !6 = @[?], [builtin_block_label = builtin.identifier three]";

/// What carries the mark with each index after the two regions.
const CARRIERS: &[&str] = &[
    "nothing",
    "nothing",
    "nothing",
    "block",
    "operation",
    "block",
    "block",
    "nothing",
];

/// The text of the operation then.
const PRINTED: &str =
    "test.parts \n{\n  ^one_block1v1() !0:\n    test.br ^two_block3v1 !1\n\n  ^two_block3v1() !2:\n    \n}\n{\n  ^three_block2v2() !3:\n    \n} !4\n\noutlined_attributes:\n!0 = [builtin_block_label = builtin.identifier one]\n!1 = @[<in-memory>: line: 7, column: 8], []\n!2 = [builtin_block_label = builtin.identifier two]\n!3 = [builtin_block_label = builtin.identifier three]\n!4 = @[<in-memory>: line: 1, column: 1], []\n";

/// What an item is.
fn kind(item: Option<Item>) -> &'static str {
    match item {
        Some(Item::Block(_)) => "block",
        Some(Item::Operation(_)) => "operation",
        None => "nothing",
    }
}

/// Whether each mark is carried as it is listed.
fn are_carried(state: &State<'_, DemoType, DemoAttr, ()>) -> bool {
    for index in 0..CARRIERS.len() {
        if kind(state.marked(index)) != CARRIERS[index] {
            return false;
        }
    }
    true
}

/// Whether an operation is in the context of a state.
fn is_live(state: &State<'_, DemoType, DemoAttr, ()>, op: Ptr<Operation>) -> bool
    ensures { IsTrue result → IsSome (operation state.now.ctx.now op) }
{
    state.ctx.contains_operation(op)
}

/// Parses a region into an operation.
fn region(s: &mut Stream<'_>, op: Ptr<Operation>) -> bool {
    is_live(&s.state, op) && is_done(<Region as Parsable<DemoType, DemoAttr, ()>>::parse(s, op))
}

/// Whether two regions are parsed into an operation, with their marks, and then a root with the section of all marks.
fn are_read(s: &mut Stream<'_>, op: Ptr<Operation>) -> bool {
    region(s, op)
        && region(s, op)
        && are_carried(&s.state)
        && is_done(outermost_parse(s, true))
        && !s.state.has_marks()
}

/// The same on a stream of its own.
fn on_stream(rt: &impl Abort, alloc: Global, ctx: &mut Ctx, op: Ptr<Operation>) -> bool {
    let stream = TextStream::new(alloc, TEXT).expect(rt, "out of memory");
    let state = State::new(ctx, Source::InMemory, ());
    let mut s = StateStream { stream, state };
    let are_read = are_read(&mut s, op);
    drop(s);
    are_read
}

/// Checks that the section after two regions is for all of their marks.
pub(crate) fn check(rt: &impl Abort, alloc: Global, ctx: &mut Ctx) {
    value_of(rt, register(alloc, ctx, PARTS, "R", true), "refused");
    let op = root(ctx, BEFORE).expect(rt, "refused");
    assert!(rt; on_stream(rt, alloc, ctx, op));
    same(rt, value_of(rt, whole(alloc, ctx, op), "no text"), PRINTED);
}

#[test]
fn a_section_is_for_the_marks_of_two_regions(rt: HostRuntime) {
    alone(&rt, rt.alloc(), Check::Regions);
}
