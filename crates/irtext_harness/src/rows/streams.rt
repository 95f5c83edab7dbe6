//! What is said of the text of a stream that has its state.
ghost use Rattle.std.specs.Prelude.{IsSome, IsTrue};
ghost use Rattle.irtext_context.specs.Context.{operation};

use crate::failed::{is_parsed, refuses_another};
use crate::fault::written;
use crate::roots::{Ctx, Stream, push_location, push_whole};
use crate::rows::places::place_of;
use crate::rows::said::{push_answer, push_fault, push_words, require};
use irtext_demo::{DemoAttr, DemoType};
use irtext_graph::held::HasGraph;
use irtext_tests_common::building::live;
use pliron_text::base::{BasicBlock, Operation, Ptr, Region};
use pliron_text::ir::{OperationParserConfig, OperationText};
use pliron_text::irfmt::parsers;
use pliron_text::location::{Location, Source};
use pliron_text::parsable::{
    Parsable, ParseFault, ParseResult, State, StreamLocation, TextStream,
    state_stream_from_iterator,
};
use std::alloc::Global;
use std::fmt::Write;
use std::test::Fail;

/// What is parsed from a stream.
#[derive(Clone, Copy)]
pub(crate) enum Asked<'t> {
    /// A root with its section.
    Root,
    /// A block, which is an error here.
    Block,
    /// A region of this operation.
    Region(Ptr<Operation>),
    /// So many whole texts.
    Whole(u64),
    /// Two roots, and the location of the second.
    SecondLocation,
    /// Two roots, and the whole text of the second.
    SecondText,
    /// Two operations, without looking for a section.
    SameMark,
    /// An operation without its section, and then these two whole texts, each on a stream of its own.
    After(&'t str, &'t str),
}

/// A text, and what is parsed from its stream.
#[derive(Clone, Copy)]
pub(crate) struct Question<'t> {
    pub(crate) text: &'t str,
    pub(crate) asked: Asked<'t>,
}

impl<'t> Asked<'t> {
    /// This is asked of a text.
    pub(crate) fn of(self, text: &'t str) -> Question<'t> {
        Question { text, asked: self }
    }
}

/// Says a fault. If it is committed, one more call has to return that the stream has failed; else it has to return something else.
fn faulted(
    s: &mut Stream<'_>,
    fault: &ParseFault<DemoAttr>,
    said: &mut String,
) -> Result<(), Fail> {
    let is_as_said = refuses_another(s) == fault.committed;
    require(is_as_said, "one more call says something else")?;
    push_fault(fault, said)
}

/// Says `read`, or the fault.
fn answered<X: Drop>(
    s: &mut Stream<'_>,
    answer: ParseResult<X, DemoAttr>,
    said: &mut String,
) -> Result<(), Fail> {
    let done = match &answer {
        Ok(_) => push_words("read", said),
        Err(fault) => faulted(s, fault, said),
    };
    drop(answer);
    done
}

/// Says the result for a root.
fn root(s: &mut Stream<'_>, said: &mut String) -> Result<(), Fail> {
    let answer = Operation::top_level_parse(s);
    answered(s, answer, said)
}

/// Says the result for a block.
fn block(s: &mut Stream<'_>, said: &mut String) -> Result<(), Fail> {
    let answer = <BasicBlock as Parsable<DemoType, DemoAttr, ()>>::parse(s, ());
    answered(s, answer, said)
}

/// Says the place of a region in an operation.
fn push_place(
    s: &mut Stream<'_>,
    op: Ptr<Operation>,
    region: Ptr<Region>,
    said: &mut String,
) -> Result<(), Fail> {
    let ctx = &mut *s.state.ctx;
    push_words(place_of(ctx.graph(), op, region), said)
}

/// Says the place of a region that was parsed into an operation, or the fault.
fn placed(
    s: &mut Stream<'_>,
    op: Ptr<Operation>,
    answer: ParseResult<Ptr<Region>, DemoAttr>,
    said: &mut String,
) -> Result<(), Fail> {
    let done = match &answer {
        Ok(region) => push_place(s, op, *region, said),
        Err(fault) => faulted(s, fault, said),
    };
    drop(answer);
    done
}

/// Whether an operation is in the context of a state.
fn is_live(state: &State<'_, DemoType, DemoAttr, ()>, op: Ptr<Operation>) -> bool
    ensures { IsTrue result → IsSome (operation state.now.ctx.now op) }
{
    state.ctx.contains_operation(op)
}

/// Says the result for a region of an operation.
fn region(s: &mut Stream<'_>, op: Ptr<Operation>, said: &mut String) -> Result<(), Fail> {
    if !is_live(&s.state, op) {
        return Err(Fail::from("no such operation"));
    }
    let answer = <Region as Parsable<DemoType, DemoAttr, ()>>::parse(s, op);
    placed(s, op, answer, said)
}

/// Says the result for the last of so many whole texts.
fn whole(s: &mut Stream<'_>, times: u64, said: &mut String) -> Result<(), Fail> {
    for _time in 1..times {
        let _ = is_parsed(Operation::whole_text_parse(s));
    }
    let answer = Operation::whole_text_parse(s);
    push_answer(answer, "root", said)
}

/// Says the location of the second of two roots, or its whole text.
fn second(s: &mut Stream<'_>, asked: Asked<'_>, said: &mut String) -> Result<(), Fail> {
    let first = Operation::top_level_parse(s).ok().ok_or("refused")?;
    let second = Operation::top_level_parse(s).ok().ok_or("refused")?;
    let ctx = &mut *s.state.ctx;
    live(ctx, first)?;
    match asked {
        Asked::SecondText => push_whole(ctx, second, said),
        _ => push_location(ctx, second, said),
    }
}

/// Parses an operation without looking for its section.
fn alone(s: &mut Stream<'_>) -> ParseResult<Ptr<Operation>, DemoAttr> {
    let alone = OperationParserConfig {
        look_for_outlined_attrs: false,
    };
    <Operation as Parsable<DemoType, DemoAttr, ()>>::parse(s, alone)
}

/// Whether a location is a place of a text.
fn is_place(location: Location<DemoAttr>) -> bool {
    let is_place = matches!(&location, Location::SrcPos { .. });
    drop(location);
    is_place
}

/// Says a fault after the mark that is recorded, if the stream's next location is a place of its text.
fn push_marked(
    s: &Stream<'_>,
    fault: &ParseFault<DemoAttr>,
    marks: bool,
    said: &mut String,
) -> Result<(), Fail> {
    let marks = marks && is_place(s.loc()) && is_place(parsers::location(s));
    written(write!(said, "{marks} {}: {}", fault.pos, fault.cause))
}

/// Says a result that is an error.
fn refused(
    s: &Stream<'_>,
    answer: ParseResult<Ptr<Operation>, DemoAttr>,
    marks: bool,
    said: &mut String,
) -> Result<(), Fail> {
    let done = match &answer {
        Ok(_) => Err(Fail::from("accepted")),
        Err(fault) => push_marked(s, fault, marks, said),
    };
    drop(answer);
    done
}

/// Parses two roots with the same mark. Says whether the first one's mark is in the state, and the result for the second one.
fn same_mark(s: &mut Stream<'_>, said: &mut String) -> Result<(), Fail> {
    let marks = is_parsed(alone(s)) && s.state.has_marks();
    let answer = alone(s);
    refused(s, answer, marks, said)
}

/// Says whether a mark is recorded after a whole text, the number of live objects, and the location of an earlier operation.
fn located(s: &mut Stream<'_>, earlier: Ptr<Operation>, said: &mut String) -> Result<(), Fail> {
    let marks = s.state.has_marks();
    let ctx = &mut *s.state.ctx;
    write!(said, ", {marks}, {}, ", ctx.num_live())?;
    push_location(ctx, earlier, said)
}

/// Says the result for a whole text on a stream of its own, and the same after it.
fn after(
    alloc: Global,
    s: &mut Stream<'_>,
    earlier: Ptr<Operation>,
    text: &str,
    said: &mut String,
) -> Result<(), Fail> {
    s.stream = TextStream::new(alloc, text)?;
    whole(s, 1, said)?;
    located(s, earlier, said)
}

/// Says the same for two texts, after an operation without its section.
fn both_after(
    alloc: Global,
    s: &mut Stream<'_>,
    text: &str,
    next: &str,
    said: &mut String,
) -> Result<(), Fail> {
    let earlier = alone(s).ok().ok_or("refused")?;
    after(alloc, s, earlier, text, said)?;
    push_words("; ", said)?;
    after(alloc, s, earlier, next, said)
}

/// Says the result for what is asked.
fn say(alloc: Global, s: &mut Stream<'_>, asked: Asked<'_>, said: &mut String) -> Result<(), Fail> {
    match asked {
        Asked::Root => root(s, said),
        Asked::Block => block(s, said),
        Asked::Region(op) => region(s, op, said),
        Asked::Whole(times) => whole(s, times, said),
        Asked::SecondLocation | Asked::SecondText => second(s, asked, said),
        Asked::SameMark => same_mark(s, said),
        Asked::After(text, next) => both_after(alloc, s, text, next, said),
    }
}

/// Says the same. Returns whether a mark is recorded then.
fn marked(
    alloc: Global,
    s: &mut Stream<'_>,
    asked: Asked<'_>,
    said: &mut String,
) -> Result<bool, Fail> {
    say(alloc, s, asked, said)?;
    Ok(s.state.has_marks())
}

/// Says the result for what is asked of a text. Returns whether a mark is recorded then.
pub(crate) fn on_stream(
    alloc: Global,
    ctx: &mut Ctx,
    question: Question<'_>,
    said: &mut String,
) -> Result<bool, Fail> {
    let state = State::new(ctx, Source::InMemory, ());
    let mut s = state_stream_from_iterator(question.text.chars(), state)?;
    let marks = marked(alloc, &mut s, question.asked, said);
    drop(s);
    marks
}
