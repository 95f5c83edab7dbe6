//! What the word of a group selects.
use crate::roots::{Ctx, register_dialects};
use crate::rows::beside::{beside_formatted, region};
use crate::rows::broken::Break;
use crate::rows::row::{Given, Row};
use crate::rows::said::{if_said, require};
use crate::rows::streams::Asked;
use crate::rows::uses::{of_operand, of_successor};
use crate::rows::{broken, counters, formats, names};
use irtext_tests_common::contexts::with_counters;
use irtext_tests_survey::{push_end, push_noted};
use std::alloc::Global;
use std::test::Fail;

/// What is done in a context of its own, which has the demo dialects if nothing else is said.
#[derive(Clone, Copy)]
pub(crate) enum Trial<'r> {
    /// What the word of a group selects, with the texts of a row.
    Row(Given<'r>),
    /// The texts of a row are parsed one after the other, in a context whose next value and next place have the numbers of the group.
    Counted(Given<'r>),
    /// A text is parsed as a root in a context without dialects, and printed in a format.
    Directives(&'r Row),
    /// A text is parsed as a root beside a live root.
    Beside(&'r str),
    /// A text is parsed as a root and printed.
    Printed(&'r str),
    /// The same for the second text, in which `test.z` has the format of the letters that are the first.
    Formatted(&'r str, &'r str),
}

impl Trial<'_> {
    /// The numbers of the next value and of the next place of the context.
    fn counters(self) -> (u64, u32) {
        match self {
            Trial::Counted(given) => {
                let places = u32::try_from(given.group.number(1)).unwrap_or(0);
                (given.group.number(0), places)
            }
            _ => (0, 1),
        }
    }

    /// Says this in a context that has the demo dialects, if it needs them.
    fn say(self, alloc: Global, ctx: &mut Ctx, said: &mut String) -> Result<(), Fail> {
        match self {
            Trial::Row(given) => in_demo(alloc, ctx, given, said),
            Trial::Counted(given) => counters::last(alloc, ctx, given.row.texts.as_slice(), said),
            Trial::Directives(row) => formats::as_a_root(alloc, ctx, row, said),
            Trial::Beside(text) => Asked::Root.of(text).say_beside(alloc, ctx, said),
            Trial::Printed(text) => formats::printed(ctx, text, said),
            Trial::Formatted(letters, text) => formats::registered(alloc, ctx, letters, text, said),
        }
    }

    /// Says this in an empty context, to which the demo dialects are added if it needs them.
    fn say_alone(self, alloc: Global, ctx: &mut Ctx, said: &mut String) -> Result<(), Fail> {
        let needs_none = matches!(self, Trial::Directives(_));
        require(
            needs_none || register_dialects(ctx).is_ok(),
            "not registered",
        )?;
        self.say(alloc, ctx, said)
    }

    /// What is said in an empty context.
    fn said_in(self, alloc: Global, ctx: &mut Ctx) -> Result<String, Fail> {
        let mut said = String::new(alloc);
        let done = self.say_alone(alloc, ctx, &mut said);
        if_said(done, said)
    }

    /// What is said in a context of its own.
    pub(crate) fn said(self, alloc: Global) -> Result<String, Fail> {
        let (values, places) = self.counters();
        with_counters(alloc, values, places, |alloc, ctx| self.said_in(alloc, ctx))
    }
}

/// Says what is wanted of a row's texts in a context that has the demo dialects.
fn in_demo(alloc: Global, ctx: &mut Ctx, given: Given<'_>, said: &mut String) -> Result<(), Fail> {
    let row = given.row;
    let text = row.text(0);
    match given.group.word.as_str() {
        "beside" => Asked::Root.of(text).say_beside(alloc, ctx, said),
        "beside_format" => beside_formatted(alloc, ctx, row, said),
        "block" => Asked::Block.of(text).say_beside(alloc, ctx, said),
        "region" => region(alloc, ctx, row, said),
        "second" => Asked::SecondLocation.of(text).say(alloc, ctx, said),
        "second_text" => Asked::SecondText.of(text).say(alloc, ctx, said),
        "same_mark" => Asked::SameMark.of(text).say(alloc, ctx, said),
        "whole" => Asked::Whole(given.group.number(0))
            .of(text)
            .say(alloc, ctx, said),
        "after" => {
            let asked = Asked::After(row.text(1), row.text(2));
            asked.of(text).say(alloc, ctx, said)
        }
        "noted" => push_noted(alloc, ctx, text, given.group.number(0), said),
        "end_of_root" => push_end(alloc, ctx, text, said),
        "operand" => of_operand(ctx, row, said),
        "successor" => of_successor(ctx, row, said),
        _ => given.say(alloc, ctx, said),
    }
}

/// What is said of a row's texts.
pub(crate) fn said(alloc: Global, given: Given<'_>) -> Result<String, Fail> {
    let row = given.row;
    match given.group.word.as_str() {
        "ended" => broken::said(alloc, row, Break::End),
        "replaced" => broken::said(alloc, row, Break::Character),
        "format" => formats::in_a_root(alloc, row),
        "directives" => Trial::Directives(row).said(alloc),
        "counters" => Trial::Counted(given).said(alloc),
        "value" => names::value(alloc, row.text(0)),
        "label" => names::label(alloc, row.text(0)),
        _ => Trial::Row(given).said(alloc),
    }
}
