//! The steps on a context, one after the other: operations and blocks are given by their number, in the order in which they were made.
use crate::tests::must::must;
use irtext_base::base::GIVEN_NAMES_KEY;
use irtext_context::base::Item;
use irtext_few::Few;
use irtext_tests_common::building::{
    attribute, block, erase, give, id, note, one_name, operation, place,
};
use irtext_tests_common::contexts::Ctx;
use std::alloc::Global;
use std::process::Abort;

/// One step.
#[derive(Clone, Copy)]
pub(crate) enum Step {
    /// Makes a `test.nop` at this column of the first line of a text in memory, or nowhere if the column is 0.
    Nop(i32),
    /// Makes a block with this label, or none if it is empty, at such a place.
    Block(&'static str, i32),
    /// Gives an item a given name, `x` or `c0`.
    Name(usize, &'static str),
    /// Gives an item a debug note of this text under a key.
    Note(usize, &'static str, &'static str),
    /// Gives an item an identifier under a key.
    Ident(usize, &'static str),
    /// Erases an item.
    Erase(usize),
}

/// The item of a number.
fn item_of(rt: &impl Abort, items: &[Item], number: usize) -> Item {
    *items.get(number).expect(rt, "no such item")
}

/// Makes a `test.nop`.
fn nop(rt: &impl Abort, alloc: Global, ctx: &mut Ctx) -> Item {
    let id = must(rt, id(alloc, ("test", "nop")));
    Item::Operation(must(rt, operation(ctx, id, Few::none(), &[], &[], 0)))
}

/// Makes one step, and appends the item that it makes, at its place, if it has one.
fn do_step(rt: &impl Abort, alloc: Global, ctx: &mut Ctx, items: &mut Vec<Item>, step: Step) {
    let (item, column) = match step {
        Step::Nop(column) => (nop(rt, alloc, ctx), column),
        Step::Block(label, column) => {
            let block = must(rt, block(alloc, ctx, label, Few::none()));
            (Item::Block(block), column)
        }
        Step::Erase(number) => return must(rt, erase(ctx, item_of(rt, items, number))),
        _ => return do_attribute(rt, alloc, ctx, items, step),
    };
    items.push(item).expect(rt, "out of memory");
    if column != 0 {
        must(rt, place(ctx, item, column));
    }
}

/// Makes one step if it gives an item an attribute.
fn do_attribute(rt: &impl Abort, alloc: Global, ctx: &mut Ctx, items: &[Item], step: Step) {
    let (number, key, attr) = match step {
        Step::Name(number, name) => (number, GIVEN_NAMES_KEY, one_name(alloc, name)),
        Step::Note(number, key, text) => (number, key, note(alloc, text)),
        Step::Ident(number, key) => (number, key, attribute(alloc, 'x')),
        _ => return,
    };
    let attr = must(rt, attr);
    must(rt, give(alloc, ctx, item_of(rt, items, number), key, attr));
}

/// Makes steps, one after the other, and returns the items that were made.
pub(crate) fn built(rt: &impl Abort, alloc: Global, ctx: &mut Ctx, steps: &[Step]) -> Vec<Item> {
    let mut items = Vec::new(alloc);
    for one in steps {
        do_step(rt, alloc, ctx, &mut items, *one);
    }
    items
}
