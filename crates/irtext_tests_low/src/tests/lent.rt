//! Attributes that are borrowed mutably from a context: an inserted key is there, a reserved one is rejected, other objects are unchanged.
use crate::tests::checks::{Check, alone};
use crate::tests::locations::make;
use crate::tests::must::{is_allowed, must};
use crate::tests::unique::make_block;
use irtext_base::base::{AttrObj, GIVEN_NAMES_KEY, SYM_NAME_KEY};
use irtext_context::base::context::making::Making;
use irtext_context::base::{AttributeDict, BlockAccess, Item, OperationAccess};
use irtext_demo::DemoAttr;
use irtext_tests_common::building::erase;
use irtext_tests_common::contexts::{Ctx, named};
use std::alloc::Global;
use std::process::Abort;

/// Puts an identifier under a key of a dictionary, and returns whether that was allowed.
fn put(
    rt: &impl Abort,
    alloc: Global,
    attributes: &mut AttributeDict<DemoAttr>,
    key: &str,
) -> bool {
    let attr = AttrObj::Ident(must(rt, named(alloc, "main")));
    is_allowed(attributes.insert(must(rt, named(alloc, key)), attr))
}

/// Puts an identifier under a key of an item, and returns whether that was allowed.
fn put_into(rt: &impl Abort, alloc: Global, ctx: &mut Ctx, item: Item, key: &str) -> bool {
    match item {
        Item::Operation(op) => {
            assert!(rt; ctx.contains_operation(op));
            put(rt, alloc, ctx.operation_attributes_mut(op), key)
        }
        Item::Block(block) => {
            assert!(rt; ctx.contains_block(block));
            put(rt, alloc, ctx.block_attributes_mut(block), key)
        }
    }
}

/// How many attributes an item has, and whether its symbol's name is an identifier.
fn shown(rt: &impl Abort, ctx: &Ctx, item: Item) -> (usize, bool) {
    match item {
        Item::Operation(op) => {
            assert!(rt; ctx.contains_operation(op));
            counted(op.attributes(ctx))
        }
        Item::Block(block) => {
            assert!(rt; ctx.contains_block(block));
            counted(block.attributes(ctx))
        }
    }
}

/// How many attributes a dictionary has, and whether the symbol's name is an identifier.
fn counted(attributes: &AttributeDict<DemoAttr>) -> (usize, bool) {
    let is_named = matches!(attributes.get_str(SYM_NAME_KEY), Some(AttrObj::Ident(_)));
    (attributes.len(), is_named)
}

/// Checks that of two items the first is named through its dictionary, and the reserved key is rejected.
fn name_one(rt: &impl Abort, alloc: Global, ctx: &mut Ctx, item: Item, other: Item) {
    assert!(rt; put_into(rt, alloc, ctx, item, SYM_NAME_KEY));
    assert!(rt; !put_into(rt, alloc, ctx, item, GIVEN_NAMES_KEY));
    assert!(rt; (shown(rt, ctx, item) == (1, true)) & (shown(rt, ctx, other) == (0, false)));
}

/// Checks that for two operations, and for two blocks.
pub(crate) fn name_each(rt: &impl Abort, alloc: Global, ctx: &mut Ctx) {
    let (op, other) = (make(rt, alloc, ctx), make(rt, alloc, ctx));
    name_one(rt, alloc, ctx, Item::Operation(op), Item::Operation(other));
    let block = make_block(rt, alloc, ctx, "", "");
    let other = make_block(rt, alloc, ctx, "", "");
    name_one(rt, alloc, ctx, Item::Block(block), Item::Block(other));
}

/// Checks that an operation, its region and a block are in the context, and only the block once the operation was erased.
pub(crate) fn contains_what_is_left(rt: &impl Abort, alloc: Global, ctx: &mut Ctx) {
    let (op, other) = (make(rt, alloc, ctx), make_block(rt, alloc, ctx, "", ""));
    assert!(rt; ctx.contains_operation(op));
    let region = ctx.add_region(op).expect(rt, "out of memory");
    assert!(rt; ctx.contains(other) & ctx.contains(region) & ctx.contains(op));
    must(rt, erase(ctx, Item::Operation(op)));
    assert!(rt; !ctx.contains(op) & !ctx.contains(region) & ctx.contains(other));
}

#[test]
fn attributes_of_operations_and_blocks(rt: HostRuntime) {
    alone(&rt, rt.alloc(), Check::Named);
    alone(&rt, rt.alloc(), Check::Contained);
}
