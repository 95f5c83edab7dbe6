//! Blocks of a context: how they are made, labelled and changed.
use crate::tests::checks::{Check, alone, counting};
use crate::tests::locations::{at, make};
use crate::tests::made::has_type;
use crate::tests::must::{is_allowed, must, same, told};
use irtext_base::base::{AttrObj, GIVEN_NAMES_KEY, SYM_NAME_KEY};
use irtext_base::location::Source;
use irtext_base::result::Result as Answer;
use irtext_checked::make::NewBlock;
use irtext_context::base::context::making::Making;
use irtext_context::base::{BasicBlock, BlockAccess, Item, Operation, OperationAccess, Ptr};
use irtext_context::location::erase_locations;
use irtext_demo::{DemoAttr, DemoType};
use irtext_few::Few;
use irtext_graph::held::HasGraph;
use irtext_graph::object::Value;
use irtext_tests_common::building::{block_inside, into_block, place, types};
use irtext_tests_common::contexts::{Ctx, named};
use std::alloc::Global;
use std::process::Abort;

/// Makes a block without a label, and arguments of these types.
fn made(
    rt: &impl Abort,
    alloc: Global,
    ctx: &mut Ctx,
    letters: &str,
) -> Answer<Ptr<BasicBlock>, DemoAttr> {
    BasicBlock::new(ctx, None, must(rt, types(alloc, letters)))
}

/// The text of a block: its label, how many arguments and attributes it has, and whether its location is unknown.
fn shown(rt: &impl Abort, alloc: Global, ctx: &Ctx, block: Ptr<BasicBlock>) -> String {
    assert!(rt; ctx.contains_block(block));
    let label = match block.label(ctx) {
        Some(label) => label.as_str(),
        None => "-",
    };
    let arguments = ctx.graph().num_arguments(block);
    let attributes = block.attributes(ctx).len();
    let unknown = block.loc(ctx).is_unknown();
    format!(in alloc; "{label} {arguments} {attributes} {unknown}").expect(rt, "out of memory")
}

/// A change of a block: it gets a label, or none, a place, or an identifier under a key.
#[derive(Clone, Copy)]
enum Step {
    Label,
    NoLabel,
    Place,
    Key(&'static str),
}

/// Changes a block, and returns whether that was allowed.
fn write(
    rt: &impl Abort,
    alloc: Global,
    ctx: &mut Ctx,
    block: Ptr<BasicBlock>,
    step: Step,
) -> bool {
    assert!(rt; ctx.contains_block(block));
    match step {
        Step::Label => block.set_label(ctx, Some(must(rt, named(alloc, "entry")))),
        Step::NoLabel => block.set_label(ctx, None),
        Step::Place => block.set_loc(ctx, at(Source::InMemory)),
        Step::Key(key) => {
            let key = must(rt, named(alloc, key));
            let attr = AttrObj::Ident(must(rt, named(alloc, "main")));
            return is_allowed(block.set_attribute(ctx, key, attr));
        }
    }
    true
}

/// Changes, one after the other, whether each is allowed, and the text of the block after it.
const STEPS: &[(Step, bool, &str)] = &[
    (Step::Label, true, "entry 3 0 true"),
    (Step::Key(SYM_NAME_KEY), true, "entry 3 1 true"),
    (Step::Key(GIVEN_NAMES_KEY), false, "entry 3 1 true"),
    (Step::Place, true, "entry 3 1 false"),
    (Step::NoLabel, true, "- 3 1 false"),
];

/// Checks the result of each step, and how it leaves a block that begins with three arguments.
pub(crate) fn check_steps(rt: &impl Abort, alloc: Global, ctx: &mut Ctx) {
    let block = made(rt, alloc, ctx, "ppp").ok().expect(rt, "refused");
    assert!(rt; has_type(ctx.graph(), Value::Argument(block, 0), DemoType::Pointer));
    same(rt, shown(rt, alloc, ctx, block), "- 3 0 true");
    for row in STEPS {
        assert!(rt; write(rt, alloc, ctx, block, row.0) == row.1);
        same(rt, shown(rt, alloc, ctx, block), row.2);
    }
}

#[test]
fn blocks_are_labelled_and_written(rt: HostRuntime) {
    alone(&rt, rt.alloc(), Check::Blocks);
}

/// Checks that no block of two arguments is made if one number is left for values, and that one of one argument is.
pub(crate) fn fill(rt: &impl Abort, alloc: Global, ctx: &mut Ctx) {
    let refused = told(rt, alloc, made(rt, alloc, ctx, "pp"), "made");
    same(rt, refused, "Out of memory");
    assert!(rt; ctx.num_live() == 0);
    same(
        rt,
        told(rt, alloc, made(rt, alloc, ctx, "p"), "made"),
        "made",
    );
}

#[test]
fn arguments_end_at_the_greatest_number(rt: HostRuntime) {
    counting(&rt, rt.alloc(), u64::MAX - 1, 1, Check::LastArguments);
}

/// Whether the location of an operation or a block is known.
fn is_known(ctx: &Ctx, item: Item) -> bool {
    match item {
        Item::Operation(op) => ctx.contains_operation(op) && !op.loc(ctx).is_unknown(),
        Item::Block(block) => ctx.contains_block(block) && !block.loc(ctx).is_unknown(),
    }
}

/// Which of three locations are known: those of an operation, of a block in it, and of an operation in the block.
fn known(
    ctx: &Ctx,
    outer: Ptr<Operation>,
    block: Ptr<BasicBlock>,
    inner: Ptr<Operation>,
) -> (bool, bool, bool) {
    (
        is_known(ctx, Item::Operation(outer)),
        is_known(ctx, Item::Block(block)),
        is_known(ctx, Item::Operation(inner)),
    )
}

/// Checks that locations are known in an operation with a block and an operation in it, and none once they are erased.
pub(crate) fn erase_inside(rt: &impl Abort, alloc: Global, ctx: &mut Ctx) {
    let (outer, inner) = (make(rt, alloc, ctx), make(rt, alloc, ctx));
    assert!(rt; ctx.contains_operation(outer));
    ctx.add_region(outer).expect(rt, "out of memory");
    let block = must(rt, block_inside(alloc, ctx, outer, "", Few::none()));
    must(rt, into_block(ctx, inner, block));
    must(rt, place(ctx, Item::Block(block), 2));
    assert!(rt; known(ctx, outer, block, inner) == (true, true, true));
    assert!(rt; ctx.contains_operation(outer));
    erase_locations(ctx, outer);
    assert!(rt; known(ctx, outer, block, inner) == (false, false, false));
}

#[test]
fn inner_locations_are_erased(rt: HostRuntime) {
    alone(&rt, rt.alloc(), Check::InnerLocations);
}
