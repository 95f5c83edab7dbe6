//! The steps on a context, one after the other: operations and blocks are given by their number, in the order in which they were made.
use crate::tests::must::must;
use irtext_base::base::{GIVEN_NAMES_KEY, SYM_NAME_KEY};
use irtext_context::base::{BasicBlock, Item, Operation, Ptr, Value};
use irtext_few::Few;
use irtext_graph::held::HasGraph;
use irtext_tests_common::building::{
    attribute, block, erase, give, id, into_block, into_region, operation, place, register, types,
};
use irtext_tests_common::contexts::Ctx;
use std::alloc::Global;
use std::process::Abort;

/// What an operation uses: a result of an operation or an argument of a block, by its index, or a block.
#[derive(Clone, Copy)]
pub(crate) enum Used {
    Result(usize, usize),
    Argument(usize, usize),
    Block(usize),
}

/// An operation or a block.
#[derive(Clone, Copy)]
pub(crate) enum Part {
    Operation(usize),
    Block(usize),
}

/// One step.
#[derive(Clone, Copy)]
pub(crate) enum Step {
    /// Registers an operation of the dialect `lab` with the format of these letters.
    Register(&'static str, &'static str),
    /// Registers such an operation with the canonical format, isolated from above.
    Isolated(&'static str),
    /// Makes an operation with so many regions.
    Root(&'static str, usize),
    /// Makes such an operation last in a block.
    Inner(usize, &'static str, usize),
    /// Makes an operation last in a block, with results of these types, that uses these values and blocks.
    Using(usize, &'static str, &'static str, &'static [Used]),
    /// Makes such an operation in no block.
    Loose(&'static str, &'static str, &'static [Used]),
    /// Makes a block last in the region of an operation, with this label or none, and arguments of these types.
    Block(usize, usize, &'static str, &'static str),
    /// Makes a placeholder last in a block.
    Placeholder(usize),
    /// Gives a part the attribute for a letter.
    Give(Part, char),
    /// Gives a part a location.
    Place(Part),
    /// Erases a part.
    Erase(Part),
}

/// The operations and the blocks that were made, in order.
#[derive(Drop)]
pub(crate) struct Made {
    pub operations: Vec<Ptr<Operation>>,
    pub blocks: Vec<Ptr<BasicBlock>>,
}

/// The operation of a number.
pub(crate) fn operation_of(rt: &impl Abort, made: &Made, number: usize) -> Ptr<Operation> {
    *made.operations.get(number).expect(rt, "no such operation")
}

/// The block of a number.
pub(crate) fn block_of(rt: &impl Abort, made: &Made, number: usize) -> Ptr<BasicBlock> {
    *made.blocks.get(number).expect(rt, "no such block")
}

/// The item of a part.
fn item_of(rt: &impl Abort, made: &Made, part: Part) -> Item {
    match part {
        Part::Operation(number) => Item::Operation(operation_of(rt, made, number)),
        Part::Block(number) => Item::Block(block_of(rt, made, number)),
    }
}

/// The operands and the successors of an operation that is to be made.
#[derive(Drop)]
struct Uses {
    values: Vec<Value>,
    blocks: Vec<Ptr<BasicBlock>>,
}

/// Adds a value or a block to what is used.
fn add_use(rt: &impl Abort, made: &Made, used: Used, uses: &mut Uses) {
    let value = match used {
        Used::Result(number, index) => Value::Result(operation_of(rt, made, number), index),
        Used::Argument(number, index) => Value::Argument(block_of(rt, made, number), index),
        Used::Block(number) => {
            let block = block_of(rt, made, number);
            return uses.blocks.push(block).expect(rt, "out of memory");
        }
    };
    uses.values.push(value).expect(rt, "out of memory");
}

/// The values and blocks that these denote.
fn uses_of(rt: &impl Abort, alloc: Global, made: &Made, used: &[Used]) -> Uses {
    let mut uses = Uses {
        values: Vec::new(alloc),
        blocks: Vec::new(alloc),
    };
    for used in used {
        add_use(rt, made, *used, &mut uses);
    }
    uses
}

/// Makes an operation that uses nothing.
fn make_root(
    rt: &impl Abort,
    alloc: Global,
    ctx: &mut Ctx,
    made: &mut Made,
    name: &str,
    regions: usize,
) -> Ptr<Operation> {
    let id = must(rt, id(alloc, ("lab", name)));
    let op = must(rt, operation(ctx, id, Few::none(), &[], &[], regions));
    made.operations.push(op).expect(rt, "out of memory");
    op
}

/// Makes an operation without regions.
fn make_using(
    rt: &impl Abort,
    alloc: Global,
    ctx: &mut Ctx,
    made: &mut Made,
    name: (&str, &str),
    used: &[Used],
) -> Ptr<Operation> {
    let uses = uses_of(rt, alloc, made, used);
    let id = must(rt, id(alloc, ("lab", name.0)));
    let types = must(rt, types(alloc, name.1));
    let op = must(rt, operation(ctx, id, types, &uses.values, &uses.blocks, 0));
    made.operations.push(op).expect(rt, "out of memory");
    op
}

/// Makes a block with this label or none, and arguments of these types.
fn make_block(
    rt: &impl Abort,
    alloc: Global,
    ctx: &mut Ctx,
    made: &mut Made,
    label: &str,
    letters: &str,
) -> Ptr<BasicBlock> {
    let types = must(rt, types(alloc, letters));
    let block = must(rt, block(alloc, ctx, label, types));
    made.blocks.push(block).expect(rt, "out of memory");
    block
}

/// Makes a placeholder last in a block.
fn placeholder(rt: &impl Abort, ctx: &mut Ctx, block: Ptr<BasicBlock>) {
    let made = ctx.graph_mut().make_operation(None, Few::none(), &[], &[]);
    let op = made.expect(rt, "out of memory");
    must(rt, into_block(ctx, op, block));
}

/// The key of the attribute for a letter.
fn key_of(letter: char) -> &'static str {
    match letter {
        'g' => GIVEN_NAMES_KEY,
        's' | 't' => SYM_NAME_KEY,
        'l' => "builtin_block_label",
        'n' => "n",
        _ => "k",
    }
}

/// Gives an item the attribute for a letter.
pub(crate) fn give_letter(rt: &impl Abort, alloc: Global, ctx: &mut Ctx, item: Item, letter: char) {
    give_under(rt, alloc, ctx, item, key_of(letter), letter);
}

/// Gives an item the attribute for a letter under a key.
pub(crate) fn give_under(
    rt: &impl Abort,
    alloc: Global,
    ctx: &mut Ctx,
    item: Item,
    key: &str,
    letter: char,
) {
    let attr = must(rt, attribute(alloc, letter));
    must(rt, give(alloc, ctx, item, key, attr));
}

/// Makes the step if it makes an object.
fn make(rt: &impl Abort, alloc: Global, ctx: &mut Ctx, made: &mut Made, step: Step) {
    match step {
        Step::Root(name, regions) => {
            make_root(rt, alloc, ctx, made, name, regions);
        }
        Step::Inner(block, name, regions) => {
            let op = make_root(rt, alloc, ctx, made, name, regions);
            must(rt, into_block(ctx, op, block_of(rt, made, block)));
        }
        Step::Using(block, name, results, used) => {
            let op = make_using(rt, alloc, ctx, made, (name, results), used);
            must(rt, into_block(ctx, op, block_of(rt, made, block)));
        }
        Step::Loose(name, results, used) => {
            make_using(rt, alloc, ctx, made, (name, results), used);
        }
        Step::Block(op, region, label, letters) => {
            let block = make_block(rt, alloc, ctx, made, label, letters);
            must(
                rt,
                into_region(ctx, block, operation_of(rt, made, op), region),
            );
        }
        _ => change(rt, alloc, ctx, made, step),
    }
}

/// Makes the step if it changes an object.
fn change(rt: &impl Abort, alloc: Global, ctx: &mut Ctx, made: &Made, step: Step) {
    match step {
        Step::Register(name, letters) => must(
            rt,
            register(alloc, ctx, ("lab", name), letters, false),
        ),
        Step::Isolated(name) => must(rt, register(alloc, ctx, ("lab", name), "-", true)),
        Step::Placeholder(block) => placeholder(rt, ctx, block_of(rt, made, block)),
        Step::Give(part, letter) => give_letter(rt, alloc, ctx, item_of(rt, made, part), letter),
        Step::Place(part) => must(rt, place(ctx, item_of(rt, made, part), 1)),
        Step::Erase(part) => must(rt, erase(ctx, item_of(rt, made, part))),
        _ => {}
    }
}

/// Makes steps, one after the other, and returns what was made.
pub(crate) fn built(rt: &impl Abort, alloc: Global, ctx: &mut Ctx, steps: &[Step]) -> Made {
    let mut made = Made {
        operations: Vec::new(alloc),
        blocks: Vec::new(alloc),
    };
    build(rt, alloc, ctx, &mut made, steps);
    made
}

/// Makes further steps.
pub(crate) fn build(
    rt: &impl Abort,
    alloc: Global,
    ctx: &mut Ctx,
    made: &mut Made,
    steps: &[Step],
) {
    for step in steps {
        make(rt, alloc, ctx, made, *step);
    }
}

/// A function of two blocks, the first with a constant that has a given name, a sum, and a branch that has a location.
pub(crate) const FUNCTION: &[Step] = &[
    Step::Register("fn", "hda"),
    Step::Register("const", "k:v"),
    Step::Register("add", "0,1:v"),
    Step::Register("br", "s"),
    Step::Root("fn", 1),
    Step::Give(Part::Operation(0), 's'),
    Step::Give(Part::Operation(0), 'k'),
    Step::Place(Part::Operation(0)),
    Step::Block(0, 0, "", ""),
    Step::Block(0, 0, "exit", "p"),
    Step::Using(0, "const", "p", &[]),
    Step::Give(Part::Operation(1), 'k'),
    Step::Give(Part::Operation(1), 'g'),
    Step::Using(0, "add", "p", &[Used::Result(1, 0), Used::Result(1, 0)]),
    Step::Using(0, "br", "", &[Used::Block(1)]),
    Step::Place(Part::Operation(3)),
];
