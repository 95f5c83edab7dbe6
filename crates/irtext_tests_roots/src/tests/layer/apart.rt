//! The laws of the two calls over two contexts. If the same operations are registered with each separately, they know
//! them alike, and the printed text of the one is parsed back in the other; if they have no dialects, no root is printed.
ghost use Rattle.std.specs.Prelude.{◌≡◌, [], IfOk, codes};
ghost use Rattle.irtext_base.specs.Format as format;
ghost use Rattle.irtext_base.specs.FormatViews.{directive_of, format_of};
ghost use Rattle.irtext_context.specs.Dialects.{with_op};
ghost use Rattle.irtext_context.specs.DialectTable.{dialect_or_new, with_dialect};
ghost use Rattle.irtext_alike.specs.Alike.{KnowAlike};
ghost use Rattle.irtext_tests_roots.specs.Apart.{lab_dialects, lab_format, lab_id, other_id, reversed_dialects, two_dialects};

use crate::tests::layer::carried::{Carried, carried, carried_if_known};
use crate::tests::reading::concrete;
use crate::tests::registering::register_operation;
use crate::tests::value::{name_of, same, value_of};
use irtext_context::base::context::making::Making;
use irtext_demo::DemoAttr;
use irtext_tests_common::answers::result_text;
use irtext_tests_common::contexts::Ctx;
use pliron_text::base::{AttributeDict, Context, NewBareOperation, OpId, Operation, Ptr};
use pliron_text::dialect::DialectName;
use pliron_text::format::{Directive, OpFormat};
use pliron_text::ir::same_dialects;
use pliron_text::laws::dialects::registered_in_any_order;
use pliron_text::laws::two_calls::{NotBack, read_printed_and_read};
use pliron_text::location::Location;
use pliron_text::printable::State;
use pliron_text::result::Result as Answer;
use std::alloc::Global;
use std::process::Abort;
use std::test::Fail;

/// The id of `lab.e`.
fn other_id(rt: &impl Abort, alloc: Global) -> OpId
    ensures { result ≡ other_id }
{
    OpId {
        dialect: name_of(rt, alloc, "lab"),
        name: name_of(rt, alloc, "e"),
    }
}

/// The id of `lab.d`.
fn id(rt: &impl Abort, alloc: Global) -> OpId
    ensures { result ≡ lab_id }
{
    OpId {
        dialect: name_of(rt, alloc, "lab"),
        name: name_of(rt, alloc, "d"),
    }
}

/// A word.
fn word(alloc: Global) -> Result<Directive, Fail>
    ensures { IfOk result (λ d. directive_of d ≡ format.word (codes "here")) }
{
    Ok(Directive::Literal(String::from_str(alloc, "here")?))
}

/// A word and a region, allocated anew at each call.
fn word_and_region(rt: &impl Abort, alloc: Global) -> OpFormat
    ensures { format_of result ≡ lab_format }
{
    let word = value_of(rt, word(alloc), "out of memory");
    let mut directives = Vec::new(alloc);
    directives.push(word).expect(rt, "out of memory");
    directives
        .push(Directive::Region(0))
        .expect(rt, "out of memory");
    OpFormat::Custom(directives)
}

/// Registers an operation with the dialect `lab`.
fn put(rt: &impl Abort, alloc: Global, ctx: &mut Ctx, id: OpId, isolated: bool)
    ensures { ctx.new.dialects ≡ with_dialect ctx.old.dialects (codes "lab")
        (with_op (dialect_or_new ctx.old.dialects (codes "lab")) id lab_format isolated) }
{
    let name = DialectName::from(name_of(rt, alloc, "lab"));
    let format = word_and_region(rt, alloc);
    let answer: Answer<(), DemoAttr> = register_operation(ctx, &name, id, format, isolated);
    drop(name);
    answer.expect(rt, "not registered");
}

/// Registers `lab.d`, which is isolated.
fn register(rt: &impl Abort, alloc: Global, ctx: &mut Ctx)
    requires { ctx.old.dialects ≡ [] }
    ensures { ctx.new.dialects ≡ lab_dialects }
{
    let id = id(rt, alloc);
    put(rt, alloc, ctx, id, true);
}

/// Registers `lab.d`, which is isolated, and then `lab.e`, which is not.
fn register_two(rt: &impl Abort, alloc: Global, ctx: &mut Ctx)
    requires { ctx.old.dialects ≡ [] }
    ensures { ctx.new.dialects ≡ two_dialects }
{
    register(rt, alloc, ctx);
    let id = other_id(rt, alloc);
    put(rt, alloc, ctx, id, false);
}

/// Registers `lab.e`, which is not isolated, and then `lab.d`, which is.
fn register_reversed(rt: &impl Abort, alloc: Global, ctx: &mut Ctx)
    requires { ctx.old.dialects ≡ [] }
    ensures { ctx.new.dialects ≡ reversed_dialects }
{
    let other_id = other_id(rt, alloc);
    put(rt, alloc, ctx, other_id, false);
    let id = id(rt, alloc);
    put(rt, alloc, ctx, id, true);
}

/// Registers `lab.d`, which is not isolated.
fn register_open(rt: &impl Abort, alloc: Global, ctx: &mut Ctx) {
    let id = id(rt, alloc);
    put(rt, alloc, ctx, id, false);
}

/// Makes `lab.d` with one region.
fn make(rt: &impl Abort, alloc: Global, ctx: &mut Ctx) -> Ptr<Operation>
    ensures { ctx.new.dialects ≡ ctx.old.dialects }
{
    let answer: Answer<Ptr<Operation>, DemoAttr> = Operation::new(ctx, id(rt, alloc), 1);
    answer.expect(rt, "not made")
}

/// Makes `lab.d` whether it is registered or not.
fn make_unregistered(rt: &impl Abort, alloc: Global, ctx: &mut Ctx) -> Ptr<Operation>
    ensures { ctx.new.dialects ≡ ctx.old.dialects }
{
    let attributes = AttributeDict::new(alloc);
    ctx.make_operation(id(rt, alloc), attributes, Location::Unknown)
        .expect(rt, "out of memory")
}

/// The text of a result of the law of the two calls, which ends here: the concrete text of the root in the other context, or why there is
/// none.
fn answered(rt: &impl Abort, alloc: Global, other: &Ctx, answer: Carried<DemoAttr>) -> String {
    let text = match &answer {
        Ok(Ok(root)) => value_of(rt, concrete(alloc, other, *root), "no text"),
        Ok(Err(NotBack::Unprinted(refusal))) => {
            format!(in alloc; "{refusal:?}").expect(rt, "out of memory")
        }
        Ok(Err(NotBack::Unread(fault))) => {
            value_of(rt, result_text(alloc, fault), "out of memory")
        }
        Err(reason) => format!(in alloc; "{reason}").expect(rt, "out of memory"),
    };
    drop(answer);
    text
}

/// The same, after an operation of the one context is checked, printed and parsed.
fn brought_over(
    rt: &impl Abort,
    alloc: Global,
    ctx: &mut Ctx,
    op: Ptr<Operation>,
    other: &mut Ctx,
) -> String
    requires { KnowAlike other.old.dialects ctx.old.dialects }
{
    let layout = State::new(alloc, ());
    let answer = carried(ctx, op, &layout, other);
    drop(layout);
    answered(rt, alloc, other, answer)
}

/// The same, where two operations were registered in the other order.
fn brought_over_reversed(
    rt: &impl Abort,
    alloc: Global,
    ctx: &mut Ctx,
    op: Ptr<Operation>,
    other: &mut Ctx,
) -> String
    requires one { ctx.old.dialects ≡ two_dialects }
    requires two { other.old.dialects ≡ reversed_dialects }
{
    registered_in_any_order();
    assert!(rt; same_dialects(ctx, other));
    brought_over(rt, alloc, ctx, op, other)
}

/// The same, with any other context: the text that says which operation it knows otherwise, if it does not know the root.
fn brought_if_known(
    rt: &impl Abort,
    alloc: Global,
    ctx: &mut Ctx,
    op: Ptr<Operation>,
    other: &mut Ctx,
) -> String {
    let layout = State::new(alloc, ());
    let answer = carried_if_known(ctx, op, &layout, other);
    drop(layout);
    match answer {
        Ok(answer) => answered(rt, alloc, other, answer),
        Err(unlike) => format!(in alloc; "{unlike}").expect(rt, "out of memory"),
    }
}

/// The same, where the dialects were registered in one order.
fn brought_over_there(
    rt: &impl Abort,
    alloc: Global,
    ctx: &mut Ctx,
    op: Ptr<Operation>,
    other: &mut Ctx,
) -> String
    requires { other.old.dialects ≡ ctx.old.dialects }
{
    brought_over(rt, alloc, ctx, op, other)
}

/// The text that is parsed, printed and parsed again: an operation in a block of another.
const NESTED: &str = "lab.d here { ^a(): lab.d here {} }";

/// The concrete text of both roots after that text is parsed in the one context, printed, and parsed in the other.
fn read_again(rt: &impl Abort, alloc: Global, ctx: &mut Ctx, other: &mut Ctx) -> String {
    let layout = State::new(alloc, ());
    let answer = read_printed_and_read(NESTED, ctx, &layout, other);
    drop(layout);
    let (first, second) = answer.ok().expect(rt, "not read again");
    let first = value_of(rt, concrete(alloc, ctx, first), "no text");
    let second = value_of(rt, concrete(alloc, other, second), "no text");
    same(rt, first, second.as_str());
    second
}

/// What is brought from one context into another, and whether the dialect is registered with each separately.
#[derive(Clone, Copy)]
enum Case {
    /// The text, if it is.
    Text,
    /// `lab.d`, if it is.
    Registered,
    /// `lab.d`, if `lab.d` and `lab.e` are, in the other order.
    Reversed,
    /// `lab.d`, if it is, but not as an isolated operation in the other context.
    Otherwise,
    /// `lab.d`, if neither context has the dialect.
    Unregistered,
}

/// The result for a case: for the text the concrete text of both roots, for `lab.d` its text in the other context, or why there is none.
fn brought(rt: &impl Abort, alloc: Global, ctx: &mut Ctx, other: &mut Ctx, case: Case) -> String
    requires one { ctx.old.dialects ≡ [] }
    requires two { other.old.dialects ≡ [] }
{
    match case {
        Case::Text => {
            register(rt, alloc, ctx);
            register(rt, alloc, other);
            read_again(rt, alloc, ctx, other)
        }
        Case::Registered => {
            register(rt, alloc, ctx);
            register(rt, alloc, other);
            let op = make(rt, alloc, ctx);
            brought_over_there(rt, alloc, ctx, op, other)
        }
        Case::Reversed => {
            register_two(rt, alloc, ctx);
            register_reversed(rt, alloc, other);
            let op = make(rt, alloc, ctx);
            brought_over_reversed(rt, alloc, ctx, op, other)
        }
        Case::Otherwise => {
            register(rt, alloc, ctx);
            register_open(rt, alloc, other);
            let op = make(rt, alloc, ctx);
            brought_if_known(rt, alloc, ctx, op, other)
        }
        Case::Unregistered => {
            let op = make_unregistered(rt, alloc, ctx);
            brought_over_there(rt, alloc, ctx, op, other)
        }
    }
}

/// Checks the result for a case, with two contexts that had no dialects before.
fn check(rt: &impl Abort, alloc: Global, case: Case, wanted: &str) {
    let mut ctx: Ctx = Context::new(alloc);
    let mut other: Ctx = Context::new(alloc);
    let text = brought(rt, alloc, &mut ctx, &mut other, case);
    drop(ctx);
    drop(other);
    same(rt, text, wanted);
}

#[test]
fn a_text_is_read_printed_and_read_again(rt: HostRuntime) {
    check(
        &rt,
        rt.alloc(),
        Case::Text,
        "lab.d here \n{\n  ^a_block1v1() !0:\n    lab.d here \n    {\n      \n    } !1\n}",
    );
}

#[test]
fn a_root_comes_back_where_its_dialect_is_registered_apart(rt: HostRuntime) {
    let wanted = "lab.d here \n{\n  \n}";
    check(&rt, rt.alloc(), Case::Registered, wanted);
}

#[test]
fn what_is_not_registered_is_not_brought_over(rt: HostRuntime) {
    check(&rt, rt.alloc(), Case::Unregistered, "Misfit");
}

#[test]
fn a_root_comes_back_where_its_dialect_is_registered_in_another_order(rt: HostRuntime) {
    check(&rt, rt.alloc(), Case::Reversed, "lab.d here \n{\n  \n}");
}

#[test]
fn a_root_is_not_brought_where_it_is_known_otherwise(rt: HostRuntime) {
    check(
        &rt,
        rt.alloc(),
        Case::Otherwise,
        "An operation is isolated from above in one context alone",
    );
}
