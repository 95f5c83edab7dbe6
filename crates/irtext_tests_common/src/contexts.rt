//! Contexts of the demo types, passed to a closure: nothing else owns one here, so that a test has one call and no context.
use crate::answers::accepted;
pub use crate::answers::named;
use irtext_base::location::Source;
use irtext_base::parsable::TextStream;
use irtext_context::base::Context;
use irtext_demo::dialects::register_demo;
use irtext_demo::{DemoAttr, DemoType};
use irtext_parse_state::parsable::{State, StateStream};
use std::alloc::Global;
use std::test::Fail;

/// A context of the demo types and attributes.
pub type Ctx = Context<DemoType, DemoAttr>;

/// A stream with its state.
pub type Stream<'c> = StateStream<'c, DemoType, DemoAttr, ()>;

/// The result of a call with an empty context.
pub fn with_context<X, F: FnOnce(Global, &mut Ctx) -> Result<X, Fail> + Drop>(
    alloc: Global,
    call: F,
) -> Result<X, Fail>
    requires { F.IsAlwaysCallable call }
{
    with_counters(alloc, 0, 1, call)
}

/// The result of a call with an empty context whose next value has the number `values`, and whose places count from
/// `places`; fails if that is 0, which is no place.
pub fn with_counters<X, F: FnOnce(Global, &mut Ctx) -> Result<X, Fail> + Drop>(
    alloc: Global,
    values: u64,
    places: u32,
    call: F,
) -> Result<X, Fail>
    requires { F.IsAlwaysCallable call }
{
    if places == 0 {
        return Err(Fail::from("no place"));
    }
    let mut ctx: Ctx = Context::with_counters(alloc, values, places);
    let result = call(alloc, &mut ctx);
    drop(ctx);
    result
}

/// The result of a call with a context that has the demo dialects.
pub fn with_demo<X, F: FnOnce(Global, &mut Ctx) -> Result<X, Fail> + Drop>(
    alloc: Global,
    call: F,
) -> Result<X, Fail>
    requires { F.IsAlwaysCallable call }
{
    let mut ctx: Ctx = Context::new(alloc);
    let result = registered(alloc, &mut ctx, call);
    drop(ctx);
    result
}

/// Registers the demo dialects with this context, and returns the result of the call with it.
fn registered<X, F: FnOnce(Global, &mut Ctx) -> Result<X, Fail> + Drop>(
    alloc: Global,
    ctx: &mut Ctx,
    call: F,
) -> Result<X, Fail>
    requires { F.IsAlwaysCallable call }
{
    add_demo(ctx)?;
    call(alloc, ctx)
}

/// Registers the demo dialects with this context.
fn add_demo(ctx: &mut Ctx) -> Result<(), Fail> {
    accepted(register_demo(ctx), "not registered")
}

/// Makes a call with two empty contexts.
pub fn with_contexts<F: FnOnce(Global, &mut Ctx, &mut Ctx) + Drop>(alloc: Global, call: F)
    requires { F.IsAlwaysCallable call }
{
    let mut ctx: Ctx = Context::new(alloc);
    beside(alloc, &mut ctx, call);
    drop(ctx);
}

/// Makes a call with this context and an empty one.
fn beside<F: FnOnce(Global, &mut Ctx, &mut Ctx) + Drop>(alloc: Global, ctx: &mut Ctx, call: F)
    requires { F.IsAlwaysCallable call }
{
    let mut other: Ctx = Context::new(alloc);
    call(alloc, ctx, &mut other);
    drop(other);
}

/// The result of a function on a stream over a text, with a context of its own.
pub fn in_context<F: FnOnce(Global, &mut Stream<'_>) -> Result<String, Fail> + Drop>(
    alloc: Global,
    text: &str,
    read: F,
) -> Result<String, Fail>
    requires { F.IsAlwaysCallable read }
{
    let stream = TextStream::new(alloc, text)?;
    let mut ctx: Ctx = Context::new(alloc);
    let state = State::new(&mut ctx, Source::InMemory, ());
    let mut s = StateStream { stream, state };
    let text = read(alloc, &mut s);
    drop(s);
    drop(ctx);
    text
}
