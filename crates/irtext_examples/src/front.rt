//! A front end: it parses a sum such as `1 + 2 + 3`, and builds a function that adds the numbers to its argument. Operations and blocks
//! are made, named, located and inserted by calls that return an error where they cannot be made, so no call here has anything to prove.
ghost use Rattle.std.specs.Prelude.{IfOk, IsSome};
ghost use Rattle.irtext_context.specs.Context.{operation};

use crate::ir::{Answer, ArithType, Attr, Ir, VALUE_KEY, int, value_attr};
use pliron_text::location::{Location, Source, SourcePosition};
use pliron_text::prelude::*;
use pliron_text::{input_err, verify_err};
use std::alloc::Global;

/// A number of the source text, and where it is.
#[derive(Clone, Copy)]
struct Term {
    value: i64,
    at: SourcePosition,
}

/// Returns the position after a character.
fn after(at: SourcePosition, c: char) -> SourcePosition {
    match c {
        '\n' => SourcePosition {
            line: at.line.saturating_add(1),
            column: 1,
        },
        _ => SourcePosition {
            line: at.line,
            column: at.column.saturating_add(1),
        },
    }
}

/// Returns the position after a text.
fn after_text(at: SourcePosition, text: &str) -> SourcePosition {
    text.chars().fold(at, after)
}

/// Returns the position after the white space that a text begins with.
fn after_blanks(at: SourcePosition, text: &str) -> SourcePosition {
    text.chars()
        .take_while(|c| c.is_whitespace())
        .fold(at, after)
}

/// Returns the location of a position of the source text.
fn place(at: SourcePosition) -> Location<Attr> {
    Location::SrcPos {
        src: Source::InMemory,
        pos: at,
    }
}

/// Returns the number that a text between two `+` holds. Any other text is an error at its position.
fn parse_term(alloc: Global, text: &str, at: SourcePosition) -> Answer<Term> {
    let at = after_blanks(at, text);
    let word = text.trim();
    match word.parse::<i64>() {
        Ok(value) => Ok(Term { value, at }),
        Err(_) => input_err!(place(at), in alloc; "`{word}` is not a number of 64 bits"),
    }
}

/// Appends the numbers of a sum such as `1 + 2 + 3`.
fn parse_terms(alloc: Global, text: &str, terms: &mut Vec<Term>) -> Answer<()> {
    let mut at = SourcePosition::default();
    for piece in text.split('+') {
        terms.push(parse_term(alloc, piece, at)?)?;
        at = after(after_text(at, piece), '+');
    }
    Ok(())
}

/// Makes an operation of `arith` with one result of this name, at the end of a block.
fn append<'a>(
    ctx: &mut Ir,
    block: Ptr<BasicBlock>,
    draft: OpDraft<'a, ArithType, Attr>,
    name: &str,
    at: SourcePosition,
) -> Answer<Value> {
    let op = draft
        .results(Few::one(int()))
        .name(name)?
        .at(place(at))
        .build_in(ctx, block)?;
    Ok(Value::Result(op, 0))
}

/// Adds the number to the sum at the end of a block, and returns the new sum.
fn add_term(ctx: &mut Ir, block: Ptr<BasicBlock>, sum: Value, term: Term) -> Answer<Value> {
    let constant = OpDraft::new(ctx, "arith", "constant")?.attribute(
        VALUE_KEY,
        value_attr(term.value, int()),
    )?;
    let number = append(ctx, block, constant, "term", term.at)?;
    let operands = [sum, number];
    let add = OpDraft::new(ctx, "arith", "add")?.operands(&operands);
    append(ctx, block, add, "sum", term.at)
}

/// Adds the numbers to the argument of a block, and returns the sum.
fn add_terms(ctx: &mut Ir, block: Ptr<BasicBlock>, terms: &[Term]) -> Answer<Value> {
    let mut sum = Value::Argument(block, 0);
    for term in terms {
        sum = add_term(ctx, block, sum, *term)?;
    }
    Ok(sum)
}

/// Makes an operation with a region and this name as its symbol, at the beginning of the source text.
fn symbol(ctx: &mut Ir, dialect: &str, op: &str, name: &str) -> Answer<Ptr<Operation>> {
    OpDraft::new(ctx, dialect, op)?
        .regions(1)
        .symbol(name)?
        .at(place(SourcePosition::default()))
        .build(ctx)
}

/// Makes the function `@sum`, which returns the sum of its argument and the numbers, at the end of a block.
fn function(ctx: &mut Ir, entry: Ptr<BasicBlock>, terms: &[Term]) -> Answer<()> {
    let function = symbol(ctx, "arith", "func", "sum")?;
    function.try_insert_at_back(entry, ctx)?;
    let region = function.try_get_region(ctx, 0)?;
    let body = BlockDraft::new(ctx)
        .label("body")?
        .arguments(Few::one(int()))
        .name("start")?
        .build_in(ctx, region)?;
    let sum = [add_terms(ctx, body, terms)?];
    OpDraft::new(ctx, "arith", "return")?
        .operands(&sum)
        .build_in(ctx, body)?;
    Ok(())
}

/// Parses a sum such as `1 + 2 + 3`, and builds the module `@program` with the function `@sum`, which returns the sum of its argument and
/// the numbers. Each operation is located where its number is. Returns the module, which is in the context then. A word between two `+`
/// that is not a number of 64 bits is an error at its position.
pub fn compile(ctx: &mut Ir, text: &str) -> Answer<Ptr<Operation>>
    ensures { IfOk result (λ op. IsSome (operation ctx.new op)) }
{
    let alloc = ctx.allocator();
    let mut terms = Vec::new(alloc);
    parse_terms(alloc, text, &mut terms)?;
    let module = symbol(ctx, "builtin", "module", "program")?;
    let region = module.try_get_region(ctx, 0)?;
    let entry = BlockDraft::new(ctx).label("entry")?.build_in(ctx, region)?;
    function(ctx, entry, &terms)?;
    if !ctx.contains_operation(module) {
        return verify_err!(place(SourcePosition::default()), in alloc; "the module is gone");
    }
    Ok(module)
}
