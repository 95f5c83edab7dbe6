//! Registering an operation and creating it while an allocation fails: the call that fails has changed nothing.

use crate::fault::{Fault, checked, fault_of};
use crate::roots::Ctx;
use pliron_text::base::{Identifier, NewBareOperation, OpId, Operation};
use pliron_text::dialect::{Dialect, DialectName};
use pliron_text::format::OpFormat;
use std::alloc::Global;
use std::fmt::Write;

/// Returns a fault, which is `Wrong` if memory ran out and something has changed.
fn unchanged(fault: Fault, is_as_it_was: bool) -> Fault {
    match fault {
        Fault::Memory if is_as_it_was => Fault::Memory,
        _ => Fault::Wrong,
    }
}

/// Returns the id of the operation `z` of a dialect.
fn id(alloc: Global, dialect: &str) -> Result<OpId, Fault> {
    checked(OpId::try_new(alloc, dialect, "z"))
}

/// Registers a dialect. Returns its fault if there is one.
fn registered(ctx: &mut Ctx, name: &DialectName) -> Result<(), Fault> {
    match Dialect::register(ctx, name) {
        Ok(_dialect) => Ok(()),
        Err(error) => Err(fault_of(error)),
    }
}

/// Registers a dialect. If memory runs out, it must not be registered.
fn register(ctx: &mut Ctx, name: &DialectName) -> Result<(), Fault> {
    match registered(ctx, name) {
        Ok(()) => Ok(()),
        Err(fault) => Err(unchanged(fault, ctx.dialect(name).is_none())),
    }
}

/// Registers an operation with a dialect that is registered.
fn add(ctx: &mut Ctx, name: &DialectName, id: OpId) -> Result<(), Fault> {
    match Dialect::register(ctx, name) {
        Ok(dialect) => checked(dialect.add_op(id, OpFormat::Canonical, false)),
        Err(error) => {
            drop(id);
            drop(error);
            Err(Fault::Wrong)
        }
    }
}

/// Creates an operation with two regions. If memory runs out, no object may be live. Returns how many are live.
fn make(ctx: &mut Ctx, id: OpId) -> Result<u64, Fault> {
    match checked(Operation::new(ctx, id, 2)) {
        Ok(_) => Ok(ctx.num_live()),
        Err(fault) => Err(unchanged(fault, ctx.num_live() == 0)),
    }
}

/// Adds the operation of a dialect that is registered. Returns its id.
fn added(alloc: Global, ctx: &mut Ctx, name: &DialectName, text: &str) -> Result<OpId, Fault> {
    let added = id(alloc, text)?;
    add(ctx, name, added)?;
    id(alloc, text)
}

/// Registers a dialect and its operation, and creates that operation. Returns how many objects are live then.
fn made(alloc: Global, ctx: &mut Ctx, name: &DialectName, text: &str) -> Result<u64, Fault> {
    register(ctx, name)?;
    let id = added(alloc, ctx, name, text)?;
    make(ctx, id)
}

/// Appends a line with the number of live objects after an operation of the dialect that the text names was registered in an empty context,
/// and created with two regions.
pub(crate) fn objects(
    alloc: Global,
    ctx: &mut Ctx,
    text: &str,
    out: &mut String,
) -> Result<(), Fault> {
    let name = DialectName::from(checked(Identifier::try_new(alloc, text))?);
    let made = made(alloc, ctx, &name, text);
    drop(name);
    match writeln!(out, "{}", made?) {
        Ok(()) => Ok(()),
        Err(_) => Err(Fault::Memory),
    }
}
