//! The first operation of a root that does not fit its format.
ghost use Rattle.std.specs.Prelude.{◌≡◌, ◌↔◌, IsTrue, IsSome, IfSome, IfOk};
ghost use Rattle.std.specs.Option.{option_map};
ghost use Rattle.irtext_context.specs.Context.{operation};
ghost use Rattle.irtext_print_ops.specs.Heads as heads;
ghost use Rattle.pliron_text.specs.Unprinted.{plain};
ghost use Rattle.irtext_formatter.specs.Keys.{texts_of};
ghost use Rattle.irtext_formatter.specs.Misfits.{position_in, mistaken_in, Describes, IsMisfitOf};

use crate::keys::{MistakenKey, mistaken_key};
use irtext_base::base::OpId;
use irtext_base::location::{Location, Source};
use irtext_base::parsable::SourcePosition;
use irtext_base::text::{AttrText, IrText};
use irtext_context::base::{Context, Operation, OperationAccess, Ptr};
use irtext_print_ops::fits::FitFault;
use pliron_text::ir::first_misfit;
use std::alloc::AllocError;

/// An operation that does not fit its format.
#[derive(Drop)]
pub struct Misfit {
    /// The id of the operation.
    pub id: OpId,
    /// The position in the text that the operation's location gives, if it gives one.
    pub position: Option<SourcePosition>,
    /// Why the operation does not fit its format: the text of the `FitFault`.
    pub reason: String,
    /// The key of one of its attributes that was perhaps meant to be one that its format prints, if that may be why.
    pub mistaken: Option<MistakenKey>,
}

/// Whether a source is the text in memory.
fn is_in_memory(source: Source) -> bool
    ensures { IsTrue result ↔ (source ≡ Source.InMemory) }
{
    match source {
        Source::InMemory => true,
        _ => false,
    }
}

/// Returns the position that a location gives, if that is one in a text in memory.
pub fn position_in_memory<A>(location: &Location<A>) -> Option<SourcePosition>
    ensures { result ≡ position_in location.now }
{
    match location {
        Location::SrcPos { src, pos } => { if is_in_memory(*src) { Some(*pos) } else { None } }
        _ => None,
    }
}

/// Returns a copy of an id.
fn id_copied(id: &OpId) -> Result<OpId, AllocError>
    ensures { IfOk result (λ copy. copy ≡ id.now) }
{
    Ok(OpId {
        dialect: id.dialect.clone()?,
        name: id.name.clone()?,
    })
}

/// Returns the key of an operation's attribute that was perhaps meant to be one that its format prints.
fn mistaken_in<T: IrText<A>, A: AttrText<A>>(
    ctx: &Context<T, A>,
    op: Ptr<Operation>,
    fault: FitFault<'_>,
) -> Result<Option<MistakenKey>, AllocError>
    requires live { IsSome (operation ctx.now op) }
    ensures { IfOk result (λ found. IfSome (operation ctx.now op) (λ seen. option_map texts_of found
        ≡ mistaken_in ctx.now.dialects seen fault.entry)) }
{
    let attributes = op.attributes(ctx);
    match ctx.op_info(op.get_opid(ctx)) {
        Some(info) => mistaken_key(ctx.allocator(), &info.format, attributes, fault),
        None => Ok(None),
    }
}

/// Describes an operation that does not fit its format for this reason.
fn described<T: IrText<A>, A: AttrText<A>>(
    ctx: &Context<T, A>,
    op: Ptr<Operation>,
    fault: FitFault<'_>,
) -> Result<Misfit, AllocError>
    requires live { IsSome (operation ctx.now op) }
    ensures { IfOk result (λ misfit. IfSome (operation ctx.now op) (λ seen. Describes ctx.now.dialects seen fault.entry
        misfit)) }
{
    let id = id_copied(op.get_opid(ctx))?;
    let position = position_in_memory(op.loc(ctx));
    let reason = format!(in ctx.allocator(); "{fault}")?;
    let mistaken = mistaken_in(ctx, op, fault)?;
    Ok(Misfit {
        id,
        position,
        reason,
        mistaken,
    })
}

/// Returns the first operation, in the order of the text, that does not fit its format: the root, or one that is nested in it.
pub fn described_misfit<T: IrText<A>, A: AttrText<A>>(
    ctx: &Context<T, A>,
    root: Ptr<Operation>,
) -> Result<Misfit, AllocError>
    requires live { IsSome (operation ctx.now root) }
    requires misfits { heads.MisfitsUnder T.IrText.own A.IrText.own A.AttrText.own A.eq ctx.now root plain }
    ensures { IfOk result (IsMisfitOf A.IrText.written A.AttrText.own A.eq ctx.now root) }
{
    if let Some((op, fault)) = first_misfit(ctx, root) {
        return described(ctx, op, fault);
    }
    unreachable!()
}
