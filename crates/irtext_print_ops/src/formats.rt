//! The format of an operation, from its context.
ghost use Rattle.std.specs.Prelude.{◌≡◌, IsSome, option_map};
ghost use Rattle.irtext_base.specs.Faults.{id_of};
ghost use Rattle.irtext_context.specs.Context.{operation};
ghost use Rattle.irtext_base.specs.FormatViews.{directives_of};
ghost use Rattle.irtext_grammar.specs.Contexts.Formats.{format_of};
ghost use Rattle.irtext_print_ops.specs.Heads as heads;
ghost use Rattle.irtext_print_ops.specs.Steps as steps;

use irtext_base::base::OpId;
use irtext_base::format::{Directive, OpFormat};
use irtext_base::text::{AttrText, IrText};
use irtext_context::base::{Context, Operation, OperationAccess, Ptr};

/// Returns the directives of an operation's format, if it is registered and its format has directives.
pub fn directives_in<'c, T: IrText<A>, A: AttrText<A>>(
    ctx: &'c Context<T, A>,
    id: &OpId,
) -> Option<&'c [Directive]>
    ensures { option_map (λ ds. directives_of ds.now) result ≡ steps.custom_directives
        (format_of ctx.now.dialects (id_of id.now)) }
{
    let info = ctx.op_info(id)?;
    match &info.format {
        OpFormat::Canonical => None,
        OpFormat::Custom(directives) => Some(directives),
    }
}

/// Whether an operation is printed in the canonical form. An operation that is not registered is not.
pub fn is_canonical<T: IrText<A>, A: AttrText<A>>(ctx: &Context<T, A>, op: Ptr<Operation>) -> bool
    requires live { IsSome (operation ctx.now op) }
    ensures { result ≡ heads.is_canonical_at T.IrText.own A.IrText.own A.AttrText.own A.eq ctx.now op }
{
    match ctx.op_info(op.get_opid(ctx)) {
        Some(info) => matches!(info.format, OpFormat::Canonical),
        None => false,
    }
}
