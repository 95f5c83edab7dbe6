//! Which operations and blocks have a mark: those for which the section contains something.
ghost use Rattle.std.specs.Prelude.{◌≡◌, IsSome};
ghost use Rattle.irtext_context.specs.Context.{operation};
ghost use Rattle.irtext_context.specs.Context as context;
ghost use Rattle.irtext_print_ops.specs.Heads as heads;

use irtext_base::text::{AttrText, IrText};
use irtext_context::base::{BasicBlock, Context, Item, Operation, Ptr};
use irtext_print::given::is_marked;

/// Whether an operation has a mark: its location is known, or one of its attributes is outlined.
pub fn is_operation_marked<T: IrText<A>, A: AttrText<A>>(
    ctx: &Context<T, A>,
    op: Ptr<Operation>,
) -> bool
    requires live { IsSome (operation ctx.now op) }
    ensures { result ≡ heads.is_operation_marked T.IrText.own A.IrText.own A.AttrText.own A.eq ctx.now op }
{
    is_marked(ctx, Item::Operation(op))
}

/// Whether a block has a mark: it has a label, its location is known, or one of its attributes is outlined.
pub fn is_block_marked<T: IrText<A>, A: AttrText<A>>(
    ctx: &Context<T, A>,
    block: Ptr<BasicBlock>,
) -> bool
    requires live { IsSome (context.block ctx.now block) }
    ensures { result ≡ heads.is_block_marked T.IrText.own A.IrText.own A.AttrText.own A.eq ctx.now block }
{
    is_marked(ctx, Item::Block(block))
}
