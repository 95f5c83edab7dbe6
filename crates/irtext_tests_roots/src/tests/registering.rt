//! What a caller knows about a context once the reference to the dialect with which an operation was registered is dropped.
ghost use Rattle.std.specs.Prelude.{◌≡◌, ◌⊎◌, OnOk, OnErr};
ghost use Rattle.irtext_context.specs.Dialects.{with_op};
ghost use Rattle.irtext_context.specs.DialectTable.{dialect_or_new, with_dialect};
ghost use Rattle.irtext_base.specs.FormatViews.{format_of};

use irtext_base::base::OpId;
use irtext_base::format::OpFormat;
use irtext_base::result;
use irtext_base::text::{AttrText, IrText};
use irtext_context::base::Context;
use irtext_context::dialect::{Dialect, DialectName};

/// Registers an operation with the dialect of a name, which is registered first if there is none. If the operation is
/// rejected the dialect stays registered, unchanged.
pub(crate) fn register_operation<T: IrText<A>, A: AttrText<A>>(
    ctx: &mut Context<T, A>,
    name: &DialectName,
    id: OpId,
    format: OpFormat,
    isolated: bool,
) -> result::Result<(), A>
    ensures ok { OnOk result (ctx.new ≡ record ctx.old {
      dialects = with_dialect ctx.old.dialects name.now
          (with_op (dialect_or_new ctx.old.dialects name.now) id (format_of format) isolated);
    }) }
    ensures err { OnErr result ((ctx.new ≡ ctx.old) ⊎
        (ctx.new ≡ record ctx.old {
          dialects = with_dialect ctx.old.dialects name.now
              (dialect_or_new ctx.old.dialects name.now);
        })) }
{
    match Dialect::register(ctx, name) {
        Ok(dialect) => dialect.add_op(id, format, isolated),
        Err(error) => {
            drop(id);
            drop(format);
            Err(error)
        }
    }
}
