//! Whether two contexts know all operations alike.
ghost use Rattle.std.specs.Prelude.{◌↔◌, IsTrue};
ghost use Rattle.irtext_alike.specs.Alike.{KnowAlike};
ghost use Rattle.irtext_alike.specs.Each.{KnowsAt, KnowsTable, KnowsTableAt, KnowsEach};

use crate::known::unlike_id;
use irtext_base::text::{AttrText, IrText};
use irtext_context::base::Context;
use irtext_context::dialect::Dialect;

/// Whether another context knows the operation at an index of a dialect as a first one does. True if there is none at this index.
fn knows_op<T: IrText<A>, A: AttrText<A>>(
    ctx: &Context<T, A>,
    dialect: &Dialect,
    index: usize,
    other: &Context<T, A>,
) -> bool
    ensures { IsTrue result ↔ KnowsAt ctx.now.dialects other.now.dialects dialect.now.entries index }
{
    match dialect.op_by_index(index) {
        Some((id, _)) => unlike_id(ctx, id, other).is_none(),
        None => true,
    }
}

/// Whether another context knows each operation of a dialect as a first one does.
fn knows_dialect<T: IrText<A>, A: AttrText<A>>(
    ctx: &Context<T, A>,
    dialect: &Dialect,
    other: &Context<T, A>,
) -> bool
    ensures { IsTrue result ↔ KnowsTable ctx.now.dialects other.now.dialects dialect.now }
{
    for index in 0..dialect.num_ops() {
        if !knows_op(ctx, dialect, index, other) {
            return false;
        }
    }
    true
}

/// Whether another context knows each operation of the dialect at an index as a first one does. True if there is none at this index.
fn knows_dialect_at<T: IrText<A>, A: AttrText<A>>(
    ctx: &Context<T, A>,
    index: usize,
    other: &Context<T, A>,
) -> bool
    ensures { IsTrue result ↔ KnowsTableAt ctx.now.dialects other.now.dialects index }
{
    match ctx.dialect_by_index(index) {
        Some(dialect) => knows_dialect(ctx, dialect, other),
        None => true,
    }
}

/// Whether another context knows each operation that is registered with a first one alike.
fn knows_each<T: IrText<A>, A: AttrText<A>>(ctx: &Context<T, A>, other: &Context<T, A>) -> bool
    ensures { IsTrue result ↔ KnowsEach ctx.now.dialects other.now.dialects }
{
    for index in 0..ctx.num_dialects() {
        if !knows_dialect_at(ctx, index, other) {
            return false;
        }
    }
    true
}

/// Whether two contexts know all operations alike: each operation is registered with neither, or with both, with the same format and
/// isolation. In which order dialects and operations were registered does not matter, nor does a dialect without operations. Then any closed
/// root of the one is parsed back from its text in the other; `knows_root` asks that for one root alone. It allocates nothing. Its time
/// grows with the lengths of the formats of all operations.
pub fn same_dialects<T: IrText<A>, A: AttrText<A>>(a: &Context<T, A>, b: &Context<T, A>) -> bool
    ensures { IsTrue result ↔ KnowAlike a.now.dialects b.now.dialects }
{
    let there = knows_each(a, b);
    let back = knows_each(b, a);
    there && back
}
