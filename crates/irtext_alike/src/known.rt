//! Whether two contexts know one operation alike.
ghost use Rattle.std.specs.Prelude.{◌≡◌, IfSome, IfNone, option_map};
ghost use Rattle.irtext_context.specs.Dialects.{known_of};
ghost use Rattle.irtext_context.specs.DialectTable.{registered};
ghost use Rattle.irtext_alike.specs.First.{IsUnlike};

use crate::format::is_same_format;
use crate::unlike::Unlike;
use irtext_base::base::OpId;
use irtext_base::text::{AttrText, IrText};
use irtext_context::base::Context;
use irtext_context::dialect::OpInfo;

/// How what two contexts record of an operation differs, if it does.
fn unlike_infos(here: &OpInfo, there: &OpInfo) -> Option<Unlike>
    ensures alike { IfNone result (known_of there.now ≡ known_of here.now) }
    ensures unlike { IfSome result (IsUnlike (Some (known_of here.now)) (Some (known_of there.now))) }
{
    if !is_same_format(&here.format, &there.format) {
        return Some(Unlike::OtherFormat);
    }
    if here.isolated != there.isolated {
        return Some(Unlike::OtherIsolation);
    }
    None
}

/// How another context knows the operation with this id otherwise, or `None` if both know it alike: it is registered with neither, or with
/// both, with the same format and isolation. It allocates nothing. Its time grows with the length of the format.
pub fn unlike_id<T: IrText<A>, A: AttrText<A>>(
    ctx: &Context<T, A>,
    id: &OpId,
    other: &Context<T, A>,
) -> Option<Unlike>
    ensures alike { IfNone result (registered other.now.dialects id.now ≡ registered ctx.now.dialects id.now) }
    ensures unlike { IfSome result (IsUnlike (registered ctx.now.dialects id.now)
        (registered other.now.dialects id.now)) }
{
    match ctx.op_info(id) {
        Some(here) => match other.op_info(id) {
            Some(there) => unlike_infos(here, there),
            None => Some(Unlike::Unregistered),
        },
        None => match other.op_info(id) {
            Some(_) => Some(Unlike::RegisteredThere),
            None => None,
        },
    }
}
