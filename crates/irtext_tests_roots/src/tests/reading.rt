//! What the tests of roots share: roots are parsed and printed, with a context that is passed in.
ghost use Rattle.std.specs.Prelude.{IfOk, IfSome, IsSome};
ghost use Rattle.irtext_context.specs.Context.{operation};

use irtext_base::result::Result as Answer;
use irtext_context::base::{Operation, Ptr};
use irtext_demo::DemoAttr;
use irtext_parse_root::outermost::outermost_parse;
use irtext_parse_root::parsable::parse_from_str;
use irtext_print_ir::ir::print::OpObj;
use irtext_print_ir::printable::Disp;
use irtext_tests_common::building::live;
use irtext_tests_common::contexts::Ctx;
use std::alloc::Global;
use std::test::Fail;

/// The root that a text is parsed as, or the error.
pub(crate) fn read_root(ctx: &mut Ctx, text: &str) -> Answer<Ptr<Operation>, DemoAttr>
    ensures { IfOk result (λ root. IsSome (operation ctx.new root)) }
{
    parse_from_str(|s| outermost_parse(s, true), ctx, text)
}

/// The root that a text is parsed as, or `None` on an error.
pub(crate) fn root(ctx: &mut Ctx, text: &str) -> Option<Ptr<Operation>>
    ensures { IfSome result (λ root. IsSome (operation ctx.new root)) }
{
    read_root(ctx, text).ok()
}

/// The whole text of a root, if it is live.
pub(crate) fn whole(alloc: Global, ctx: &Ctx, root: Ptr<Operation>) -> Result<String, Fail> {
    live(ctx, root)?;
    Ok(format!(in alloc; "{}", root.disp(ctx))?)
}

/// The concrete text of a root, if it is live.
pub(crate) fn concrete(alloc: Global, ctx: &Ctx, root: Ptr<Operation>) -> Result<String, Fail> {
    live(ctx, root)?;
    Ok(format!(in alloc; "{}", OpObj { op: root }.disp(ctx))?)
}
