//! A caller of `knows_root`, of `check_closed` and of `printed_and_read` that is proved by their contracts alone: a root is checked, printed,
//! and parsed back in another context that knows its operations alike.
ghost use Rattle.std.specs.Prelude.{◌≡◌, IfOk, IfErr};
ghost use Rattle.irtext_closed.specs.Closed.{IsClosedRoot};
ghost use Rattle.irtext_closed.specs.First.{IsFirstReason};
ghost use Rattle.irtext_print.specs.Printers.Appended.{fresh};
ghost use Rattle.irtext_print.specs.declared.printable.RegionPrintDepthLimit.TheVariants.{Unlimited};
ghost use Rattle.irtext_alike.specs.Alike.{KnowsRoot};
ghost use Rattle.irtext_alike.specs.First.{IsFirstUnlike};
ghost use Rattle.pliron_text.specs.Calls.{IsExcused};
ghost use Rattle.irtext_tests_roots.specs.Carried.{ComesOver};

use pliron_text::base::{Context, Operation, Ptr};
use pliron_text::ir::{NotClosed, UnlikeOperation, check_closed, knows_root};
use pliron_text::laws::closed::limit_that_shows_all;
use pliron_text::laws::two_calls::{NotBack, printed_and_read};
use pliron_text::printable::State;
use pliron_text::text::{AttrText, IrText};

/// Brings a closed root over.
fn closed_over<T: IrText<A>, A: AttrText<A>>(
    ctx: &Context<T, A>,
    op: Ptr<Operation>,
    layout: &State<()>,
    other: &mut Context<T, A>,
) -> Result<Ptr<Operation>, NotBack<A>>
    requires closed { IsClosedRoot ctx.now op }
    requires known { KnowsRoot ctx.now other.old.dialects op }
    requires unlimited { layout.now.limit ≡ Unlimited }
    ensures over { IfOk result (λ q. ComesOver T.IrText.own A.IrText.own A.AttrText.own A.eq ctx.now op
        (fresh layout.now.width layout.now.indent layout.now.limit) other.old q other.new) }
    ensures behind { IfErr result (IsExcused T.IrText.own A.IrText.own A.AttrText.own A.eq ctx.now op
        (fresh layout.now.width layout.now.indent layout.now.limit)) }
{
    limit_that_shows_all::<T, A>();
    printed_and_read(ctx, op, layout, other)
}

/// Brings a root into another context that knows its operations alike, if it is closed. What is there then is equal to it up to fillings,
/// uses inside included. An error says why the root is not closed; one inside says that an operation does not fit its format, that an
/// indentation does not fit 16 bits, or that there was no memory.
pub(crate) fn carried<T: IrText<A>, A: AttrText<A>>(
    ctx: &Context<T, A>,
    op: Ptr<Operation>,
    layout: &State<()>,
    other: &mut Context<T, A>,
) -> Result<Result<Ptr<Operation>, NotBack<A>>, NotClosed>
    requires known { KnowsRoot ctx.now other.old.dialects op }
    requires unlimited { layout.now.limit ≡ Unlimited }
    ensures over { IfOk result (λ answer. IfOk answer (λ q. ComesOver T.IrText.own A.IrText.own A.AttrText.own A.eq ctx.now op
        (fresh layout.now.width layout.now.indent layout.now.limit) other.old q other.new)) }
    ensures behind { IfOk result (λ answer. IfErr answer (IsExcused T.IrText.own A.IrText.own A.AttrText.own A.eq ctx.now op
        (fresh layout.now.width layout.now.indent layout.now.limit))) }
    ensures open { IfErr result (IsFirstReason ctx.now op) }
{
    check_closed(ctx, op)?;
    Ok(closed_over(ctx, op, layout, other))
}

/// What `carried` returns.
pub(crate) type Carried<A> = Result<Result<Ptr<Operation>, NotBack<A>>, NotClosed>;

/// Brings a root into any other context, if it is closed and the other context knows its operations alike. An error says which operation
/// it knows otherwise; one inside is what `carried` returns.
pub(crate) fn carried_if_known<T: IrText<A>, A: AttrText<A>>(
    ctx: &Context<T, A>,
    op: Ptr<Operation>,
    layout: &State<()>,
    other: &mut Context<T, A>,
) -> Result<Carried<A>, UnlikeOperation>
    requires unlimited { layout.now.limit ≡ Unlimited }
    ensures over { IfOk result (λ inner. IfOk inner (λ answer. IfOk answer (λ q. ComesOver T.IrText.own A.IrText.own A.AttrText.own A.eq
        ctx.now op (fresh layout.now.width layout.now.indent layout.now.limit) other.old q other.new))) }
    ensures behind { IfOk result (λ inner. IfOk inner (λ answer. IfErr answer (IsExcused T.IrText.own A.IrText.own A.AttrText.own A.eq
        ctx.now op (fresh layout.now.width layout.now.indent layout.now.limit)))) }
    ensures open { IfOk result (λ inner. IfErr inner (IsFirstReason ctx.now op)) }
    ensures unlike { IfErr result (IsFirstUnlike ctx.now other.old.dialects op) }
{
    knows_root(ctx, op, other)?;
    Ok(carried(ctx, op, layout, other))
}
