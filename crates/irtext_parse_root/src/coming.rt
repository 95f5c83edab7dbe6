//! What comes next in an open operation, according to its format.
ghost use Rattle.std.specs.Prelude.{◌≡◌, ◌≢◌, ◌+◌, false, length, slice_get, IsSome, IfSome};
ghost use Rattle.irtext_base.specs.Faults.{id_of};
ghost use Rattle.irtext_grammar.specs.Contexts.Formats.{isolated};
ghost use Rattle.irtext_grammar.specs.Reached.{steps_in};
ghost use Rattle.irtext_parse_pieces.specs.Coming.{IsStep};
ghost use Rattle.irtext_parse_pieces.specs.declared.coming.Coming.TheVariants as comes;
ghost use Rattle.irtext_parse_root.specs.Turns.{IsNext};

use irtext_base::text::{AttrText, IrText};
use irtext_context::base::Context;
use irtext_parse_nested::frame::BegunOperation;
use irtext_parse_pieces::coming::{Coming, kind_of};
use irtext_parse_pieces::steps::step_at;

/// What comes next in an operation, whether the operation is isolated from above, and the index of the step after it.
#[derive(Clone, Copy)]
pub struct Next {
    pub coming: Coming,
    pub isolated: bool,
    pub following: usize,
}

/// Nothing of the operation is left but its end.
fn ended(step: usize) -> Next
    ensures { result ≡ record { coming = comes.End; isolated = false; following = step } }
{
    Next {
        coming: Coming::End,
        isolated: false,
        following: step,
    }
}

/// Returns what comes next in an open operation. The format is looked up only at a step after the first region.
pub(crate) fn next_turn<T: IrText<A>, A: AttrText<A>>(
    ctx: &Context<T, A>,
    begun: &BegunOperation,
) -> Next
    requires counted { begun.now.steps ≡ length (steps_in ctx.now.dialects (id_of begun.now.id)) }
    requires coming { IfSome begun.now.coming
        (λ next. IsStep next (slice_get (steps_in ctx.now.dialects (id_of begun.now.id)) begun.now.step)) }
    requires isolated { begun.now.isolated ≡ isolated ctx.now.dialects (id_of begun.now.id) }
    ensures next { IsNext ctx.now.dialects begun.now result.coming }
    ensures isolated { result.coming ≢ comes.End → result.isolated ≡ isolated ctx.now.dialects
        (id_of begun.now.id) }
    ensures following { IsSome (slice_get (steps_in ctx.now.dialects (id_of begun.now.id)) begun.now.step)
        → result.following ≡ begun.now.step + 1 }
{
    if begun.steps <= begun.step {
        return ended(begun.step);
    }
    if let Some(coming) = begun.coming {
        return Next {
            coming,
            isolated: begun.isolated,
            following: begun.step + 1,
        };
    }
    let Some(info) = ctx.op_info(&begun.id) else {
        return ended(begun.step);
    };
    match step_at(&info.format, begun.step) {
        Some(step) => Next {
            coming: kind_of(step),
            isolated: info.isolated,
            following: begun.step + 1,
        },
        None => ended(begun.step),
    }
}
