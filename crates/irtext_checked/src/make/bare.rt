//! Making registered operations without results, operands and successors.
ghost use Rattle.std.specs.Prelude.{[], IfOk, IfErr};
ghost use Rattle.irtext_context.specs.Made.{MakesRegistered, MakesWithRegions};
ghost use Rattle.irtext_checked.specs.Checked.{RefusesRegistered};

use crate::make::NewOperation;
use irtext_base::base::OpId;
use irtext_base::result;
use irtext_base::text::{AttrText, IrText};
use irtext_context::base::{Context, Operation, Ptr};
use irtext_few::Few;

/// Makes operations without results, operands and successors.
pub trait NewBareOperation {
    /// Makes an operation with `num_regions` empty regions. It has no results, operands, successors and attributes, and its location is
    /// `Unknown`. Fails with `UnregisteredDialect` or `UnregisteredOp` if the operation is not registered, else with `Memory` if an
    /// allocation fails or a counter is at its limit. The error is of kind invalid argument and has no location, and all objects are
    /// unchanged.
    fn new<T: IrText<A>, A: AttrText<A>>(
        ctx: &mut Context<T, A>,
        id: OpId,
        num_regions: usize,
    ) -> result::Result<Ptr<Operation>, A>
        ensures made { IfOk result (λ op. MakesWithRegions num_regions ctx.old ctx.new op id [] [] []) }
        ensures registered { MakesRegistered id result ctx.old ctx.new }
        ensures refused { IfErr result (λ e. RefusesRegistered ctx.old id e.err) }
    {
        <Operation as NewOperation>::new(ctx, id, Few::none(), &[], &[], num_regions)
    }
}

impl NewBareOperation for Operation {}
