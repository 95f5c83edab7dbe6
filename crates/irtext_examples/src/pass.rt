//! A pass: it goes through all operations of a root, and doubles each number that is the value of an `arith.constant`.
ghost use Rattle.std.specs.Prelude.{IfSome, IsSome};
ghost use Rattle.irtext_context.specs.Context.{operation};
ghost use Rattle.irtext_examples.specs.Pass.{ChangesAttributes};

use crate::ir::{Answer, ArithAttr, ArithType, Ir, VALUE_KEY, value_attr};
use irtext_arith::attributes::ValueText;
use irtext_syntax::part::TryClone;
use pliron_text::base::{
    AttrObj, Identifier, NestedOperations, Operation, OperationAccess, Ptr, TryAccess,
};
use pliron_text::verify_err;

/// Returns the value of an `arith.constant`, a number and its type, or `None` for any other operation.
fn constant(ctx: &Ir, op: Ptr<Operation>) -> Option<&ValueText<ArithType>>
    ensures { IfSome result (λ _. IsSome (operation ctx.now op)) }
{
    if !op.is_op(ctx, "arith", "constant") {
        return None;
    }
    match op.attributes(ctx).get_str(VALUE_KEY)? {
        AttrObj::Own(ArithAttr::Value(value)) => Some(value),
        _ => None,
    }
}

/// Doubles the number of an operation, if it is an `arith.constant`. If twice the number does not fit in 64 bits, that is an error at the
/// operation's location. On an error the context is unchanged.
#[tactic(auto, using(crate::proofs::Changes::unchanged))]
fn double(ctx: &mut Ir, op: Ptr<Operation>) -> Answer<()>
    ensures { ChangesAttributes ctx.old ctx.new }
{
    let alloc = ctx.allocator();
    let Some(value) = constant(ctx, op) else {
        return Ok(());
    };
    let number = value.inside.first.get();
    let of_type = value.inside.second.value.try_clone()?;
    let Some(twice) = number.checked_mul(2) else {
        let loc = op.loc(ctx).try_clone(alloc)?;
        return verify_err!(loc, in alloc; "twice {number} is not a number of 64 bits");
    };
    let key = Identifier::try_new(alloc, VALUE_KEY)?;
    op.set_attribute(ctx, key, value_attr(twice, of_type))?;
    Ok(())
}

/// Doubles each number that is the value of an `arith.constant` in the root. Nothing but attributes changes. If twice a number does not
/// fit in 64 bits, that is an error at the operation's location; the numbers before it are doubled then.
#[tactic(auto, using(irtext_context::proofs::Parts::seen_is_live, crate::proofs::Changes::unchanged, crate::proofs::Changes::changed_again))]
pub fn double_all(ctx: &mut Ir, root: Ptr<Operation>) -> Answer<()>
    requires { IsSome (operation ctx.old root) }
    ensures { ChangesAttributes ctx.old ctx.new }
{
    for op in root.all_operations(ctx)? {
        double(ctx, op)?;
    }
    Ok(())
}
