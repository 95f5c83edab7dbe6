//! The types of values as the graph stores them, as `Option`: `None` is the type of a placeholder, which is not known.
ghost use Rattle.std.specs.Prelude.{◌≡◌, IfOk, Err};
ghost use Rattle.irtext_context.specs.Context.{known};

use irtext_few::{Few, Items};
use irtext_memory::{OutOfMemory, vec};
use std::alloc::Global;

/// Wraps each type of a vector in `Some`.
#[inline(never)]
fn many_known_types<T: Drop>(alloc: Global, types: Vec<T>) -> Result<Vec<Option<T>>, OutOfMemory>
    ensures { IfOk result (λ all. all.items ≡ known types.items) }
{
    let mut all = vec::with_capacity_of(alloc, types.len(), &types)?;
    for of_type in types {
        vec::push(&mut all, Some(of_type))?;
    }
    Ok(all)
}

/// Wraps each type in `Some`. It allocates nothing for up to two types.
#[inline(always)]
pub(crate) fn known_types<T: Drop>(
    alloc: Global,
    types: Few<T>,
) -> Result<Few<Option<T>>, OutOfMemory>
    ensures { IfOk result (λ all. all ≡ known types) }
{
    match types.into_items() {
        Items::Nothing => Ok(Few::none()),
        Items::One(only) => Ok(Few::one(Some(only))),
        Items::Two(first, second) => Ok(Few::two(Some(first), Some(second))),
        Items::Many(types) => Ok(Few::from_vec(many_known_types(alloc, types)?)),
    }
}

/// Returns the error of a call whose other argument is not used. It drops the value: a function with many parts of a value at its exits
/// takes long to be proved.
pub(crate) fn failed<X: Drop, Y, E>(_unused: X, error: E) -> Result<Y, E>
    ensures { result ≡ Err error }
{
    Err(error)
}
