//! Lists of what a call returns for each number below a count.
ghost use Rattle.std.specs.Prelude.{◌<◌, ℕ, IfOk};
ghost use Rattle.irtext_graph_queries.specs.Lists.{AreEach};

use irtext_memory::{OutOfMemory, vec};
use std::alloc::Global;

/// Returns what the call on these two returns for each number below the count, in order. Fails only when out of memory.
pub(crate) fn listed<P: Copy, Q: Copy, X: Drop, F: Fn(P, Q, usize) -> X>(
    alloc: Global,
    p: P,
    q: Q,
    count: usize,
    item: F,
) -> Result<Vec<X>, OutOfMemory>
    requires { (i : ℕ) → i < count → F.pre item p q i }
    ensures { IfOk result (λ all. AreEach (F.post item p q) count all.items) }
{
    let mut all = vec::with_capacity(alloc, count.min(16))?;
    for i in 0..count {
        vec::push(&mut all, item(p, q, i))?;
    }
    Ok(all)
}
