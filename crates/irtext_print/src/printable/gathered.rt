//! The items that a printing state gathered, in the order of their marks. Only printers call these.
ghost use Rattle.std.specs.Prelude.{◌≡◌, ◌==◌, [], length, not};
ghost use Rattle.irtext_print.specs.Printers.Printing.{gathered_of, with_gathered};

use crate::printable::state::State;
use irtext_context::base::Item;
use std::alloc::Global;

/// Takes the gathered items out of the state.
pub fn take_gathered<U>(state: &mut State<U>, alloc: Global) -> Vec<Item>
    ensures taken { result.items ≡ gathered_of state.old }
    ensures left { state.new ≡ with_gathered state.old [] }
{
    std::mem::replace(&mut state.gathered, Vec::new(alloc))
}

/// Puts these in place of the gathered items.
pub fn put_gathered<U>(state: &mut State<U>, items: Vec<Item>)
    ensures { state.new ≡ with_gathered state.old items.items }
{
    state.gathered = items;
}

/// Whether items were gathered.
pub fn has_gathered<U>(state: &State<U>) -> bool
    ensures { result ≡ not (length (gathered_of state.now) == 0) }
{
    !state.gathered.is_empty()
}
