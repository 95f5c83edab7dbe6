//! Guards: each holds a printing state as `&mut`, and restores its indentation or its limit when it is dropped.
ghost use Rattle.std.specs.Prelude.{◌≡◌, []};
ghost use Rattle.std.specs.Borrow.{sem, follows};
ghost use mir.Syntax.{named};
ghost use Rattle.irtext_print.specs.contracts.printable.state.State.{the_row};
ghost use Rattle.irtext_print.specs.contracts.printable.guards.IndentGuard as indent_guard;
ghost use Rattle.irtext_print.specs.contracts.printable.guards.RegionDepthGuard as depth_guard;
ghost use Rattle.irtext_print.specs.Printers.Printing.{with_indent, with_limit};

use crate::printable::state::{RegionPrintDepthLimit, State};
use std::ops::{Deref, DerefMut};

/// Restores the state's indentation when it is dropped.
pub struct IndentGuard<'a, U> {
    /// The state, at the deeper indentation.
    pub state: &'a mut State<U>,
    pub(crate) saved: u16,
}

/// Restores the state's depth limit when it is dropped.
pub struct RegionDepthGuard<'a, U> {
    /// The state, with the lower limit.
    pub state: &'a mut State<U>,
    pub(crate) saved: RegionPrintDepthLimit,
}

impl<U> Drop for IndentGuard<'_, U> {
    fn drop(self)
        ensures { self.exit.0.now ≡ with_indent self.entry.state.now self.entry.saved }
    {
        let IndentGuard { state, saved } = self;
        state.current_indent = saved;
    }
}

impl<U> Deref for IndentGuard<'_, U> {
    type Target = State<U>;

    ghost deref_gives = { λ p x. x ≡ p.state.now };

    fn deref(&self) -> &State<U>
        ensures { result.now ≡ self.now.state.now }
    {
        self.state
    }
}

impl<U> DerefMut for IndentGuard<'_, U> {
    ghost deref_mut_gives = { λ p x. x ≡ p.state.now };

    fn deref_mut(&mut self) -> &mut State<U>
        ensures* writes_back { sem 𝓛 (follows (indent_guard.the_row (record { mir = named 1; lft = [] })
            U.row) (the_row U.row)
            self.entry.ghost_name result.ghost_name (λ s. record self.old
            { state = record self.old.state { now = s } })) }
        ensures value { result.now ≡ self.old.state.now }
    {
        self.state
    }
}

impl<U> Drop for RegionDepthGuard<'_, U> {
    fn drop(self)
        ensures { self.exit.0.now ≡ with_limit self.entry.state.now self.entry.saved }
    {
        let RegionDepthGuard { state, saved } = self;
        state.limit = saved;
    }
}

impl<U> Deref for RegionDepthGuard<'_, U> {
    type Target = State<U>;

    ghost deref_gives = { λ p x. x ≡ p.state.now };

    fn deref(&self) -> &State<U>
        ensures { result.now ≡ self.now.state.now }
    {
        self.state
    }
}

impl<U> DerefMut for RegionDepthGuard<'_, U> {
    ghost deref_mut_gives = { λ p x. x ≡ p.state.now };

    fn deref_mut(&mut self) -> &mut State<U>
        ensures* writes_back { sem 𝓛 (follows (depth_guard.the_row (record { mir = named 1; lft = [] }) U.row)
            (the_row U.row)
            self.entry.ghost_name result.ghost_name (λ s. record self.old
            { state = record self.old.state { now = s } })) }
        ensures value { result.now ≡ self.old.state.now }
    {
        self.state
    }
}
