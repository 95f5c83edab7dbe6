//! The hunks of a unified diff: changes with the lines around them.

use crate::changes::Change;

/// How many lines are shown before and after a change.
pub const CONTEXT: usize = 3;

impl Change {
    /// The index of the old list after the change.
    pub fn old_end(&self) -> usize {
        self.old_at.saturating_add(self.removed)
    }

    /// The index of the new list after the change.
    pub fn new_end(&self) -> usize {
        self.new_at.saturating_add(self.added)
    }
}

/// Whether a change is shown in the same hunk as the one before it, since what is shown around them meets.
pub fn is_near(before: &Change, next: &Change) -> bool {
    next.old_at.saturating_sub(before.old_end()) <= 2 * CONTEXT
}

/// Returns how many changes the first hunk has.
pub fn hunk_len(changes: &[Change]) -> usize {
    let apart = changes.windows(2).position(|pair| match pair {
        [before, next] => !is_near(before, next),
        _ => false,
    });
    match apart {
        Some(index) => index.saturating_add(1),
        None => changes.len(),
    }
}
