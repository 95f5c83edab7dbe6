//! The changes that turn one list of lines into another.
ghost use Rattle.std.specs.Prelude.{◌≡◌, ◌↔◌, ◌+◌, ◌-◌, ◌≤◌, ◌<◌, ◌^◌, IfOk, OnOk, IsTrue, length};
ghost use Rattle.irtext_diff.specs.Changes.{AreChanges, Leads, Line, SameLines};
ghost use Rattle.std.specs.Prelude.{List};
ghost use Rattle.std.specs.Borrow.{Bor};

use crate::unique::{Pair, unique_pairs};
use std::alloc::{AllocError, Global};

/// A change: so many lines of the old list from an index on give way to so many of the new list from an index on.
#[derive(Clone, Copy, Debug, PartialEq, Eq)]
pub struct Change {
    pub old_at: usize,
    pub removed: usize,
    pub new_at: usize,
    pub added: usize,
}

/// Whether the lines with these indices are the same.
fn is_same(old: &[&str], new: &[&str], at: Pair) -> bool
    requires of_old { at.old < length old.now }
    requires of_new { at.new < length new.now }
    ensures { IsTrue result ↔ SameLines old.now new.now at.old at.new 1 }
{
    old[at.old] == new[at.new]
}

/// Returns how many lines from these indices on are the same in both lists, at most so many.
fn common_front(old: &[&str], new: &[&str], from: Pair, most: usize) -> usize
    requires of_old { from.old + most ≤ length old.now }
    requires of_new { from.new + most ≤ length new.now }
    ensures most { result ≤ most }
    ensures same { SameLines old.now new.now from.old from.new result }
{
    for count in 0..most {
        let at = Pair {
            old: from.old + count,
            new: from.new + count,
        };
        if !is_same(old, new, at) {
            return count;
        }
    }
    most
}

/// Returns how many lines before these indices are the same in both lists, at most so many.
fn common_back(old: &[&str], new: &[&str], to: Pair, most: usize) -> usize
    requires of_old { (most ≤ to.old) }
    requires of_new { (most ≤ to.new) }
    requires old_end { to.old ≤ length old.now }
    requires new_end { to.new ≤ length new.now }
    ensures most { result ≤ most }
    ensures same { SameLines old.now new.now (to.old - result) (to.new - result) result }
{
    for count in 0..most {
        let at = Pair {
            old: to.old - count - 1,
            new: to.new - count - 1,
        };
        if !is_same(old, new, at) {
            return count;
        }
    }
    most
}

/// The changes up to a place in both lists.
#[derive(Drop)]
struct Walk {
    changes: Vec<Change>,
    at: Pair,
}

impl Walk {
    /// Passes lines that are the same in both lists.
    fn keep(&mut self, count: usize)
        requires fits_old { self.old.at.old + count < 2 ^ 64 }
        requires fits_new { self.old.at.new + count < 2 ^ 64 }
        ensures at { self.new.at ≡ record { old = self.old.at.old + count; new = self.old.at.new + count } }
        ensures leads { (old new : List (Bor Line)) → SameLines old new self.old.at.old self.old.at.new count
            → Leads old new 0 0 self.old.changes.items self.old.at.old self.old.at.new
            → Leads old new 0 0 self.new.changes.items self.new.at.old self.new.at.new }
    {
        self.at = Pair {
            old: self.at.old + count,
            new: self.at.new + count,
        };
    }

    /// Passes lines up to these indices, of which none is kept.
    fn replace(&mut self, to: Pair) -> Result<(), AllocError>
        requires after_old { self.old.at.old ≤ to.old }
        requires after_new { self.old.at.new ≤ to.new }
        ensures at { OnOk result (self.new.at ≡ to) }
        ensures leads { OnOk result ((old new : List (Bor Line))
            → Leads old new 0 0 self.old.changes.items self.old.at.old self.old.at.new
            → Leads old new 0 0 self.new.changes.items self.new.at.old self.new.at.new) }
    {
        let at = self.at;
        if at == to {
            return Ok(());
        }
        self.changes.push(Change {
            old_at: at.old,
            removed: to.old - at.old,
            new_at: at.new,
            added: to.new - at.new,
        })?;
        self.at = to;
        Ok(())
    }

    /// Passes both lists up to these indices: what the parts begin and end with alike is kept, and the lines between give way.
    fn pass(&mut self, old: &[&str], new: &[&str], to: Pair) -> Result<(), AllocError>
        requires after_old { self.old.at.old ≤ to.old }
        requires after_new { self.old.at.new ≤ to.new }
        requires old_end { to.old ≤ length old.now }
        requires new_end { to.new ≤ length new.now }
        ensures at { OnOk result (self.new.at ≡ to) }
        ensures leads { OnOk result (Leads old.now new.now 0 0 self.old.changes.items self.old.at.old self.old.at.new
            → Leads old.now new.now 0 0 self.new.changes.items self.new.at.old self.new.at.new) }
    {
        let most = (to.old - self.at.old).min(to.new - self.at.new);
        let front = common_front(old, new, self.at, most);
        self.keep(front);
        let back = common_back(old, new, to, most - front);
        self.replace(Pair {
            old: to.old - back,
            new: to.new - back,
        })?;
        self.keep(back);
        Ok(())
    }

    /// Passes both lists up to two lines and these lines, if they lie ahead and are the same.
    fn pass_pair(&mut self, old: &[&str], new: &[&str], pair: Pair) -> Result<(), AllocError>
        requires of_old { self.old.at.old ≤ length old.now }
        requires of_new { self.old.at.new ≤ length new.now }
        ensures old_end { OnOk result (self.new.at.old ≤ length old.now) }
        ensures new_end { OnOk result (self.new.at.new ≤ length new.now) }
        ensures leads { OnOk result (Leads old.now new.now 0 0 self.old.changes.items self.old.at.old self.old.at.new
            → Leads old.now new.now 0 0 self.new.changes.items self.new.at.old self.new.at.new) }
    {
        let is_ahead = self.at.old <= pair.old && self.at.new <= pair.new;
        if !is_ahead || old.len() <= pair.old || new.len() <= pair.new {
            return Ok(());
        }
        if !is_same(old, new, pair) {
            return Ok(());
        }
        self.pass(old, new, pair)?;
        self.keep(1);
        Ok(())
    }
}

/// Returns the changes that turn the old lines into the new ones, in their order. Lines that occur once in each list, in the same order, are
/// kept, and so is what the parts between them begin and end with alike. Fails only if an allocation fails. The time is `n log n` in the
/// number of lines.
pub fn find_changes(alloc: Global, old: &[&str], new: &[&str]) -> Result<Vec<Change>, AllocError>
    ensures { IfOk result (λ changes. AreChanges old.now new.now changes.items) }
{
    let pairs = unique_pairs(alloc, old, new)?;
    let mut walk = Walk {
        changes: Vec::new(alloc),
        at: Pair { old: 0, new: 0 },
    };
    for pair in pairs.as_slice() {
        walk.pass_pair(old, new, *pair)?;
    }
    let end = Pair {
        old: old.len(),
        new: new.len(),
    };
    walk.pass(old, new, end)?;
    Ok(walk.changes)
}
