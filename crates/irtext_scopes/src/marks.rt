//! Where the open scopes begin in the vector of bindings. The outermost mark is stored in place, so one scope needs no allocation here.
ghost use Rattle.std.specs.Prelude.{◌≡◌, ◌++◌, ◌∷◌, [], reverse, option_to_list, OnOk, OnErr, IfNone};
ghost use Rattle.irtext_scopes.specs.Bindings.{first};

use irtext_memory::{OutOfMemory, vec};
use std::alloc::Global;
use std::marker::Model;

/// The marks of the open scopes, from the outermost to the innermost. Here a mark is the index at which the bindings of a scope begin; the
/// marks of a text are something else.
#[derive(Drop)]
pub(crate) struct Marks {
    outermost: Option<usize>,
    // the marks of the scopes inside the outermost one
    inner: Vec<usize>,
}

impl Model for Marks {
    ghost use Rattle.std.specs.Prelude.{ℕ, List, ◌++◌, option_to_list};

    ghost Value = { List ℕ };

    ghost view = { λ m. option_to_list m.outermost ++ m.inner.items };
}

impl Marks {
    /// Returns the marks of no scope. It allocates nothing yet.
    pub(crate) fn new(alloc: Global) -> Marks
        ensures { result ≡ [] }
    {
        Marks {
            outermost: None,
            inner: Vec::new(alloc),
        }
    }

    /// Adds the mark of a scope inside the innermost one. Only a scope inside another needs an allocation. If that fails, the marks are
    /// unchanged.
    pub(crate) fn push(&mut self, mark: usize) -> Result<(), OutOfMemory>
        ensures ok { OnOk result (self.new ≡ self.old ++ mark ∷ []) }
        ensures err { OnErr result (self.new ≡ self.old) }
    {
        if self.outermost.is_none() && self.inner.is_empty() {
            self.outermost = Some(mark);
            return Ok(());
        }
        vec::push(&mut self.inner, mark)?;
        Ok(())
    }

    /// Removes and returns the mark of the innermost scope, or returns `None` if no scope is open.
    pub(crate) fn pop(&mut self) -> Option<usize>
        ensures marks { self.old ≡ self.new ++ option_to_list result }
        ensures none { IfNone result (self.old ≡ []) }
    {
        if let Some(mark) = self.inner.pop() {
            return Some(mark);
        }
        self.outermost.take()
    }

    /// Returns the mark of the innermost scope, or `None` if no scope is open.
    pub(crate) fn last(&self) -> Option<usize>
        ensures { result ≡ first (reverse self.now) }
    {
        if self.inner.is_empty() {
            self.outermost
        } else {
            Some(self.inner[self.inner.len() - 1])
        }
    }
}
