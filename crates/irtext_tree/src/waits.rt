//! What comes after the text of one head of a tree.

/// The places that come after the text of one head, in the order of the text: none, one, or one and after it another. After `my.array <4, `
/// a type and then `>` come, and after `my.ptr` nothing.
#[derive(Clone, Copy, PartialEq, Eq, Hash, Debug)]
pub enum Waits<S> {
    /// Nothing: the text of the head is complete.
    Nothing,
    /// One place.
    One(S),
    /// A place, and after it another.
    Two(S, S),
}

impl<S> Waits<S> {
    ghost use Rattle.std.specs.Prelude.{◌≡◌};
    ghost use Rattle.irtext_tree.specs.Rows.{count};

    /// Returns how many places wait.
    pub(crate) fn count(&self) -> usize
        ensures { result ≡ count self.now }
    {
        match self {
            Waits::Nothing => 0,
            Waits::One(_) => 1,
            Waits::Two(_, _) => 2,
        }
    }
}
