//! Names by their numbers.

/// A name that was parsed. It has a number in the parser's table of names.
pub trait Named {
    ghost use Rattle.std.specs.Prelude.{◌≡◌, ℕ};

    // the number of the name
    ghost numbered: { Self → ℕ };

    /// Returns the number of the name.
    fn number(&self) -> usize
        ensures { result ≡ numbered self.now };
}
