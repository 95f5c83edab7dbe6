//! Line and column numbers, and positions in a stream.
ghost use Rattle.std.specs.Prelude.{[], Some};
ghost use Rattle.irtext_stream.specs.Stream.{IsAt};

use std::fmt;
use std::hash::Hasher;

/// A line and a column. Both count from 1, columns in characters, and both are capped at `i32::MAX`.
#[derive(Clone, Copy, PartialEq, Eq, Hash, Debug)]
pub struct SourcePosition {
    /// From 1.
    pub line: i32,
    /// From 1, in characters.
    pub column: i32,
}

impl SourcePosition {
    ghost use Rattle.std.specs.Prelude.{◌≡◌, fold};
    ghost use Rattle.irtext_stream.specs.Places.{position_writes};

    /// Feeds the line and then the column to the hasher. The context is not used, so the hash is the same with any context.
    pub fn stable_hash<C, H: Hasher>(&self, _ctx: &C, state: &mut H)
        ensures { state.new ≡ fold H.write state.old (position_writes self.now) }
    {
        state.write_i32(self.line);
        state.write_i32(self.column);
    }
}

impl Default for SourcePosition {
    /// The beginning of a text: line 1, column 1.
    fn default() -> SourcePosition
        ensures { IsAt result.line result.column [] }
    {
        SourcePosition { line: 1, column: 1 }
    }
}

impl fmt::Display for SourcePosition {
    ghost use Rattle.irtext_stream.specs.Places.{position_text};

    ghost output = { λ at. Some (position_text at) };

    fn fmt<W: fmt::Write>(&self, f: &mut fmt::Formatter<W>) -> fmt::Result {
        let line = self.line;
        let column = self.column;
        write!(f, "line: {line}, column: {column}")
    }
}

/// A position in a stream, to which the stream can be reset: a byte offset in its text.
#[derive(Clone, Copy)]
pub struct Place {
    pub(crate) offset: usize,
}
