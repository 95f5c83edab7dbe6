//! The places of two grammars.

/// A place of two grammars: one for a tree of either, or one of a grammar's own. The places at which their trees begin are one, so the types
/// of `Tree<Places<S, T>, Either<L, R, W>>` hold types of both, as `my.array <4, builtin.integer si32>`.
#[derive(Clone, Copy, PartialEq, Eq, Hash, Debug)]
pub enum Places<S, R> {
    /// For a tree of either grammar.
    Whole,
    /// A place of the first grammar, at which no tree begins.
    Left(S),
    /// A place of the second grammar, at which no tree begins.
    Right(R),
}

/// The only place of a family whose values hold no others, such as `builtin.integer si32`.
#[derive(Clone, Copy)]
pub struct Leaf;
