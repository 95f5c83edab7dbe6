//! The trees of a grammar.
ghost use Rattle.std.specs.Prelude.{◌≡◌, ◌∷◌, [], true, drop};
ghost use Rattle.irtext_tree.specs.Growths.{is_tree};

use crate::grammar::Grows;
use crate::heads::Heads;
use std::marker::PhantomData;

/// A tree of the grammar of `S`: its heads, in the order of its text, as `my.list <`, `my.ptr`, `, `, `my.int 8`, `>`. So it is copied,
/// compared, hashed and dropped as a vector is, however deep it is. A tree of one head allocates nothing.
#[derive(Drop)]
#[derive_where(PartialEq, Eq, Hash, Debug; H)]
pub struct Tree<S: Grows<H>, H> {
    pub(crate) heads: Heads<H>,
    #[derive_where(skip)]
    pub(crate) grammar: PhantomData<S>,
    ghost whole: { is_tree S.growth heads ≡ true },
}

impl<S: Grows<H>, H> Tree<S, H> {
    /// Returns the head with which the tree begins, as `my.list <`.
    pub fn head(&self) -> &H
        ensures { result.now ∷ drop 1 self.now.heads ≡ self.now.heads }
    {
        self.heads.first()
    }

    /// Returns the heads after the first, in the order of the text.
    pub fn rest(&self) -> &[H]
        ensures { result.now ≡ drop 1 self.now.heads }
    {
        self.heads.rest()
    }
}
