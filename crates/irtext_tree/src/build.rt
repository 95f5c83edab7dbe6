//! Trees that are built, head by head. What a call requires of the places is computed from the heads, so a body that calls them in the order
//! of the text has nothing to prove by hand.
ghost use Rattle.std.specs.Prelude.{◌≡◌, ◌++◌, ◌∷◌, [], true, Some, IfOk};
ghost use Rattle.irtext_tree.specs.Growths.{waiting};
ghost use Rattle.irtext_tree.specs.Rows.{after_head, after_tree, can_come, next_place, open_places};
ghost use Rattle.irtext_tree.specs.declared.waits.Waits.TheVariants.{Nothing};

use crate::grammar::Grows;
use crate::heads::Heads;
use crate::tree::Tree;
use irtext_memory::OutOfMemory;
use std::alloc::Global;
use std::marker::PhantomData;

/// The first heads of a tree. Places may wait for more.
#[derive(Drop)]
pub struct TreeBuilder<S: Grows<H>, H> {
    heads: Heads<H>,
    grammar: PhantomData<S>,
}

impl<S: Grows<H>, H: Drop> TreeBuilder<S, H> {
    /// Adds a tree at the place that waits next, which has to be one at which a tree begins. If an allocation fails, all is dropped.
    pub fn tree(self, tree: Tree<S, H>) -> Result<TreeBuilder<S, H>, OutOfMemory>
        requires { next_place (open_places S.growth self.heads) ≡ Some S.growth.start }
        ensures heads { IfOk result (λ b. b.heads ≡ self.heads ++ tree.heads) }
        ensures open { IfOk result (λ b. open_places S.growth b.heads
            ≡ after_tree (open_places S.growth self.heads)) }
    {
        let TreeBuilder { heads, grammar } = self;
        let heads = heads.joined(tree.into_heads())?;
        Ok(TreeBuilder { heads, grammar })
    }

    /// Adds a head at the place that waits next, which has to be the head's, as `, ` or `>`. If an allocation fails, all is dropped.
    pub fn head(self, head: H) -> Result<TreeBuilder<S, H>, OutOfMemory>
        requires { can_come S.growth head (open_places S.growth self.heads) ≡ true }
        ensures heads { IfOk result (λ b. b.heads ≡ self.heads ++ head ∷ []) }
        ensures open { IfOk result (λ b. open_places S.growth b.heads
            ≡ after_head S.growth head (open_places S.growth self.heads)) }
    {
        let TreeBuilder { heads, grammar } = self;
        let heads = heads.with(head)?;
        Ok(TreeBuilder { heads, grammar })
    }

    /// Returns the tree. No place may wait.
    pub fn finish(self) -> Tree<S, H>
        requires { open_places S.growth self.heads ≡ Some [] }
        ensures { result.heads ≡ self.heads }
    {
        let TreeBuilder { heads, grammar } = self;
        Tree { heads, grammar }
    }
}

impl<S: Grows<H>, H: Drop> Tree<S, H> {
    /// Returns the tree of one head, at which a tree has to begin and after which nothing may wait, as `my.ptr`. Allocates nothing.
    pub fn of(alloc: Global, head: H) -> Tree<S, H>
        requires begins { S.growth.same S.growth.start (S.growth.place head) ≡ true }
        requires complete { S.growth.waits head ≡ Nothing }
        ensures { result.heads ≡ head ∷ [] }
    {
        Tree {
            heads: Heads::new(head, Vec::new(alloc)),
            grammar: PhantomData,
        }
    }

    /// Returns a tree's first head, at which a tree has to begin, as `my.list <`, for a tree that is built from it. Allocates nothing.
    pub fn begin(alloc: Global, head: H) -> TreeBuilder<S, H>
        requires { S.growth.same S.growth.start (S.growth.place head) ≡ true }
        ensures heads { result.heads ≡ head ∷ [] }
        ensures open { open_places S.growth result.heads ≡ Some (waiting (S.growth.waits head) []) }
    {
        TreeBuilder {
            heads: Heads::new(head, Vec::new(alloc)),
            grammar: PhantomData,
        }
    }

    /// Returns the heads, and consumes the tree.
    fn into_heads(self) -> Heads<H>
        ensures { result ≡ self.heads }
    {
        let Tree { heads, grammar: _ } = self;
        heads
    }
}
