//! The print-once attributes of a section: each is known from its first mention on, by a reference, and none is copied.
ghost use Rattle.std.specs.Prelude.{◌≡◌, ◌<◌, ◌^◌, ◌++◌, List, OnOk, IfOk};
ghost use Rattle.irtext_grammar.specs.Graphs.Graph.{place_in};
ghost use Rattle.irtext_print.specs.Mentions as mentions;

use indexmap::IndexSet;
use irtext_base::seed::Seed;
use irtext_base::text::AttrText;
use irtext_memory::{OutOfMemory, set};

/// The print-once attributes that are known so far. They are numbered on after the section's items.
#[derive(Drop)]
pub(crate) struct Mentions<'c, A: AttrText<A>> {
    /// The number of items.
    pub(crate) items: usize,
    /// The attributes, in the order of their first mention.
    pub(crate) known: IndexSet<&'c A, Seed>,
}

impl<'c, A: AttrText<A>> Mentions<'c, A> {
    /// Records a print-once attribute, and returns its place among those that are known. The place does not change as more are recorded.
    /// Allocates if the attribute is new; fails only if out of memory.
    pub(crate) fn note(&mut self, attr: &'c A) -> Result<usize, OutOfMemory>
        ensures items { OnOk result (self.new.items ≡ self.old.items) }
        ensures known { OnOk result (mentions.known_in self.new.known ≡
            mentions.with_mention (mentions.asking A.print_once A.eq)
            (mentions.known_in self.old.known) attr.now) }
        ensures place { IfOk result (λ place. (more : List A) → place ≡
            place_in (mentions.asking A.print_once A.eq)
            (mentions.known_in self.new.known ++ more) attr.now) }
        ensures small { IfOk result (λ place. place < 2 ^ 63) }
    {
        match set::insert_full(&mut self.known, attr) {
            Ok((place, _)) => {
                let _count = self.known.len();
                Ok(place)
            }
            Err(refused) => Err(refused.into()),
        }
    }
}
