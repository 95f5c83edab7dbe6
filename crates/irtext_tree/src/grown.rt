//! How trees are parsed and printed.
ghost use Rattle.std.specs.Prelude.{◌≡◌, ◌++◌, ◌∷◌, [], OnOk, OnErr, IfOk, string_bytes, reverse};
ghost use Rattle.std.specs.Str.{encode_utf8_all};
ghost use Rattle.irtext_base.specs.Appending.{OnlyAppends};
ghost use Rattle.irtext_tokens.specs.Infix.{◌▷◌};
ghost use Rattle.irtext_tokens.specs.MustRead.{MayRead, MustRead};
ghost use Rattle.irtext_tokens.specs.Tokens.{space_at};
ghost use Rattle.irtext_tree.specs.Growths.{is_tree, waiting};
ghost use Rattle.irtext_tree.specs.TreeOf.{tree_of, tree_at, tree_text};
ghost use Rattle.irtext_tree.specs.Trees.{grown_after, heads_at, heads_text};

use crate::grammar::{Grammar, Grows, LedGrammar};
use crate::heads::Heads;
use crate::tree::Tree;
use crate::waits::Waits;
use irtext_base::parsable::{CharStream, ParseResult, TextStream};
use irtext_base::result::Cause;
use irtext_base::text::{Family, IrText, Worded};
use irtext_memory::{OutOfMemory, vec};
use irtext_syntax::part::TryClone;
use irtext_tokens::irfmt::faults::{committed, out_of_memory, refuse};
use irtext_tokens::irfmt::parsers::skip_white_space;
use std::alloc::{AllocError, Global};
use std::marker::PhantomData;

/// The places that wait, the next one last. Fails only if an allocation fails.
fn push_waits<S: Copy + Drop>(waits: Waits<S>, left: &mut Vec<S>) -> Result<(), OutOfMemory>
    ensures { OnOk result (reverse left.new.items ≡ waiting waits (reverse left.old.items)) }
{
    match waits {
        Waits::Nothing => {}
        Waits::One(place) => vec::push(left, place)?,
        Waits::Two(place, second) => {
            vec::push(left, second)?;
            vec::push(left, place)?;
        }
    }
    Ok(())
}

/// Whether the heads are those of one tree. Fails only if an allocation fails.
fn is_whole<S: Grows<H>, H>(alloc: Global, first: &H, rest: &[H]) -> Result<bool, OutOfMemory>
    ensures { IfOk result (λ b. b ≡ is_tree S.growth (first.now ∷ rest.now)) }
{
    if !S::start().takes(first) {
        return Ok(false);
    }
    let mut left = Vec::new(alloc);
    push_waits(S::waits(first), &mut left)?;
    for head in rest {
        let Some(place) = left.pop() else {
            return Ok(false);
        };
        if !place.takes(head) {
            return Ok(false);
        }
        push_waits(S::waits(head), &mut left)?;
    }
    Ok(left.is_empty())
}

/// Parses a required head at a place, after optional white space. Every error is committed.
fn head_demanded<S: Grammar<H, A>, H: Eq, A>(stream: &mut TextStream, place: S) -> ParseResult<H, A>
    ensures { MustRead (λ s. s) (λ s v. v) (λ x. x) (space_at ▷ S.reading place) stream.old result stream.new }
{
    if stream.has_failed() {
        return Err(refuse(stream, Cause::StreamFailed));
    }
    skip_white_space(stream);
    let answer = place.read(stream);
    committed(stream, answer)
}

/// Appends a head to those found, and what comes after it to the places that wait. Fails only if an allocation fails.
fn take_head<S: Grows<H>, H: Drop>(
    head: H,
    left: &mut Vec<S>,
    found: &mut Vec<H>,
) -> Result<(), OutOfMemory>
    ensures waits { OnOk result (reverse left.new.items
        ≡ waiting (S.growth.waits head) (reverse left.old.items)) }
    ensures found { OnOk result (found.new.items ≡ found.old.items ++ head ∷ []) }
{
    push_waits(S::waits(&head), left)?;
    vec::push(found, head)?;
    Ok(())
}

/// Parses what comes after the first head of a tree, by one loop over the places that wait. Every error is committed.
fn heads_after<S: Grammar<H, A>, H: Eq + Drop, A: Drop>(
    stream: &mut TextStream,
    first: H,
) -> ParseResult<Heads<H>, A>
    ensures { MustRead (λ s. s) (λ s v. v) (λ x. x) (grown_after S.growth S.reading first) stream.old
        result stream.new }
{
    if stream.has_failed() {
        return Err(refuse(stream, Cause::StreamFailed));
    }
    let alloc = stream.allocator();
    let mut left: Vec<S> = Vec::new(alloc);
    let mut found = Vec::new(alloc);
    let Ok(()) = push_waits(S::waits(&first), &mut left) else {
        return Err(out_of_memory(stream));
    };
    while let Some(place) = left.pop() {
        let head = head_demanded::<S, H, A>(stream, place)?;
        let Ok(()) = take_head(head, &mut left, &mut found) else {
            return Err(out_of_memory(stream));
        };
    }
    Ok(Heads::new(first, found))
}

/// Parses the heads of a tree. If none begins, the error is not committed.
fn heads_parse<S: Grammar<H, A>, H: Eq + Drop, A: Drop>(
    stream: &mut TextStream,
) -> ParseResult<Heads<H>, A>
    ensures { MayRead (λ s. s) (λ s v. v) (λ x. x) (heads_at S.growth S.reading) stream.old
        result stream.new }
{
    match S::start().read(stream) {
        Ok(first) => heads_after::<S, H, A>(stream, first),
        Err(fault) => Err(fault),
    }
}

/// Appends the texts of the heads, one after another.
fn write_heads<S: Grammar<H, A>, H: Eq, A>(heads: &[H], f: &mut String) -> Result<(), OutOfMemory>
    ensures text { OnOk result (string_bytes f.new ≡ string_bytes f.old
        ++ encode_utf8_all (heads_text S.written heads.now)) }
    ensures appended { OnErr result (OnlyAppends f.old f.new) }
{
    for head in heads {
        S::write_head(head, f)?;
    }
    Ok(())
}

/// Appends the text of a head, and those of the heads after it.
fn write_tree<S: Grammar<H, A>, H: Eq, A>(
    head: &H,
    rest: &[H],
    f: &mut String,
) -> Result<(), OutOfMemory>
    ensures text { OnOk result (string_bytes f.new ≡ string_bytes f.old
        ++ encode_utf8_all (heads_text S.written (head.now ∷ rest.now))) }
    ensures appended { OnErr result (OnlyAppends f.old f.new) }
{
    S::write_head(head, f)?;
    write_heads::<S, H, A>(rest, f)?;
    Ok(())
}

impl<S: Grows<H>, H: Drop> Tree<S, H> {
    /// Returns the tree of these heads, or `None` if they are not those of one: a head is at another place, one is missing, or one is left
    /// over. Fails only if an allocation fails.
    pub fn try_new(first: H, rest: Vec<H>) -> Result<Option<Tree<S, H>>, OutOfMemory>
        ensures { IfOk result (λ tree. tree ≡ tree_of S.Grows.own (first ∷ rest.items)) }
    {
        if !is_whole::<S, H>(*rest.allocator(), &first, rest.as_slice())? {
            return Ok(None);
        }
        Ok(Some(Tree {
            heads: Heads::new(first, rest),
            grammar: PhantomData,
        }))
    }
}

/// Parses a tree: its first head, and then, after optional white space, a head for each place that waits. The heads are those of a tree, as
/// each is one of the place at which it was parsed.
fn tree_parse<S: Grammar<H, A>, H: Eq + Drop, A: Drop>(
    stream: &mut TextStream,
) -> ParseResult<Tree<S, H>, A>
    ensures { MayRead (λ s. s) (λ s v. v) (λ x. x) (tree_at S.Grows.own S.reading) stream.old
        result stream.new }
{
    match heads_parse::<S, H, A>(stream) {
        Ok(heads) => Ok(Tree {
            heads,
            grammar: PhantomData,
        }),
        Err(fault) => Err(fault),
    }
}

/// A type or an attribute that can hold others. If none begins, the error is that of the grammar at its first place, uncommitted. Every
/// other error is committed, and is that of the head that is missing or bad, at its position.
impl<A: Drop, S: Grammar<H, A>, H: Eq + Drop> IrText<A> for Tree<S, H> {
    ghost use Rattle.std.specs.Prelude.{refl};
    ghost use Rattle.irtext_tree.specs.TreeLaws.{tree_lawful, tree_sincere, tree_decides};

    ghost reading = { tree_at S.Grows.own S.Grammar.reading };

    ghost written = { tree_text S.Grows.own S.Grammar.written };

    ghost lawful = { tree_lawful S.Grows.own S.Grammar.reading S.Grammar.written S.Grammar.sound };

    ghost sincere = { tree_sincere S.Grows.own S.Grammar.reading S.Grammar.written S.Grammar.sound };

    ghost decides = { tree_decides S.Grows.own H.eq ⟦<Tree<S, H> as PartialEq>⟧.eq (λ x y. refl) S.Grammar.same };

    fn read(stream: &mut TextStream) -> ParseResult<Tree<S, H>, A> {
        tree_parse(stream)
    }

    fn write_text(&self, f: &mut String) -> Result<(), OutOfMemory> {
        write_tree::<S, H, A>(self.head(), self.rest(), f)
    }
}

impl<A: Drop, S: LedGrammar<H, A>, H: Eq + Worded + Drop> Family<A> for Tree<S, H> {
    ghost use Rattle.irtext_tree.specs.TreeLaws.{tree_led};

    ghost led = { tree_led S.Grows.own S.Grammar.reading S.Grammar.written S.Grammar.sound S.led };
}

impl<S: Grows<H>, H: Worded> Worded for Tree<S, H> {
    ghost words = { H.words };

    fn has_word(word: &str) -> bool {
        H::has_word(word)
    }
}

impl<S: Grows<H>, H: TryClone + Drop> TryClone for Tree<S, H> {
    fn try_clone(&self) -> Result<Tree<S, H>, AllocError> {
        let heads = self.heads.try_clone()?;
        Ok(Tree {
            heads,
            grammar: PhantomData,
        })
    }
}
