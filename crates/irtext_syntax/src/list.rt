//! Lists of parts in brackets, with a separator between the items.
ghost use Rattle.std.specs.Prelude.{◌≡◌, ◌++◌, ℕ, List, IfOk, OnOk, OnErr, string_bytes};
ghost use Rattle.std.specs.Cmp.{on_equiv, on_per};
ghost use Rattle.std.specs.Cmp.Lexicographic.{pointwise, lists_equiv, lists_per};
ghost use Rattle.std.specs.Hash as fed;
ghost use Rattle.std.specs.Str.{encode_utf8_all};
ghost use Rattle.irtext_base.specs.Appending.{OnlyAppends};
ghost use Rattle.irtext_tokens.specs.ListOutcomes.{separated_at};
ghost use Rattle.irtext_tokens.specs.MustRead.{MayRead, MustRead};
ghost use Rattle.irtext_syntax.specs.ListParts.{SeparatorLaw, tail_text, joined_text, list_text, items_at, list_at};

use crate::fixed::{Brackets, close_demanded, open_parse};
use crate::part::{Closed, Item, Last, Part, TryClone};
use irtext_base::parsable::{ParseResult, TextStream};
use irtext_memory::{OutOfMemory, string};
use irtext_tokens::irfmt::parsers::list_parser;
use std::alloc::{AllocError, Global};
use std::fmt;
use std::hash::{Hash, Hasher};
use std::marker::{Model, PhantomData};

/// The separator between the items of a list in these brackets: `,`, `;` or `:`. The closing bracket does not begin with it. The law is
/// computed: `ghost separates = { record { ending = refl; apart = λ rest. refl } }`.
pub trait Separated: Brackets {
    // the separator
    ghost separator: { ℕ };

    /// Returns the separator.
    fn separator() -> char
        ensures { result ≡ separator };

    ghost separates: { SeparatorLaw separator Self.closer_printed };
}

/// A list of parts in the brackets of `B`, such as `[1, 2]`. It is printed with its separator and a space between two items. White space is
/// skipped before and after each item when it is parsed. If the opening bracket is missing, parsing fails with `Unexpected`, uncommitted.
/// Every other error is committed: an item that is missing after a separator, an error in an item, and `Unexpected` if the closing bracket
/// is missing.
#[derive(Drop)]
pub struct ListOf<B, P> {
    items: Vec<P>,
    brackets: PhantomData<B>,
}

impl<B, P> Model for ListOf<B, P> {
    ghost use Rattle.std.specs.Prelude.{List};

    ghost Value = { List P };

    ghost view = { λ l. l.items.items };
}

impl<B, P> ListOf<B, P> {
    /// Makes a list of these items.
    pub fn new(items: Vec<P>) -> ListOf<B, P>
        ensures { result ≡ items.items }
    {
        ListOf {
            items,
            brackets: PhantomData,
        }
    }

    /// Returns the items.
    pub fn as_slice(&self) -> &[P]
        ensures { result.now ≡ self.now }
    {
        self.items.as_slice()
    }
}

/// Returns equal copies of the items. Fails only if an allocation fails.
fn copies<P: TryClone + Drop>(alloc: Global, items: &[P]) -> Result<Vec<P>, AllocError>
    ensures { IfOk result (λ copies. copies.items ≡ items.now) }
{
    let mut copies = Vec::new(alloc);
    for item in items {
        copies.push(item.try_clone()?)?;
    }
    Ok(copies)
}

impl<B, P: TryClone + Drop> TryClone for ListOf<B, P> {
    fn try_clone(&self) -> Result<ListOf<B, P>, AllocError> {
        let items = copies(*self.items.allocator(), self.items.as_slice())?;
        Ok(ListOf::new(items))
    }
}

impl<B, P: fmt::Debug> fmt::Debug for ListOf<B, P> {
    fn fmt<W: fmt::Write>(&self, f: &mut fmt::Formatter<W>) -> fmt::Result {
        self.items.fmt(f)
    }
}

impl<B, P: PartialEq> PartialEq for ListOf<B, P> {
    ghost eq = { λ x y. pointwise P.eq x y };

    ghost laws = { on_per (λ l. l) (lists_per P.PartialEq.laws) };

    fn eq(&self, other: &Self) -> bool {
        self.as_slice() == other.as_slice()
    }
}

impl<B, P: Eq> Eq for ListOf<B, P> {
    ghost laws = { on_equiv (λ l. l) (lists_equiv P.Eq.laws) };
}

impl<B, P: Hash + Eq> Hash for ListOf<B, P> {
    ghost hash_input = { λ l. fed.slice P.hash_input l };

    ghost respects_eq = { (fed.items_Alike (record { fed = P.respects_eq })).fed };

    fn hash<H: Hasher>(&self, state: &mut H) {
        self.as_slice().hash(state);
    }
}

/// Parses an item.
fn item_parse<P: Part<A>, A>(stream: &mut TextStream) -> ParseResult<P, A>
    ensures { MayRead (λ s. s) (λ s v. v) (λ x. x) P.text.reading stream.old result stream.new }
{
    <P as Part<A>>::read(stream)
}

/// Parses items with the separator between them, or none, with optional white space after each item and each separator.
fn separated_parse<P: Part<A>, A: Drop>(
    stream: &mut TextStream,
    separator: char,
) -> ParseResult<Vec<P>, A>
    ensures { MayRead (λ s. s) (λ s v. v) (λ items. items.items)
        (separated_at separator P.text.reading) stream.old
        result stream.new }
{
    list_parser(stream, separator, |s: &mut TextStream| {
        item_parse::<P, A>(s)
    })
}

/// Parses items and the closing bracket, which is required.
fn items_parse<B: Separated, P: Part<A>, A: Drop>(stream: &mut TextStream) -> ParseResult<Vec<P>, A>
    ensures { MustRead (λ s. s) (λ s v. v) (λ items. items.items)
        (items_at B.separator P.text.reading B.closer) stream.old result stream.new }
{
    let items = separated_parse(stream, B::separator())?;
    close_demanded::<B, A>(stream)?;
    Ok(items)
}

/// Appends the separator, a space and the item, for each item.
fn write_tail<P: Part<A>, A>(
    separator: char,
    items: &[P],
    f: &mut String,
) -> Result<(), OutOfMemory>
    ensures text { OnOk result (string_bytes f.new ≡ string_bytes f.old ++ encode_utf8_all
        (tail_text separator P.text.written items.now)) }
    ensures appended { OnErr result (OnlyAppends f.old f.new) }
{
    for item in items {
        string::push(f, separator)?;
        string::push_str(f, " ")?;
        item.write_text(f)?;
    }
    Ok(())
}

/// Appends the items, with the separator and a space between two.
fn write_joined<P: Part<A>, A>(
    separator: char,
    items: &[P],
    f: &mut String,
) -> Result<(), OutOfMemory>
    ensures text { OnOk result (string_bytes f.new ≡ string_bytes f.old ++ encode_utf8_all (joined_text separator
        P.text.written items.now)) }
    ensures appended { OnErr result (OnlyAppends f.old f.new) }
{
    if let Some((first, rest)) = items.split_first() {
        first.write_text(f)?;
        write_tail(separator, rest, f)?;
    }
    Ok(())
}

/// Appends the items in brackets.
fn write_list<B: Separated, P: Part<A>, A>(items: &[P], f: &mut String) -> Result<(), OutOfMemory>
    ensures text { OnOk result (string_bytes f.new ≡
        string_bytes f.old ++ encode_utf8_all (list_text B.opener_printed B.separator P.text.written
        B.closer_printed items.now)) }
    ensures appended { OnErr result (OnlyAppends f.old f.new) }
{
    string::push_str(f, B::printed_opening())?;
    write_joined(B::separator(), items, f)?;
    string::push_str(f, B::printed_closing())?;
    Ok(())
}

impl<A: Drop, B: Separated, P: Item<A>> Part<A> for ListOf<B, P> {
    ghost use Rattle.std.specs.Prelude.{true};
    ghost use Rattle.irtext_syntax.specs.ListLaws.{list_law};
    ghost use Rattle.std.specs.Cmp.Lexicographic.{pointwise_decides};

    ghost text = { record {
      reading = list_at B.opener B.separator P.text.reading B.closer;
      written = list_text B.opener_printed B.separator P.text.written B.closer_printed;
      ends = λ rest. true;
    } };

    ghost sound = { record {
      law = list_law B.opener B.closer B.opener_printed B.closer_printed B.separator P.text.reading
          P.text.written P.text.ends B.law B.separates P.sound.law P.misses;
      decides = pointwise_decides P.sound.decides;
    } };

    fn read(stream: &mut TextStream) -> ParseResult<ListOf<B, P>, A> {
        match open_parse::<B, A>(stream) {
            Ok(()) => {}
            Err(fault) => return Err(fault),
        }
        match items_parse::<B, P, A>(stream) {
            Ok(items) => Ok(ListOf::new(items)),
            Err(fault) => Err(fault),
        }
    }

    fn write_text(&self, f: &mut String) -> Result<(), OutOfMemory> {
        write_list::<B, P, A>(self.as_slice(), f)
    }
}

impl<A: Drop, B: Separated, P: Item<A>> Item<A> for ListOf<B, P> {
    ghost use Rattle.irtext_syntax.specs.ListLaws.{list_misses};

    ghost misses = { list_misses B.opener B.closer B.opener_printed B.closer_printed B.separator P.text.reading B.law };
}

impl<A: Drop, B: Separated, P: Item<A>> Last<A> for ListOf<B, P> {
    ghost use Rattle.std.specs.Prelude.{refl};

    ghost last = { record { anywhere = λ rest e. refl } };
}

impl<A: Drop, B: Separated, P: Item<A>> Closed<A> for ListOf<B, P> {
    ghost use Rattle.std.specs.Prelude.{refl};

    ghost closed = { λ rest. refl };
}
