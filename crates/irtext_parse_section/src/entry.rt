//! Parsing of one entry: of an item, or of a print-once attribute. An item is an operation or a block that carries a mark.
ghost use Rattle.std.specs.Prelude.{◌≡◌, IfOk, is_some, codes, option_copied};
ghost use Rattle.std.specs.Map.{lookup};
ghost use Rattle.irtext_tokens.specs.AttrTexts.{attr_at};
ghost use Rattle.irtext_tokens.specs.Demanded.{spaced_at, index_at};
ghost use Rattle.irtext_tokens.specs.MustRead.{MustRead};
ghost use Rattle.irtext_stream.specs.Places.{IsPlaceAfter};
ghost use Rattle.irtext_parse_state.specs.States.{same_index, marks_of};
ghost use Rattle.irtext_parse_section.specs.OnlyPaths.{AddsOnlyPaths, may_follow};
ghost use Rattle.irtext_grammar.specs.Readers.Streams.{itself, replaced};
ghost use Rattle.irtext_grammar.specs.Parsed.{IsMark};
ghost use Rattle.irtext_parse_pieces.specs.Named.{MustMean, whole};
ghost use Rattle.irtext_parse_locations.specs.Plain.{Sees, Finds};
ghost use Rattle.irtext_grammar.specs.Entries.{begins_given, tested, entry_head_at, entry_at};
ghost use Rattle.irtext_parse_section.specs.Said.{rules_of};
ghost use Rattle.irtext_parse_section.specs.Entries.{IsHead, GoesOn, IsEntry, entry_kept, next_item, earlier_indices};

use crate::given::given_parse;
use irtext_base::parsable::{CharStream, ParseResult, TextStream};
use irtext_base::result::Cause;
use irtext_base::text::{AttrText, IrText};
use irtext_context::base::Item;
use irtext_grammar::parsed::ReadMark;
use irtext_parse_locations::location::plain::{digits_after, spaced_there};
use irtext_parse_locations::rules::is_block;
use irtext_parse_locations::said::{ItemEntry, ReadEntry};
use irtext_parse_pieces::entries::attr_demanded;
use irtext_parse_pieces::keys::Keys;
use irtext_parse_state::parsable::StateStream;
use irtext_parse_state::parsable::numbered::Numbered;
use irtext_tokens::irfmt::demanded::{index_demanded, spaced_text_demanded};
use irtext_tokens::irfmt::faults::refuse_at;

/// The head of an entry: its index and, if the entry continues as an item's, the item that carries the mark of this index.
#[derive(Clone, Copy)]
pub(crate) struct EntryHead {
    pub mark: ReadMark,
    pub item: Option<Item>,
}

/// Whether an item's entry continues here, and not a print-once attribute: `@` or `[` comes next. Nothing is consumed.
#[inline(always)]
pub fn begins_given(stream: &TextStream) -> bool
    ensures { result ≡ begins_given stream.now.rest }
{
    match stream.peek() {
        Some(c) => c == '@' || c == '[',
        None => false,
    }
}

/// Parses `!` and an index right after it. If they do not come next, or the stream has failed, returns `None` and nothing changes.
#[inline(always)]
fn index_there(stream: &mut TextStream) -> Option<usize>
    ensures { Sees (Finds index_at stream.old stream.new) stream.old result stream.new }
{
    if stream.has_failed() {
        return None;
    }
    let place = stream.position();
    match digits_after(stream, "!") {
        Some(index) => Some(index as usize),
        None => {
            stream.reset(place);
            None
        }
    }
}

/// The slow path of `index_read`, for other forms of the text.
#[cold]
#[inline(never)]
fn index_missed<A>(stream: &mut TextStream) -> ParseResult<usize, A>
    ensures { MustRead itself replaced (λ n. n) index_at stream.old result stream.new }
{
    index_demanded(stream)
}

/// Parses `!` and an index.
#[inline(always)]
fn index_read<A>(stream: &mut TextStream) -> ParseResult<usize, A>
    ensures { MustRead itself replaced (λ n. n) index_at stream.old result stream.new }
{
    match index_there(stream) {
        Some(index) => Ok(index),
        None => index_missed(stream),
    }
}

/// The slow path of `equals_read`, for other forms of the text.
#[cold]
#[inline(never)]
fn equals_missed<A>(stream: &mut TextStream) -> ParseResult<(), A>
    ensures { MustRead itself replaced (λ u. u) (spaced_at (codes "=")) stream.old result stream.new }
{
    spaced_text_demanded(stream, "=")
}

/// Parses `=` with optional white space around it.
#[inline(always)]
fn equals_read<A>(stream: &mut TextStream) -> ParseResult<(), A>
    ensures { MustRead itself replaced (λ u. u) (spaced_at (codes "=")) stream.old result stream.new }
{
    if spaced_there(stream, " = ") {
        return Ok(());
    }
    equals_missed(stream)
}

/// Parses the head of an entry: `!` and an index, and `=` with optional white space around it, as `!0 = `. Returns the index and the place of
/// the `!`. Every error is committed, and leaves the stream failed.
#[inline(always)]
pub fn index_parse<A>(stream: &mut TextStream) -> ParseResult<ReadMark, A>
    ensures read { MustMean itself replaced (IsMark (whole stream.old)) entry_head_at stream.old result
        stream.new }
    ensures at { IfOk result (λ mark. IsPlaceAfter mark.at stream.old.passed) }
{
    let at = stream.position();
    let index = index_read(stream)?;
    equals_read(stream)?;
    Ok(ReadMark { index, at })
}

/// Whether an earlier entry has this index.
#[inline(always)]
fn is_seen(seen: Option<&Numbered<()>>, index: usize) -> bool
    ensures { result ≡ is_some (lookup (same_index index) (earlier_indices (option_copied seen.entry))) }
{
    match seen {
        Some(seen) => seen.contains(index),
        None => false,
    }
}

/// Returns the item that carries a mark of this index, unless an earlier entry has the index.
#[inline(always)]
fn next_item<T: IrText<A>, A: AttrText<A>, U>(
    s: &StateStream<'_, T, A, U>,
    seen: Option<&Numbered<()>>,
    index: usize,
) -> Option<Item>
    ensures { result ≡ next_item (marks_of s.now.state) (earlier_indices (option_copied seen.entry)) index }
{
    if is_seen(seen, index) {
        return None;
    }
    s.state.marked(index)
}

/// Parses the head of an entry. If it continues as an item's, but no item carries its mark or an earlier entry has its index, fails with
/// `UnknownIndex` at its `!`. Every error is committed.
#[inline(always)]
fn head_parse<T: IrText<A>, A: AttrText<A>, U>(
    s: &mut StateStream<'_, T, A, U>,
    seen: Option<&Numbered<()>>,
) -> ParseResult<EntryHead, A>
    ensures state { s.new.state ≡ s.old.state }
    ensures read { MustMean itself replaced (IsHead (whole s.old.stream))
        (λ t. tested (may_follow (marks_of s.old.state) (earlier_indices (option_copied seen.entry)))
        (entry_head_at t))
        s.old.stream result s.new.stream }
    ensures on { IfOk result (GoesOn (marks_of s.old.state) s.new.stream.rest) }
{
    let mark = index_parse(&mut s.stream)?;
    if !begins_given(&s.stream) {
        return Ok(EntryHead { mark, item: None });
    }
    match next_item(s, seen, mark.index) {
        Some(item) => Ok(EntryHead {
            mark,
            item: Some(item),
        }),
        None => Err(refuse_at(&mut s.stream, mark.at, Cause::UnknownIndex(mark.index))),
    }
}

/// Parses an entry; `seen` has the indices of the entries before it, if there are any. Keys may share their texts with those that are kept
/// at their places. Every error is committed.
#[inline(always)]
pub(crate) fn entry_parse<T: IrText<A>, A: AttrText<A>, U>(
    s: &mut StateStream<'_, T, A, U>,
    seen: Option<&Numbered<()>>,
    keys: &mut Keys,
) -> ParseResult<ReadEntry<A>, A>
    ensures only { AddsOnlyPaths s.old.state s.new.state }
    ensures read { MustMean itself replaced (IsEntry (marks_of s.old.state) s.new.state.ctx.now.paths
        (whole s.old.stream))
        (entry_at (attr_at A.IrText.reading) (may_follow (marks_of s.old.state)
        (earlier_indices (option_copied seen.entry)))
        (rules_of (marks_of s.old.state)))
        s.old.stream result s.new.stream }
    ensures paths { IfOk result (λ e. s.new.state.ctx.now.paths ≡ entry_kept s.old.state.ctx.now.paths
        s.new.state.ctx.now.paths e) }
{
    let head = head_parse(s, seen)?;
    let Some(item) = head.item else {
        let attr = attr_demanded(&mut s.stream)?;
        return Ok(ReadEntry::OfOnce(head.mark.index, attr));
    };
    let ctx = &mut *s.state.ctx;
    let given = given_parse(&mut s.stream, ctx, is_block(item), keys)?;
    Ok(ReadEntry::OfItem(
        head.mark.index,
        ItemEntry {
            item,
            location: given.0,
            pairs: given.1,
        },
    ))
}
