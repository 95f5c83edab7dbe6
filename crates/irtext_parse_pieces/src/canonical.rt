//! Parsing of the canonical form up to its regions.
ghost use Rattle.std.specs.Prelude.{◌≡◌, List, false};
ghost use Rattle.irtext_base.specs.Faults.{characters};
ghost use Rattle.irtext_base.specs.Text.{Text};
ghost use Rattle.irtext_tokens.specs.AttrTexts.{attr_at};
ghost use Rattle.irtext_tokens.specs.Infix.{◌▷◌};
ghost use Rattle.irtext_tokens.specs.MustRead.{MustRead};
ghost use Rattle.irtext_tokens.specs.Tokens.{space_at, text_at};
ghost use Rattle.irtext_parse_pieces.specs.Canonical.{canonical_front, name_steps, dictionary_steps, type_steps, signature_steps, MustSteps};
ghost use Rattle.irtext_grammar.specs.Forms.{name_pieces, dictionary_pieces, type_pieces, signature_pieces, pieces_of};
ghost use Rattle.irtext_parse_pieces.specs.Named.{NamesRead};

use crate::beside::{closed_by, failed};
use crate::entries::dictionary_parse;
use crate::keys::Keys;
use crate::lists::names_parse;
use crate::types::types_parse;
use irtext_base::parsable::{CharStream, ParseResult};
use irtext_base::text::{AttrText, IrText};
use irtext_few::Few;
use irtext_grammar::parsed::{CanonicalPieces, NameKind, ReadEntry, ReadName, Setting};
use irtext_scopes::tracker::NameTracker;
use irtext_tokens::irfmt::demanded::text_demanded;
use irtext_tokens::irfmt::parsers::skip_white_space;
use irtext_tokens::parsable::OwnStream;

/// The slow path of `word_parse`, for a text that does not come next as a whole.
#[cold]
#[inline(never)]
fn word_missed<S: CharStream, A>(stream: &mut S, text: &str) -> ParseResult<(), A>
    ensures { (S.view stream.old).failed ≡ false → MustRead S.view S.at (λ u. u)
        (space_at ▷ text_at (characters text.now)) stream.old result stream.new }
{
    skip_white_space(stream);
    text_demanded(stream, text)
}

/// Parses a fixed text, with white space before it, on a stream that has not failed. Every error is committed.
#[inline(always)]
fn word_parse<S: CharStream, A>(stream: &mut S, text: &str) -> ParseResult<(), A>
    ensures { (S.view stream.old).failed ≡ false → MustRead S.view S.at (λ u. u)
        (space_at ▷ text_at (characters text.now)) stream.old result stream.new }
{
    if stream.accept_spaced(text) {
        return Ok(());
    }
    word_missed(stream, text)
}

/// Parses the names of the operands or the labels of the successors, between these fixed texts.
#[inline(always)]
fn names_between<S: OwnStream, V: Copy, B: Copy, T: IrText<A>, A: AttrText<A>>(
    stream: &mut S,
    names: &mut NameTracker<V, B>,
    kind: NameKind,
    setting: Setting,
    opening: &str,
    closing: &str,
) -> ParseResult<Few<ReadName>, A>
    ensures read { (S.CharStream.view stream.old).failed ≡ false →
        MustSteps S.CharStream.view S.CharStream.at names.new.names T.IrText.reading
        (attr_at A.IrText.reading) setting
        (name_steps (characters opening.now) kind (characters closing.now)) (name_pieces kind)
        stream.old result stream.new }
    ensures names { NamesRead names.old names.new }
{
    if let Err(fault) = word_parse(stream, opening) {
        return Err(fault);
    }
    skip_white_space(stream);
    let found = match names_parse(stream, names, kind, setting.inside) {
        Ok(found) => found,
        Err(fault) => return Err(fault),
    };
    let answer = word_parse(stream, closing);
    closed_by(found, answer)
}

/// Parses the dictionary.
#[inline(always)]
fn entries_parse<S: OwnStream, T: IrText<A>, A: AttrText<A>>(
    stream: &mut S,
    keys: &mut Keys,
    setting: Setting,
) -> ParseResult<Vec<ReadEntry<A>>, A>
    ensures { (names : List Text) → (S.CharStream.view stream.old).failed ≡ false →
        MustSteps S.CharStream.view S.CharStream.at names T.IrText.reading (attr_at A.IrText.reading) setting
        dictionary_steps dictionary_pieces stream.old result stream.new }
{
    skip_white_space(stream);
    dictionary_parse(stream, keys, setting.any_key)
}

/// Parses types, in parentheses.
#[inline(always)]
fn parenthesized_parse<S: OwnStream, T: IrText<A>, A: AttrText<A>>(
    stream: &mut S,
    setting: Setting,
) -> ParseResult<Few<T>, A>
    ensures { (names : List Text) → (S.CharStream.view stream.old).failed ≡ false →
        MustSteps S.CharStream.view S.CharStream.at names T.IrText.reading (attr_at A.IrText.reading) setting
        type_steps type_pieces stream.old result stream.new }
{
    if let Err(fault) = word_parse(stream, "(") {
        return Err(fault);
    }
    skip_white_space(stream);
    let types = match types_parse(stream) {
        Ok(types) => types,
        Err(fault) => return Err(fault),
    };
    let answer = word_parse(stream, ")");
    closed_by(types, answer)
}

/// Parses the types of the operands and of the results, as `: <(builtin.integer si64) -> ()>`.
#[inline(always)]
fn signature_parse<S: OwnStream, T: IrText<A>, A: AttrText<A>>(
    stream: &mut S,
    setting: Setting,
) -> ParseResult<(Few<T>, Few<T>), A>
    ensures { (names : List Text) → (S.CharStream.view stream.old).failed ≡ false →
        MustSteps S.CharStream.view S.CharStream.at names T.IrText.reading (attr_at A.IrText.reading) setting
        signature_steps signature_pieces stream.old result stream.new }
{
    if let Err(fault) = word_parse(stream, ":") {
        return Err(fault);
    }
    if let Err(fault) = word_parse(stream, "<") {
        return Err(fault);
    }
    let inputs = match parenthesized_parse(stream, setting) {
        Ok(inputs) => inputs,
        Err(fault) => return Err(fault),
    };
    if let Err(fault) = word_parse(stream, "->") {
        return failed(inputs, fault);
    }
    let results = match parenthesized_parse(stream, setting) {
        Ok(results) => results,
        Err(fault) => return failed(inputs, fault),
    };
    let answer = word_parse(stream, ">");
    closed_by((inputs, results), answer)
}

/// Parses the canonical form up to its regions, on a stream that has not failed. Outside of every region no name can
/// be used, and unless the setting accepts any key an attribute has to be allowed under its key. Keys of the dictionary may share their texts with those that are kept at their places. Every error
/// is committed.
#[inline(always)]
pub(crate) fn canonical_parse<S: OwnStream, V: Copy, B: Copy, T: IrText<A>, A: AttrText<A>>(
    stream: &mut S,
    names: &mut NameTracker<V, B>,
    setting: Setting,
    keys: &mut Keys,
) -> ParseResult<CanonicalPieces<T, A>, A>
    ensures read { (S.CharStream.view stream.old).failed ≡ false →
        MustSteps S.CharStream.view S.CharStream.at names.new.names T.IrText.reading
        (attr_at A.IrText.reading) setting
        canonical_front pieces_of stream.old result stream.new }
    ensures names { NamesRead names.old names.new }
{
    let operands = match names_between::<S, V, B, T, A>(
        stream,
        names,
        NameKind::Value,
        setting,
        "(",
        ")",
    ) {
        Ok(operands) => operands,
        Err(fault) => return Err(fault),
    };
    let successors = match names_between::<S, V, B, T, A>(
        stream,
        names,
        NameKind::Block,
        setting,
        "[",
        "]",
    ) {
        Ok(successors) => successors,
        Err(fault) => return failed(operands, fault),
    };
    let entries = match entries_parse::<S, T, A>(stream, keys, setting) {
        Ok(entries) => entries,
        Err(fault) => return failed((operands, successors), fault),
    };
    let (inputs, results) = match signature_parse(stream, setting) {
        Ok(types) => types,
        Err(fault) => return failed((operands, successors, entries), fault),
    };
    Ok(CanonicalPieces {
        operands,
        successors,
        entries,
        inputs,
        results,
    })
}
