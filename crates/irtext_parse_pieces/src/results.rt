//! Parsing the names of an operation's results, which precede its id.
ghost use Rattle.std.specs.Prelude.{◌≡◌, true, false};
ghost use Rattle.irtext_tokens.specs.ListOutcomes.{separated_at};
ghost use Rattle.irtext_grammar.specs.Heads.{name_at, results_at};
ghost use Rattle.irtext_parse_pieces.specs.Named.{MustNames, NamesRead};
ghost use Rattle.irtext_parse_pieces.specs.Results.{is_read, results_if_at, Looks, LooksAfter};

use crate::lists::{comma_taken, ended, unless_committed, with_spaced};
use crate::names::name_parse;
use irtext_base::parsable::{CharStream, ParseResult};
use irtext_base::result::Cause;
use irtext_few::Few;
use irtext_grammar::parsed::ReadName;
use irtext_scopes::tracker::NameTracker;
use irtext_tokens::irfmt::faults::{next_is, refuse};
use irtext_tokens::irfmt::parsers::{skip_identifier, skip_white_space};

/// Whether a word followed by `.` comes next, with which an operation's id begins. Nothing is consumed.
fn begins_id<S: CharStream>(stream: &mut S) -> bool
    ensures no_results { result ≡ true → is_read (results_at (S.view stream.old).rest) ≡ false }
    ensures still { stream.new ≡ stream.old }
{
    let place = stream.position();
    if !skip_identifier(stream) {
        return false;
    }
    let dotted = next_is(stream, '.');
    stream.reset(place);
    dotted
}

/// Looks for the names after the first one, as long as `,` comes next. Returns `None` if a `,` is not followed by a name.
#[inline(never)]
fn more_results<S: CharStream, V: Copy, B: Copy, A: Drop>(
    stream: &mut S,
    names: &mut NameTracker<V, B>,
    first: ReadName,
) -> ParseResult<Option<Few<ReadName>>, A>
    ensures looks { LooksAfter S.view S.at names.old.names names.new.names first stream.old result
        stream.new }
    ensures names { NamesRead names.old names.new }
{
    let mut found = Few::one(first);
    while comma_taken(stream) {
        let next = match name_parse(stream, names) {
            Ok(next) => next,
            Err(fault) => {
                ended(found);
                return unless_committed(fault, None);
            }
        };
        found = with_spaced(stream, found, next)?;
    }
    Ok(Some(found))
}

/// Looks for names that are separated by `,`. A list of one name costs no more than its name.
fn names_there<S: CharStream, V: Copy, B: Copy, A: Drop>(
    stream: &mut S,
    names: &mut NameTracker<V, B>,
) -> ParseResult<Option<Few<ReadName>>, A>
    ensures looks { (S.view stream.old).failed ≡ false → Looks S.view S.at names.new.names
        (separated_at 44 name_at) stream.old result stream.new }
    ensures names { NamesRead names.old names.new }
{
    match name_parse(stream, names) {
        Ok(first) => {
            skip_white_space(stream);
            if !next_is(stream, ',') {
                return Ok(Some(Few::one(first)));
            }
            more_results(stream, names, first)
        }
        Err(fault) => unless_committed(fault, Some(Few::none())),
    }
}

/// Looks for names that are separated by `,`, and `=` after them.
fn results_there<S: CharStream, V: Copy, B: Copy, A: Drop>(
    stream: &mut S,
    names: &mut NameTracker<V, B>,
) -> ParseResult<Option<Few<ReadName>>, A>
    ensures looks { (S.view stream.old).failed ≡ false → Looks S.view S.at names.new.names results_at
        stream.old result stream.new }
    ensures names { NamesRead names.old names.new }
{
    let found = match names_there(stream, names) {
        Ok(found) => found,
        Err(fault) => return Err(fault),
    };
    let Some(found) = found else {
        return Ok(None);
    };
    if !next_is(stream, '=') {
        ended(found);
        return Ok(None);
    }
    let _ = stream.take();
    Ok(Some(found))
}

/// Parses the names of an operation's results, separated by `,` and followed by `=`, as `a, b =`. If the whole of it does not come next,
/// nothing is consumed and the list is empty. A word followed by `.` begins an id, and is not stored as a name. Every error is committed.
pub fn results_parse<S: CharStream, V: Copy, B: Copy, A: Drop>(
    stream: &mut S,
    names: &mut NameTracker<V, B>,
) -> ParseResult<Few<ReadName>, A>
    ensures read { MustNames S.view S.at names.new.names results_if_at stream.old result stream.new }
    ensures names { NamesRead names.old names.new }
{
    if stream.has_failed() {
        return Err(refuse(stream, Cause::StreamFailed));
    }
    if begins_id(stream) {
        return Ok(Few::none());
    }
    let place = stream.position();
    let found = match results_there(stream, names) {
        Ok(found) => found,
        Err(fault) => return Err(fault),
    };
    match found {
        Some(results) => Ok(results),
        None => {
            stream.reset(place);
            Ok(Few::none())
        }
    }
}
