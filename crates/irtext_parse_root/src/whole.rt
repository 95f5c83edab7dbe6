//! The parser for a whole text: a root, and white space up to the end.
ghost use Rattle.std.specs.Prelude.{◌≡◌, ℕ, false, IfErr, OnOk, OnErr};
ghost use Rattle.irtext_context.specs.Context.{KeepsOlder};
ghost use Rattle.irtext_tokens.specs.AttrTexts.{attr_at};
ghost use Rattle.irtext_parse_state.specs.States.{KeepsRest, marks_of};
ghost use Rattle.irtext_grammar.specs.Contexts.Held.{whole};
ghost use Rattle.irtext_grammar.specs.Readers.Refusals.{CommittedRefusal};
ghost use Rattle.irtext_grammar.specs.Promises.Root.{UnlessMemory};
ghost use Rattle.irtext_parse_locations.specs.Applied.{AreNewer};
ghost use Rattle.irtext_parse_root.specs.Ended.{EndsAny, MissesEnd};
ghost use Rattle.irtext_parse_root.specs.Parses.{Undoes, CanUndo, ResolvesWhole, FirstOfWhole, AnswersWhole};
ghost use Rattle.irtext_parse_root.specs.Whole.{OnlySpace, ExpectsEnd};

use crate::outermost::failed_fault;
use crate::tree::tree_parse;
use crate::undo::{start_of, undone_on_error};
use irtext_base::parsable::{CharStream, ParseResult, TextStream};
use irtext_base::result::Expected;
use irtext_base::text::{AttrText, IrText};
use irtext_context::base::{Operation, Ptr};
use irtext_parse_section::section::{section_checked, section_given};
use irtext_parse_state::parsable::StateStream;
use irtext_tokens::irfmt::faults::commit_unexpected;
use irtext_tokens::irfmt::parsers::skip_white_space;

/// Skips white space, after which nothing may be left. Otherwise the error is `Unexpected` at the first other character, and committed.
fn end_demanded<A>(stream: &mut TextStream) -> ParseResult<(), A>
    ensures ends { OnOk result (OnlySpace stream.old stream.new) }
    ensures more { IfErr result (ExpectsEnd (whole stream.old) stream.old.rest) }
    ensures refused { IfErr result (λ fault. CommittedRefusal stream.old fault stream.new) }
{
    skip_white_space(stream);
    if stream.peek().is_none() {
        return Ok(());
    }
    Err(commit_unexpected(stream, Expected::EndOfInput))
}

/// Parses what follows the operation of a whole text: if a mark is recorded, the section of all recorded marks, and white space up to the
/// end. Only then does each item, which is an operation or a block that carries a mark, get what its entry gives, and no mark is recorded
/// any more. So an error of the text changes no item. If an allocation fails, no item changes either if `earlier` is set, which says that
/// marks were recorded before the operation was parsed; otherwise the caller removes the items. Every error is committed, and leaves the
/// recorded marks unchanged.
fn rest_parse<T: IrText<A>, A: AttrText<A>, U>(
    s: &mut StateStream<'_, T, A, U>,
    earlier: bool,
) -> ParseResult<(), A>
    ensures lent { s.new.state.ctx.ghost_name ≡ s.old.state.ctx.ghost_name }
    ensures rest { KeepsRest s.old.state s.new.state }
    ensures read { OnOk result (EndsAny (attr_at A.IrText.reading) s.old s.new) }
    ensures missed { s.old.stream.failed ≡ false
        → IfErr result (UnlessMemory (MissesEnd (attr_at A.IrText.reading) s.old)) }
    ensures refused { IfErr result (λ fault. CommittedRefusal s.old.stream fault s.new.stream) }
    ensures marks { OnErr result (marks_of s.new.state ≡ marks_of s.old.state) }
    ensures kept { (mark : ℕ) → AreNewer mark s.old.state.ctx.now (marks_of s.old.state)
        → KeepsOlder mark s.old.state.ctx.now s.new.state.ctx.now }
    ensures unchanged { (mark : ℕ) → (earlier ≡ false → AreNewer mark s.old.state.ctx.now
        (marks_of s.old.state)) →
        OnErr result (KeepsOlder mark s.old.state.ctx.now s.new.state.ctx.now) }
{
    if !s.state.has_marks() {
        return end_demanded(&mut s.stream);
    }
    let entries = section_checked(s)?;
    end_demanded(&mut s.stream)?;
    section_given(s, entries, earlier)
}

/// Parses a root with its section, and white space up to the end. On an error, the objects that were created stay in the context, and
/// the root's marks stay recorded.
fn ended_parse<T: IrText<A>, A: AttrText<A>, U>(
    s: &mut StateStream<'_, T, A, U>,
) -> ParseResult<Ptr<Operation>, A>
    requires fine { s.old.stream.failed ≡ false }
    ensures lent { s.new.state.ctx.ghost_name ≡ s.old.state.ctx.ghost_name }
    ensures undone { CanUndo s.old result s.new }
    ensures answers { AnswersWhole T.IrText.own A.IrText.own s.old result s.new }
{
    let earlier = s.state.has_marks();
    let op = tree_parse(s)?;
    rest_parse(s, earlier)?;
    Ok(op)
}

/// Parses a root with its section, as `outermost_parse` does, after which only white space may be left. Otherwise the error is
/// `Unexpected` at the first other character: the end of the text was expected. On an error, the objects that were created are removed,
/// none of the root's marks stays recorded, and everything older is unchanged: the items of roots that were parsed before, whose marks are
/// still recorded, keep what they had. On a stream that has failed the error is `StreamFailed`; if an allocation fails, the error is
/// `Memory`.
pub fn whole_parse<T: IrText<A>, A: AttrText<A>, U>(
    s: &mut StateStream<'_, T, A, U>,
) -> ParseResult<Ptr<Operation>, A>
    ensures lent { s.new.state.ctx.ghost_name ≡ s.old.state.ctx.ghost_name }
    ensures undone { Undoes s.old result s.new }
    ensures resolves { ResolvesWhole T.IrText.own A.IrText.own s.old result s.new }
    ensures first { FirstOfWhole T.IrText.own A.IrText.own s.old result s.new }
{
    if s.stream.has_failed() {
        return Err(failed_fault(&s.stream));
    }
    let start = start_of(&s.state);
    let answer = ended_parse(s);
    undone_on_error(s, start, answer)
}
