//! The calls that parse an operation, and that give it as a printable value.
ghost use Rattle.std.specs.Prelude.{◌≡◌, true};
ghost use Rattle.irtext_parse_root.specs.Parses.{Undoes, ResolvesRoot, ResolvesWhole, FirstOfOperation, FirstOfWhole};

use irtext_base::parsable::ParseResult;
use irtext_base::text::{AttrText, IrText};
use irtext_context::base::{Context, Operation, Ptr};
use irtext_parse_root::outermost::outermost_parse;
use irtext_parse_root::whole::whole_parse;
use irtext_parse_state::parsable::StateStream;
use irtext_print_ir::ir::print::OpObj;

/// Parsing of operations, and an operation as a printable value.
pub trait OperationText {
    /// Parses an operation with everything nested in it. If a mark is recorded then (of this operation, of something nested in it, or
    /// from an earlier call), the section of the recorded marks has to follow; it is parsed too. The text after that is not looked at,
    /// so one stream may contain several such operations, one after the other.
    ///
    /// The operation's location is the position where it begins, unless its entry in the section gives another.
    ///
    /// An error holds its cause and its position: line and column, both from 1, in characters. An uncommitted error means that nothing
    /// was parsed; the stream is unchanged. After a committed error the stream has failed, and each later call on it returns a
    /// committed error with the cause `StreamFailed`. After any error, including out of memory, all objects of the context, the
    /// recorded marks, the source and the caller's data are unchanged; the context may hold more file paths than before.
    ///
    /// On a stream that has not failed, and with no mark recorded, the clause `resolves` says in the terms of the grammar what is
    /// accepted: the text is that of a tree and its section, which resolve, and what they build is what is new in the context; or
    /// whatever tree the text is does not resolve. The clause `first` says it on every state: an operation is returned for a text that
    /// has no error, and an error that is not out of memory is the first one of the text, of a name or of a mark. The clause `undone`
    /// says what an error leaves unchanged.
    ///
    /// This text is a module with a region of one block, which contains one operation:
    ///
    /// ```text
    /// builtin.module @m {
    ///   ^entry():
    ///     test.nop
    /// }
    /// ```
    fn top_level_parse<T: IrText<A>, A: AttrText<A>, U>(
        stream: &mut StateStream<'_, T, A, U>,
    ) -> ParseResult<Ptr<Operation>, A>
        ensures lent { stream.new.state.ctx.ghost_name ≡ stream.old.state.ctx.ghost_name }
        ensures undone { Undoes stream.old result stream.new }
        ensures resolves { ResolvesRoot T.IrText.own A.IrText.own stream.old result stream.new }
        ensures first { FirstOfOperation T.IrText.own A.IrText.own true stream.old result stream.new };

    /// Parses an operation as `top_level_parse` does; only white space may follow it, or the section after it, up to the end of the text.
    /// If something else follows, the error is committed and its position is there: ``Unexpected `b`, expected end of input``. The end is
    /// looked for before the operations and blocks of the recorded marks get what their entries give. So after any error, including out
    /// of memory, all objects of the context, the recorded marks, the source and the caller's data are unchanged; the context may hold
    /// more file paths than before.
    fn whole_text_parse<T: IrText<A>, A: AttrText<A>, U>(
        stream: &mut StateStream<'_, T, A, U>,
    ) -> ParseResult<Ptr<Operation>, A>
        ensures lent { stream.new.state.ctx.ghost_name ≡ stream.old.state.ctx.ghost_name }
        ensures undone { Undoes stream.old result stream.new }
        ensures resolves { ResolvesWhole T.IrText.own A.IrText.own stream.old result stream.new }
        ensures first { FirstOfWhole T.IrText.own A.IrText.own stream.old result stream.new };

    /// Returns the operation as a plain value that prints its concrete text: its id and its pieces, without its mark and without a
    /// section.
    fn get_op_dyn<T: IrText<A>, A: AttrText<A>>(op: Ptr<Operation>, ctx: &Context<T, A>) -> OpObj
        ensures { result ≡ record { op = op } };
}

impl OperationText for Operation {
    fn top_level_parse<T: IrText<A>, A: AttrText<A>, U>(
        stream: &mut StateStream<'_, T, A, U>,
    ) -> ParseResult<Ptr<Operation>, A> {
        outermost_parse(stream, true)
    }

    fn whole_text_parse<T: IrText<A>, A: AttrText<A>, U>(
        stream: &mut StateStream<'_, T, A, U>,
    ) -> ParseResult<Ptr<Operation>, A> {
        whole_parse(stream)
    }

    fn get_op_dyn<T: IrText<A>, A: AttrText<A>>(op: Ptr<Operation>, _ctx: &Context<T, A>) -> OpObj {
        OpObj { op }
    }
}
