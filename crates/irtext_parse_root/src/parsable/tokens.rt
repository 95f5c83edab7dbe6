//! Implementations of `Parsable` for numbers, truth values, identifiers, names of dialects and quoted texts.
ghost use Rattle.std.specs.Prelude.{◌≡◌, pos, string_bytes};
ghost use Rattle.std.specs.Str.{encode_utf8_all};
ghost use Rattle.irtext_base.specs.Answers.{mapped};
ghost use Rattle.irtext_tokens.specs.Integers.{bool_at, int_at, signed_below, unsigned_below};
ghost use Rattle.irtext_tokens.specs.QuotedTexts.{quoted_at};
ghost use Rattle.irtext_tokens.specs.Tokens.{identifier_at};
ghost use Rattle.irtext_tokens.specs.MustRead.{MayRead};
ghost use Rattle.irtext_grammar.specs.Readers.DialectNames.{dialect_name_at};
ghost use Rattle.irtext_grammar.specs.Readers.Streams.{itself, replaced};

use crate::parsable::{Parsable, ParseResult, StateStream};
use irtext_base::base::Identifier;
use irtext_base::parsable::CharStream;
use irtext_base::result::Cause;
use irtext_base::text::{AttrText, IrText};
use irtext_context::dialect::DialectName;
use irtext_tokens::irfmt::faults::refuse_at;
use irtext_tokens::irfmt::parsers::{bool_parse, identifier_parse, int_parse, quoted_string_parse};

impl<T: IrText<A>, A: AttrText<A>, U> Parsable<T, A, U> for usize {
    type Arg = ();

    type Parsed = usize;

    /// Parses a number as `int_parse` does, with the same errors. Nothing but the stream changes.
    fn parse(stream: &mut StateStream<'_, T, A, U>, _arg: ()) -> ParseResult<usize, A>
        ensures read { MayRead itself replaced pos (int_at (unsigned_below 64)) stream.old.stream result
            stream.new.stream }
        ensures state { stream.new.state ≡ stream.old.state }
    {
        int_parse(&mut stream.stream)
    }
}

impl<T: IrText<A>, A: AttrText<A>, U> Parsable<T, A, U> for u64 {
    type Arg = ();

    type Parsed = u64;

    /// Parses a number as `int_parse` does, with the same errors. Nothing but the stream changes.
    fn parse(stream: &mut StateStream<'_, T, A, U>, _arg: ()) -> ParseResult<u64, A>
        ensures read { MayRead itself replaced pos (int_at (unsigned_below 64)) stream.old.stream result
            stream.new.stream }
        ensures state { stream.new.state ≡ stream.old.state }
    {
        int_parse(&mut stream.stream)
    }
}

impl<T: IrText<A>, A: AttrText<A>, U> Parsable<T, A, U> for u32 {
    type Arg = ();

    type Parsed = u32;

    /// Parses a number as `int_parse` does, with the same errors. Nothing but the stream changes.
    fn parse(stream: &mut StateStream<'_, T, A, U>, _arg: ()) -> ParseResult<u32, A>
        ensures read { MayRead itself replaced pos (int_at (unsigned_below 32)) stream.old.stream result
            stream.new.stream }
        ensures state { stream.new.state ≡ stream.old.state }
    {
        int_parse(&mut stream.stream)
    }
}

impl<T: IrText<A>, A: AttrText<A>, U> Parsable<T, A, U> for u16 {
    type Arg = ();

    type Parsed = u16;

    /// Parses a number as `int_parse` does, with the same errors. Nothing but the stream changes.
    fn parse(stream: &mut StateStream<'_, T, A, U>, _arg: ()) -> ParseResult<u16, A>
        ensures read { MayRead itself replaced pos (int_at (unsigned_below 16)) stream.old.stream result
            stream.new.stream }
        ensures state { stream.new.state ≡ stream.old.state }
    {
        int_parse(&mut stream.stream)
    }
}

impl<T: IrText<A>, A: AttrText<A>, U> Parsable<T, A, U> for u8 {
    type Arg = ();

    type Parsed = u8;

    /// Parses a number as `int_parse` does, with the same errors. Nothing but the stream changes.
    fn parse(stream: &mut StateStream<'_, T, A, U>, _arg: ()) -> ParseResult<u8, A>
        ensures read { MayRead itself replaced pos (int_at (unsigned_below 8)) stream.old.stream result
            stream.new.stream }
        ensures state { stream.new.state ≡ stream.old.state }
    {
        int_parse(&mut stream.stream)
    }
}

impl<T: IrText<A>, A: AttrText<A>, U> Parsable<T, A, U> for i8 {
    type Arg = ();

    type Parsed = i8;

    /// Parses a number as `int_parse` does, with the same errors. Nothing but the stream changes.
    fn parse(stream: &mut StateStream<'_, T, A, U>, _arg: ()) -> ParseResult<i8, A>
        ensures read { MayRead itself replaced (λ z. z) (int_at (signed_below 8)) stream.old.stream result
            stream.new.stream }
        ensures state { stream.new.state ≡ stream.old.state }
    {
        int_parse(&mut stream.stream)
    }
}

impl<T: IrText<A>, A: AttrText<A>, U> Parsable<T, A, U> for i16 {
    type Arg = ();

    type Parsed = i16;

    /// Parses a number as `int_parse` does, with the same errors. Nothing but the stream changes.
    fn parse(stream: &mut StateStream<'_, T, A, U>, _arg: ()) -> ParseResult<i16, A>
        ensures read { MayRead itself replaced (λ z. z) (int_at (signed_below 16)) stream.old.stream result
            stream.new.stream }
        ensures state { stream.new.state ≡ stream.old.state }
    {
        int_parse(&mut stream.stream)
    }
}

impl<T: IrText<A>, A: AttrText<A>, U> Parsable<T, A, U> for i32 {
    type Arg = ();

    type Parsed = i32;

    /// Parses a number as `int_parse` does, with the same errors. Nothing but the stream changes.
    fn parse(stream: &mut StateStream<'_, T, A, U>, _arg: ()) -> ParseResult<i32, A>
        ensures read { MayRead itself replaced (λ z. z) (int_at (signed_below 32)) stream.old.stream result
            stream.new.stream }
        ensures state { stream.new.state ≡ stream.old.state }
    {
        int_parse(&mut stream.stream)
    }
}

impl<T: IrText<A>, A: AttrText<A>, U> Parsable<T, A, U> for i64 {
    type Arg = ();

    type Parsed = i64;

    /// Parses a number as `int_parse` does, with the same errors. Nothing but the stream changes.
    fn parse(stream: &mut StateStream<'_, T, A, U>, _arg: ()) -> ParseResult<i64, A>
        ensures read { MayRead itself replaced (λ z. z) (int_at (signed_below 64)) stream.old.stream result
            stream.new.stream }
        ensures state { stream.new.state ≡ stream.old.state }
    {
        int_parse(&mut stream.stream)
    }
}

impl<T: IrText<A>, A: AttrText<A>, U> Parsable<T, A, U> for bool {
    type Arg = ();

    type Parsed = bool;

    /// Parses a truth value as `bool_parse` does, with the same errors. Nothing but the stream changes.
    fn parse(stream: &mut StateStream<'_, T, A, U>, _arg: ()) -> ParseResult<bool, A>
        ensures read { MayRead itself replaced (λ b. b) bool_at stream.old.stream result stream.new.stream }
        ensures state { stream.new.state ≡ stream.old.state }
    {
        bool_parse(&mut stream.stream)
    }
}

impl<T: IrText<A>, A: AttrText<A>, U> Parsable<T, A, U> for Identifier {
    type Arg = ();

    type Parsed = Identifier;

    /// Parses an identifier as `identifier_parse` does, with the same errors. Nothing but the stream changes.
    fn parse(stream: &mut StateStream<'_, T, A, U>, _arg: ()) -> ParseResult<Identifier, A>
        ensures read { MayRead itself replaced (λ name. name) identifier_at stream.old.stream result
            stream.new.stream }
        ensures state { stream.new.state ≡ stream.old.state }
    {
        identifier_parse(&mut stream.stream)
    }
}

impl<T: IrText<A>, A: AttrText<A>, U> Parsable<T, A, U> for DialectName {
    type Arg = ();

    type Parsed = DialectName;

    /// Parses the name of a registered dialect. If no identifier comes next, fails as `identifier_parse` does, uncommitted. If no dialect
    /// with this name is registered, the error is `UnregisteredDialect` at the beginning of the name, committed. Nothing but the stream
    /// changes.
    fn parse(stream: &mut StateStream<'_, T, A, U>, _arg: ()) -> ParseResult<DialectName, A>
        ensures read { MayRead itself replaced (λ name. name)
            (dialect_name_at stream.old.state.ctx.now.dialects) stream.old.stream result stream.new.stream }
        ensures state { stream.new.state ≡ stream.old.state }
    {
        let at = stream.stream.position();
        let name: Identifier = identifier_parse(&mut stream.stream)?;
        let ctx = &mut *stream.state.ctx;
        if !ctx.has_dialect(&name) {
            return Err(refuse_at(&mut stream.stream, at, Cause::UnregisteredDialect(name)));
        }
        Ok(DialectName::from(name))
    }
}

impl<T: IrText<A>, A: AttrText<A>, U> Parsable<T, A, U> for String {
    type Arg = ();

    type Parsed = String;

    /// Parses a quoted text as `quoted_string_parse` does, with the same errors. Nothing but the stream changes.
    fn parse(stream: &mut StateStream<'_, T, A, U>, _arg: ()) -> ParseResult<String, A>
        ensures read { MayRead itself replaced (λ s. string_bytes s)
            (λ text. mapped encode_utf8_all (quoted_at text)) stream.old.stream result stream.new.stream }
        ensures state { stream.new.state ≡ stream.old.state }
    {
        quoted_string_parse(&mut stream.stream)
    }
}
