//! Implementations of `Parsable` for locations and their parts.
ghost use Rattle.std.specs.Prelude.{◌≡◌, IfOk};
ghost use Rattle.irtext_base.specs.Moves.{path_kept, all_kept};
ghost use Rattle.irtext_base.specs.Paths.{path_of, is_known};
ghost use Rattle.irtext_tokens.specs.AttrTexts.{attr_at};
ghost use Rattle.irtext_parse_state.specs.States.{KeepsRest, marks_of};
ghost use Rattle.irtext_grammar.specs.Readers.Locations.{source_at, location_at};
ghost use Rattle.irtext_grammar.specs.Readers.Positions.{position_at};
ghost use Rattle.irtext_tokens.specs.MustRead.{MayRead};
ghost use Rattle.irtext_grammar.specs.Contexts.Held.{location_over};
ghost use Rattle.irtext_grammar.specs.Readers.NewPaths.{AddsPaths, MayReadOver, known_location};
ghost use Rattle.irtext_grammar.specs.Readers.Streams.{itself, replaced};

use crate::parsable::{Parsable, ParseResult, StateStream};
use irtext_base::location::{Location, Source};
use irtext_base::parsable::SourcePosition;
use irtext_base::text::{AttrText, IrText};
use irtext_parse_locations::location::nested::location_parse;
use irtext_parse_locations::location::source::{position_parse, source_parse};

impl<T: IrText<A>, A: AttrText<A>, U> Parsable<T, A, U> for SourcePosition {
    type Arg = ();

    type Parsed = SourcePosition;

    /// Parses `line: L, column: C`, with optional white space around each `:` and around `,`. If `l` does not come next, the error is
    /// `Unexpected`, uncommitted; every other error is committed. If a number does not fit, the error is `NumberRange`, at the beginning
    /// of the number. Nothing but the stream changes.
    fn parse(stream: &mut StateStream<'_, T, A, U>, _arg: ()) -> ParseResult<SourcePosition, A>
        ensures read { MayRead itself replaced (λ at. at) position_at stream.old.stream result
            stream.new.stream }
        ensures state { stream.new.state ≡ stream.old.state }
    {
        position_parse(&mut stream.stream)
    }
}

impl<T: IrText<A>, A: AttrText<A>, U> Parsable<T, A, U> for Source {
    type Arg = ();

    type Parsed = Source;

    /// Parses a quoted path, or `<in-memory>`. The context keeps the path from then on; the rest of the state is unchanged. If neither
    /// `"` nor `<` comes next, the error is `Unexpected`, uncommitted; every other error is committed. The errors in a quoted path are
    /// those of `quoted_string_parse`.
    fn parse(stream: &mut StateStream<'_, T, A, U>, _arg: ()) -> ParseResult<Source, A>
        ensures lent { stream.new.state.ctx.ghost_name ≡ stream.old.state.ctx.ghost_name }
        ensures adds { AddsPaths stream.old.state.ctx.now stream.new.state.ctx.now }
        ensures rest { KeepsRest stream.old.state stream.new.state }
        ensures marks { marks_of stream.new.state ≡ marks_of stream.old.state }
        ensures read { MayReadOver is_known path_of source_at stream.new.state.ctx.now.paths stream.old.stream
            result stream.new.stream }
        ensures paths { IfOk result
            (λ source. stream.new.state.ctx.now.paths ≡ path_kept stream.old.state.ctx.now.paths
            (path_of stream.new.state.ctx.now.paths source)) }
    {
        let ctx = &mut *stream.state.ctx;
        source_parse(&mut stream.stream, ctx)
    }
}

impl<T: IrText<A>, A: AttrText<A>, U> Parsable<T, A, U> for Location<A> {
    type Arg = ();

    type Parsed = Location<A>;

    /// Parses a location of any kind: a source with a line and a column, `fused[..]` or `fused<ATTRIBUTE>[..]`,
    /// `name: "N", loc: (LOCATION)`, `callsite(LOCATION at LOCATION)`, or `?`. The context keeps the paths of its files from then on,
    /// also if the location has an error; the rest of the state is unchanged. If the next character begins no location, the error is
    /// `Unexpected`, uncommitted; otherwise an error is committed, at the place where a part of the location is missing or has an error.
    fn parse(stream: &mut StateStream<'_, T, A, U>, _arg: ()) -> ParseResult<Location<A>, A>
        ensures lent { stream.new.state.ctx.ghost_name ≡ stream.old.state.ctx.ghost_name }
        ensures adds { AddsPaths stream.old.state.ctx.now stream.new.state.ctx.now }
        ensures rest { KeepsRest stream.old.state stream.new.state }
        ensures marks { marks_of stream.new.state ≡ marks_of stream.old.state }
        ensures read { MayReadOver known_location location_over (location_at (attr_at A.IrText.reading))
            stream.new.state.ctx.now.paths stream.old.stream result stream.new.stream }
        ensures paths { IfOk result
            (λ l. stream.new.state.ctx.now.paths ≡ all_kept stream.old.state.ctx.now.paths
            (location_over stream.new.state.ctx.now.paths l)) }
    {
        let ctx = &mut *stream.state.ctx;
        location_parse(&mut stream.stream, ctx)
    }
}
