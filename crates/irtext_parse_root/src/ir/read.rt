//! The parser for operations.
ghost use Rattle.std.specs.Prelude.{◌≡◌};
ghost use Rattle.irtext_parse_root.specs.Parses.{Undoes, ResolvesOperation, FirstOfOperation};

use crate::outermost::outermost_parse;
use crate::parsable::Parsable;
use irtext_base::parsable::ParseResult;
use irtext_base::text::{AttrText, IrText};
use irtext_context::base::{Operation, Ptr};
use irtext_parse_state::parsable::StateStream;

/// How an operation is parsed.
#[derive(Clone, Copy)]
pub struct OperationParserConfig {
    /// Whether the section of its marked items is parsed after it. An item is an operation or a block that carries a mark.
    pub look_for_outlined_attrs: bool,
}

impl<T: IrText<A>, A: AttrText<A>, U> Parsable<T, A, U> for Operation {
    type Arg = OperationParserConfig;

    type Parsed = Ptr<Operation>;

    /// Parses an operation with everything nested in it. If `look_for_outlined_attrs` is set and a mark is recorded, the section of all
    /// recorded marks is parsed after it; otherwise the marks stay recorded. Errors, and what they leave unchanged, are those of
    /// `top_level_parse`.
    fn parse(
        stream: &mut StateStream<'_, T, A, U>,
        config: OperationParserConfig,
    ) -> ParseResult<Ptr<Operation>, A>
        ensures lent { stream.new.state.ctx.ghost_name ≡ stream.old.state.ctx.ghost_name }
        ensures undone { Undoes stream.old result stream.new }
        ensures resolves { ResolvesOperation T.IrText.own A.IrText.own config.look_for_outlined_attrs
            stream.old result stream.new }
        ensures first { FirstOfOperation T.IrText.own A.IrText.own config.look_for_outlined_attrs
            stream.old result stream.new }
    {
        outermost_parse(stream, config.look_for_outlined_attrs)
    }
}
