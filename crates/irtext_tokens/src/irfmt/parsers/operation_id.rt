//! The parser of operation ids.
ghost use Rattle.irtext_base.specs.Faults.{id_of};
ghost use Rattle.std.specs.Prelude.{codes};
ghost use Rattle.irtext_tokens.specs.Infix.{◌▷◌};
ghost use Rattle.irtext_tokens.specs.MustRead.{MustRead};
ghost use Rattle.irtext_tokens.specs.Tokens.{id_at, identifier_at, word};
ghost use Rattle.irtext_tokens.specs.Reads.{ReadsAs};

use crate::irfmt::demanded::{identifier_demanded, text_demanded};
use crate::irfmt::parsers::identifier::word_parse;
use irtext_base::base::{Identifier, OpId};
use irtext_base::parsable::{CharStream, ParseResult};
use irtext_base::result::Expected;

/// Parses `.` and an operation's name, after its dialect. Every error is committed.
fn name_demanded<S: CharStream, A>(stream: &mut S) -> ParseResult<Identifier, A>
    ensures { MustRead S.view S.at (λ name. name) (word (codes ".") ▷ identifier_at) stream.old
        result stream.new }
{
    text_demanded(stream, ".")?;
    identifier_demanded(stream)
}

/// Parses an operation's id, such as `builtin.module`: the dialect, `.` and the operation's name, without white space between them. If no
/// dialect comes next, fails with `Unexpected`, uncommitted. Every other error is committed.
#[tactic(auto, unfolding(crate::specs::Tokens::id_at))]
pub fn id_parse<S: CharStream, A>(stream: &mut S) -> ParseResult<OpId, A>
    ensures { ReadsAs S.view S.at id_of id_at stream.old result stream.new }
{
    let dialect = word_parse(stream, Expected::Operation)?;
    let name = name_demanded(stream)?;
    Ok(OpId { dialect, name })
}
