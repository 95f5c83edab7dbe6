//! Names that are used outside of every region. No scope of names is open there, so each such name is an error.
ghost use Rattle.std.specs.Prelude.{false, IfErr, OnOk};
ghost use Rattle.irtext_grammar.specs.Heads.{used_at, target_at};
ghost use Rattle.irtext_parse_pieces.specs.Named.{Misses};

use irtext_base::parsable::{CharStream, ParseResult};
use irtext_context::base::{BasicBlock, Ptr, Value};
use irtext_parse_pieces::names::used_outside;
use irtext_tokens::irfmt::faults::commit;
use irtext_tokens::irfmt::parsers::text_parse;

/// Parses the name of a value that is used, as `x`. It is called where no scope of values is open, so it always fails, with
/// `NoActiveScope` at the name. If no name comes next, the error is uncommitted and the stream is unchanged.
pub fn ssa_opd_parse<S: CharStream, A>(stream: &mut S) -> ParseResult<Value, A>
    ensures refused { IfErr result (λ fault. Misses S.view S.at (used_at false) stream.old fault stream.new) }
    ensures none { OnOk result ⊥ }
{
    Err(used_outside(stream))
}

/// Parses `^` and the label of a block that is used, as `^b`. It is called where no region is open, so it always fails, with
/// `NoActiveScope` at the label. If `^` does not come next, the error is uncommitted and the stream is unchanged.
pub fn block_opd_parse<S: CharStream, A>(stream: &mut S) -> ParseResult<Ptr<BasicBlock>, A>
    ensures refused { IfErr result (λ fault. Misses S.view S.at (target_at false) stream.old fault
        stream.new) }
    ensures none { OnOk result ⊥ }
{
    text_parse(stream, "^")?;
    let fault = used_outside(stream);
    Err(commit(stream, fault))
}
