//! White space, and whether another operation of a block comes next.
ghost use Rattle.std.specs.Prelude.{◌≡◌, true, false};
ghost use Rattle.irtext_base.specs.Text.{after_space};
ghost use Rattle.irtext_parse_root.specs.OperationFollows.{operation_follows, text_there, PassesTo};

use irtext_base::parsable::{CharStream, Class, TextStream};
use irtext_tokens::irfmt::faults::{begins, next_is};
use irtext_tokens::irfmt::parsers::skip_white_space;

/// Consumes white space.
pub(crate) fn space_parse(stream: &mut TextStream)
    ensures { PassesTo (after_space stream.old.rest) stream.old stream.new }
{
    skip_white_space(stream);
}

/// Consumes white space, and returns whether an operation begins after it.
fn skip_to_first(stream: &mut TextStream) -> bool
    ensures passes { PassesTo (after_space stream.old.rest) stream.old stream.new }
    ensures follows_on { result ≡ operation_follows true stream.old.rest }
{
    space_parse(stream);
    begins(stream, Class::Beginning) || next_is(stream, '=')
}

/// Consumes white space and, if `;` comes next, the `;` and the white space after it. Returns whether there was a `;`.
fn skip_to_next(stream: &mut TextStream) -> bool
    ensures passes { PassesTo (text_there false stream.old.rest) stream.old stream.new }
    ensures follows_on { result ≡ operation_follows false stream.old.rest }
{
    space_parse(stream);
    if !next_is(stream, ';') {
        return false;
    }
    let _ = stream.take();
    space_parse(stream);
    true
}

/// Consumes what precedes the next operation of a block, and returns whether there is one. `first` says whether it is the block's first.
pub(crate) fn skip_to_operation(stream: &mut TextStream, first: bool) -> bool
    ensures passes { PassesTo (text_there first stream.old.rest) stream.old stream.new }
    ensures follows_on { result ≡ operation_follows first stream.old.rest }
{
    if first {
        skip_to_first(stream)
    } else {
        skip_to_next(stream)
    }
}
