//! Classes of characters, and skipping a run of characters of a class.
ghost use Rattle.std.specs.Char.{is_whitespace};
ghost use Rattle.irtext_tokens.specs.Tokens.{has};
ghost use Rattle.irtext_tokens.specs.Reads.{TakesFront};

use irtext_base::parsable::CharStream;
pub use irtext_base::parsable::Class;

/// Consumes the longest run of characters of the class that comes next, on a failed stream too.
#[inline]
#[tactic(auto, using(irtext_base::proofs::Along::fronts))]
pub fn skip_class<S: CharStream>(stream: &mut S, class: Class)
    ensures { TakesFront S.view S.at (has class) stream.old stream.new }
{
    stream.skip(class);
}

/// Consumes the white space that comes next, on a failed stream too.
#[inline(always)]
pub fn skip_white_space<S: CharStream>(stream: &mut S)
    ensures { TakesFront S.view S.at is_whitespace stream.old stream.new }
{
    skip_class(stream, Class::WhiteSpace)
}
