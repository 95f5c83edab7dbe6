//! Parts of the texts of types and attributes.
ghost use Rattle.std.specs.Prelude.{◌≡◌, ℕ, List, ◌++◌, true, IfOk, OnErr, MatchOption, Ok, string_bytes};
ghost use Rattle.std.specs.Str.{encode_utf8_all};
ghost use Rattle.irtext_base.specs.Appending.{OnlyAppends};
ghost use Rattle.irtext_tokens.specs.MustRead.{MayRead};
ghost use Rattle.irtext_syntax.specs.PartLaws.{PartText, PartLaws, MissesClosers, EndsAnywhere};

use irtext_base::parsable::{ParseResult, TextStream};
use irtext_memory::OutOfMemory;
use std::alloc::AllocError;

/// A part of a type's or an attribute's text, such as a number or a quoted string; a value of `Self` is what it is parsed as. Errors are
/// those of a context whose attributes are `A`.
///
/// White space before a part is skipped by what puts parts together, so a part is parsed from its first character on.
pub trait Part<A>: Sized + Drop + Eq {
    // what `read` makes of a text that is next in the stream, the characters that `write_text` appends, and whether a text can come right
    // after these, as it does not continue them
    ghost text: { PartText Self };

    /// Parses a value. If none begins at the stream's position, the error is not committed and the stream is unchanged. If the text is bad
    /// further on, if an allocation fails, or if the stream had failed, the error is committed and the stream has failed.
    fn read(stream: &mut TextStream) -> ParseResult<Self, A>
        ensures { MayRead (λ s. s) (λ s v. v) (λ x. x) text.reading stream.old result stream.new };

    /// Parses a value as `read` does, but returns `None` in place of any error, and the stream is unchanged then. It may also return `None`
    /// where `read` finds a value, as this default does. A part that is often parsed should have it: no error is made where it succeeds.
    fn read_known(stream: &mut TextStream) -> Option<Self>
        ensures { MatchOption result (stream.new ≡ stream.old)
            (λ x. MayRead {A = A} (λ s. s) (λ s v. v) (λ x. x) text.reading stream.old (Ok x) stream.new) }
    {
        None
    }

    /// Appends the text of the value. Fails only when out of memory. The text that was there before stands then too, and what was appended
    /// up to the error remains.
    fn write_text(&self, f: &mut String) -> Result<(), OutOfMemory>
        ensures text { IfOk result (λ _. string_bytes f.new ≡ string_bytes f.old ++ encode_utf8_all
            (text.written self.now)) }
        ensures appended { OnErr result (OnlyAppends f.old f.new) };

    ghost sound: { PartLaws text Self.eq };
}

/// A part that is missing where a closing character comes, as `)` or `,`: it can be an item of a list, or be left out.
pub trait Item<A>: Part<A> {
    ghost misses: { MissesClosers Self.text.reading };
}

/// A part that can be the end of a type's or an attribute's text: whatever can come after such a text can come after the part.
pub trait Last<A>: Part<A> {
    ghost last: { EndsAnywhere Self.text.ends };
}

/// A part after which any text can come, such as one in brackets.
pub trait Closed<A>: Part<A> {
    ghost closed: { (rest : List ℕ) → Self.text.ends rest ≡ true };
}

/// A value that can be copied. A copy equals the value.
pub trait TryClone: Sized {
    /// Returns an equal copy. Fails only if an allocation fails.
    fn try_clone(&self) -> Result<Self, AllocError>
        ensures { IfOk result (λ copy. copy ≡ self.now) };
}

/// A `Copy` value, of which a copy is the value itself.
pub trait Plain: Copy {}

impl<T: Plain> TryClone for T {
    fn try_clone(&self) -> Result<T, AllocError> {
        Ok(*self)
    }
}
