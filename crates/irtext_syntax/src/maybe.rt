//! Parts that may be left out.
use crate::part::{Item, Part, TryClone};
use irtext_base::parsable::{ParseResult, TextStream};
use irtext_memory::OutOfMemory;
use irtext_tokens::irfmt::faults::unless_committed;
use std::alloc::AllocError;

/// A part that may be left out. It is missing if no value of `P` begins, and nothing is then printed. So that this is seen, a closing
/// character has to come after it, as `>` or `,`, with or without white space before it.
impl<A: Drop, P: Item<A>> Part<A> for Option<P> {
    ghost use Rattle.std.specs.Prelude.{refl};
    ghost use Rattle.irtext_syntax.specs.Maybes.{maybe_at, maybe_text, maybe_ends};
    ghost use Rattle.irtext_syntax.specs.MaybeLaws.{maybe_law, maybe_decides};

    ghost text = { record {
      reading = maybe_at P.text.reading;
      written = maybe_text P.text.written;
      ends = maybe_ends P.text.ends;
    } };

    ghost sound = { record {
      law = maybe_law P.text.reading P.text.written P.text.ends P.sound.law P.misses;
      decides = maybe_decides P.eq ⟦<Option<P> as PartialEq>⟧.eq refl (λ x. refl) (λ x. refl) (λ x y.
          refl) P.sound.decides;
    } };

    fn read(stream: &mut TextStream) -> ParseResult<Option<P>, A> {
        match <P as Part<A>>::read(stream) {
            Ok(value) => Ok(Some(value)),
            Err(fault) => unless_committed(fault, None),
        }
    }

    fn write_text(&self, f: &mut String) -> Result<(), OutOfMemory> {
        match self {
            Some(value) => value.write_text(f),
            None => Ok(()),
        }
    }
}

impl<P: TryClone> TryClone for Option<P> {
    fn try_clone(&self) -> Result<Option<P>, AllocError> {
        match self {
            Some(value) => Ok(Some(value.try_clone()?)),
            None => Ok(None),
        }
    }
}
