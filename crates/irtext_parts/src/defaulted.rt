//! Parts with a default value.
ghost use Rattle.std.specs.Prelude.{◌≡◌, IfOk, IsTrue};

use irtext_base::parsable::{CharStream, ParseResult, TextStream};
use irtext_memory::OutOfMemory;
use irtext_syntax::part::{Item, Part, TryClone};
use irtext_tokens::irfmt::faults::out_of_memory;
use std::alloc::{AllocError, Global};
use std::marker::PhantomData;

/// The default value of a part.
pub trait DefaultOf<P: PartialEq> {
    // the value
    ghost value: { P };

    /// Makes a value that is equal to it. Fails only if an allocation fails.
    fn make(alloc: Global) -> Result<P, AllocError>
        ensures { IfOk result (λ x. IsTrue (P.eq x value)) };

    /// Whether a value is the default one.
    fn is_it(x: &P) -> bool
        ensures { result ≡ P.eq x.now value };
}

/// A part that may be left out, and then has the default value of `D`. The default value is not printed; a text that has it is accepted. So
/// that this is seen, a closing character has to come after it, as `>` or `,`, with or without white space before it.
#[derive(Drop)]
#[derive_where(PartialEq, Eq, Hash, Debug; P)]
pub struct Defaulted<P, D> {
    pub value: P,
    #[derive_where(skip)]
    pub kind: PhantomData<D>,
}

impl<P, D> Defaulted<P, D> {
    /// Makes a part of a value.
    pub fn new(value: P) -> Defaulted<P, D>
        ensures { result.value ≡ value }
    {
        Defaulted {
            value,
            kind: PhantomData,
        }
    }
}

impl<P: TryClone, D> TryClone for Defaulted<P, D> {
    fn try_clone(&self) -> Result<Defaulted<P, D>, AllocError> {
        let value = self.value.try_clone()?;
        Ok(Defaulted {
            value,
            kind: PhantomData,
        })
    }
}

impl<A: Drop, P: Item<A>, D: DefaultOf<P>> Part<A> for Defaulted<P, D> {
    ghost use Rattle.std.specs.Prelude.{refl};
    ghost use Rattle.irtext_syntax.specs.Maybes.{maybe_ends};
    ghost use Rattle.irtext_parts.specs.Defaulteds.{defaulted_at, defaulted_text};
    ghost use Rattle.irtext_parts.specs.DefaultLaws.{defaulted_law, defaulted_decides};

    ghost text = { record {
      reading = defaulted_at D.value P.text.reading;
      written = defaulted_text P.eq D.value P.text.written;
      ends = maybe_ends P.text.ends;
    } };

    ghost sound = { record {
      law = defaulted_law P.eq D.value P.sound.decides P.text.reading P.text.written P.text.ends
          P.sound.law P.misses;
      decides = defaulted_decides P.eq ⟦<Defaulted<P, D> as PartialEq>⟧.eq (λ x y. refl) P.sound.decides;
    } };

    fn read(stream: &mut TextStream) -> ParseResult<Defaulted<P, D>, A> {
        let found = match <Option<P> as Part<A>>::read(stream) {
            Ok(found) => found,
            Err(fault) => return Err(fault),
        };
        if let Some(value) = found {
            return Ok(Defaulted::new(value));
        }
        match D::make(stream.allocator()) {
            Ok(value) => Ok(Defaulted::new(value)),
            Err(_) => Err(out_of_memory(stream)),
        }
    }

    fn write_text(&self, f: &mut String) -> Result<(), OutOfMemory> {
        if D::is_it(&self.value) {
            return Ok(());
        }
        self.value.write_text(f)
    }
}
