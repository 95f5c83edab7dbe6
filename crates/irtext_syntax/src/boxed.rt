//! Parts that are kept in a box.
ghost use Rattle.std.specs.Prelude.{◌≡◌, IfOk};
ghost use Rattle.std.specs.Cmp.{on_equiv, on_per};

use crate::part::{Closed, Item, Last, Part, TryClone};
use irtext_base::parsable::{CharStream, ParseResult, TextStream};
use irtext_memory::OutOfMemory;
use irtext_tokens::irfmt::faults::out_of_memory;
use std::alloc::{AllocError, Global};
use std::fmt;
use std::hash::{Hash, Hasher};
use std::marker::Model;

/// A part that is kept in a box, for the variant of an enum that is much wider than the others. Its text and its value are those of the
/// part.
#[derive(Drop)]
pub struct Boxed<P> {
    value: Box<P>,
}

impl<P> Model for Boxed<P> {
    ghost Value = { P };

    ghost coded = { P.code };

    ghost view = { λ b. b.value.value };
}

impl<P: Drop> Boxed<P> {
    /// Puts a value into a box. Fails only if its allocation fails.
    pub fn new(alloc: Global, value: P) -> Result<Boxed<P>, AllocError>
        ensures { IfOk result (λ b. b ≡ value) }
    {
        Ok(Boxed {
            value: Box::new(alloc, value)?,
        })
    }
}

impl<P> Boxed<P> {
    /// Returns the value.
    pub fn get(&self) -> &P
        ensures { result.now ≡ self.now }
    {
        self.value.as_ref()
    }
}

impl<P: TryClone + Drop> TryClone for Boxed<P> {
    fn try_clone(&self) -> Result<Boxed<P>, AllocError> {
        let copy = self.get().try_clone()?;
        Boxed::new(*Box::allocator(&self.value), copy)
    }
}

impl<P: fmt::Debug> fmt::Debug for Boxed<P> {
    fn fmt<W: fmt::Write>(&self, f: &mut fmt::Formatter<W>) -> fmt::Result {
        self.get().fmt(f)
    }
}

impl<P: PartialEq> PartialEq for Boxed<P> {
    ghost eq = { λ x y. P.eq x y };

    ghost laws = { on_per (λ b. b) P.PartialEq.laws };

    fn eq(&self, other: &Self) -> bool {
        self.get() == other.get()
    }
}

impl<P: Eq> Eq for Boxed<P> {
    ghost laws = { on_equiv (λ b. b) P.Eq.laws };
}

impl<P: Hash + Eq> Hash for Boxed<P> {
    ghost hash_input = { λ b. P.hash_input b };

    ghost respects_eq = { P.respects_eq };

    fn hash<H: Hasher>(&self, state: &mut H) {
        self.get().hash(state);
    }
}

impl<A, P: Part<A>> Part<A> for Boxed<P> {
    ghost text = { record { reading = P.text.reading; written = P.text.written; ends = P.text.ends } };

    ghost sound = { record { law = P.sound.law; decides = P.sound.decides } };

    fn read(stream: &mut TextStream) -> ParseResult<Boxed<P>, A> {
        let value = match <P as Part<A>>::read(stream) {
            Ok(value) => value,
            Err(fault) => return Err(fault),
        };
        match Boxed::new(stream.allocator(), value) {
            Ok(boxed) => Ok(boxed),
            Err(_) => Err(out_of_memory(stream)),
        }
    }

    fn write_text(&self, f: &mut String) -> Result<(), OutOfMemory> {
        self.get().write_text(f)
    }
}

impl<A, P: Item<A>> Item<A> for Boxed<P> {
    ghost misses = { P.misses };
}

impl<A, P: Last<A>> Last<A> for Boxed<P> {
    ghost last = { P.last };
}

impl<A, P: Closed<A>> Closed<A> for Boxed<P> {
    ghost closed = { P.closed };
}
