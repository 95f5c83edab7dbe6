//! The caller's types and attributes as parts.
use crate::part::{Item, Last, Part, TryClone};
use irtext_base::parsable::{ParseResult, TextStream};
use irtext_base::text::IrText;
use irtext_memory::OutOfMemory;
use irtext_tokens::either::Either;
use std::alloc::AllocError;

/// A type or an attribute of the caller, as a part.
#[derive(PartialEq, Eq, Hash, Debug, Drop)]
pub struct Own<T> {
    pub value: T,
}

impl<A, T: IrText<A>> Part<A> for Own<T> {
    ghost use Rattle.std.specs.Prelude.{refl};
    ghost use Rattle.irtext_syntax.specs.Owns.{own_at, own_text, ends_text};
    ghost use Rattle.irtext_syntax.specs.OwnLaws.{own_law, own_decides};

    ghost text = { record { reading = own_at T.reading; written = own_text T.written; ends = ends_text } };

    ghost sound = { record {
      law = own_law T.reading T.written T.lawful T.sincere;
      decides = own_decides T.eq ⟦<Own<T> as PartialEq>⟧.eq (λ x y. refl) T.decides;
    } };

    fn read(stream: &mut TextStream) -> ParseResult<Own<T>, A> {
        match <T as IrText<A>>::read(stream) {
            Ok(value) => Ok(Own { value }),
            Err(fault) => Err(fault),
        }
    }

    fn write_text(&self, f: &mut String) -> Result<(), OutOfMemory> {
        self.value.write_text(f)
    }
}

impl<A, T: IrText<A>> Item<A> for Own<T> {
    ghost use Rattle.irtext_syntax.specs.OwnLaws.{own_misses};

    ghost misses = { own_misses T.reading T.written T.lawful };
}

impl<A, T: IrText<A>> Last<A> for Own<T> {
    ghost use Rattle.irtext_syntax.specs.OwnLaws.{own_last};

    ghost last = { own_last };
}

impl<T: TryClone> TryClone for Own<T> {
    fn try_clone(&self) -> Result<Own<T>, AllocError> {
        Ok(Own {
            value: self.value.try_clone()?,
        })
    }
}

impl<L: TryClone, R: TryClone, W> TryClone for Either<L, R, W> {
    fn try_clone(&self) -> Result<Either<L, R, W>, AllocError> {
        match self {
            Either::Left(x) => Ok(Either::Left(x.try_clone()?)),
            Either::Right(y, _) => Ok(Either::right(y.try_clone()?)),
        }
    }
}
