//! Two families of types or of attributes as one, told apart by the dotted words that their texts begin with. So the types of two dialects,
//! by two authors, are the types of one context:
//!
//! ```text
//! struct Mine;
//!
//! impl Apart<DemoType, MyType> for Mine {
//!     ghost apart = { refl };
//! }
//!
//! type AnyType = Either<DemoType, MyType, Mine>;
//! ```
ghost use Rattle.std.specs.Prelude.{◌≡◌};
ghost use Rattle.irtext_base.specs.Text.{front, in_dotted};
ghost use Rattle.irtext_base.specs.Families.{is_one_of};

use crate::irfmt::parsers::{Class, skip_class};
use irtext_base::parsable::{CharStream, ParseResult, TextStream};
use irtext_base::text::{Apart, AttrText, Family, IrText, Worded};
use irtext_memory::OutOfMemory;
use std::alloc::AllocError;
use std::marker::PhantomData;

/// A type or an attribute of one of two families. `W` says that these have no word in common (`Apart`). A text whose first word is one of
/// the first family is parsed as a value of that family, and any other text as one of the second, whose parser rejects unknown words.
#[derive(Drop)]
#[derive_where(PartialEq, Eq, Hash, Debug; L, R)]
pub enum Either<L, R, W> {
    Left(L),
    Right(R, #[derive_where(skip)] PhantomData<W>),
}

impl<L, R, W> Either<L, R, W> {
    ghost use Rattle.irtext_tokens.specs.Eithers.{right};

    /// Returns a value of the second family; `Either::Left` makes one of the first.
    pub fn right(value: R) -> Either<L, R, W>
        ensures { result ≡ right value }
    {
        Either::Right(value, PhantomData)
    }
}

/// Returns whether the dotted word that is next in the stream is one of the family's. The stream is unchanged.
fn is_next_word_of<F: Worded>(stream: &mut TextStream) -> bool
    ensures word { result ≡ is_one_of F.words (front in_dotted stream.old.rest) }
    ensures stays { stream.new ≡ stream.old }
{
    let place = stream.position();
    skip_class(stream, Class::Dotted);
    let answer = F::has_word(stream.text_since(place));
    stream.reset(place);
    answer
}

impl<L: Worded, R: Worded, W> Worded for Either<L, R, W> {
    ghost use Rattle.std.specs.Prelude.{◌++◌};

    ghost words = { L.words ++ R.words };

    fn has_word(word: &str) -> bool {
        L::has_word(word) || R::has_word(word)
    }
}

impl<B, L: Family<B>, R: Family<B>, W: Apart<L, R>> IrText<B> for Either<L, R, W> {
    ghost use Rattle.std.specs.Prelude.{refl};
    ghost use Rattle.irtext_tokens.specs.Eithers.{either_at, either_of};
    ghost use Rattle.irtext_tokens.specs.EitherLaws.{either_lawful, either_sincere, either_decides};

    ghost reading = { either_at L.words L.reading R.reading };

    ghost written = { either_of L.written R.written };

    ghost lawful = { either_lawful L.words R.words L.reading L.written R.reading R.written L.lawful R.lawful L.led R.led W.apart };

    ghost sincere = { either_sincere L.words L.reading R.reading L.sincere R.sincere };

    ghost decides = { either_decides L.eq R.eq ⟦<Either<L, R, W> as PartialEq>⟧.eq (λ x y. refl) (λ x y. refl) (λ x y. refl) (λ x y. refl) L.decides R.decides };

    fn read(stream: &mut TextStream) -> ParseResult<Either<L, R, W>, B> {
        if is_next_word_of::<L>(stream) {
            return match L::read(stream) {
                Ok(x) => Ok(Either::Left(x)),
                Err(fault) => Err(fault),
            };
        }
        match R::read(stream) {
            Ok(y) => Ok(Either::right(y)),
            Err(fault) => Err(fault),
        }
    }

    fn write_text(&self, f: &mut String) -> Result<(), OutOfMemory> {
        match self {
            Either::Left(x) => x.write_text(f),
            Either::Right(y, _) => y.write_text(f),
        }
    }
}

impl<B, L: Family<B>, R: Family<B>, W: Apart<L, R>> Family<B> for Either<L, R, W> {
    ghost use Rattle.irtext_tokens.specs.EitherLaws.{either_led};

    ghost led = { either_led L.words R.words L.reading L.written R.reading R.written L.led R.led };
}

impl<B, L: AttrText<B> + Family<B>, R: AttrText<B> + Family<B>, W: Apart<L, R>> AttrText<B>
    for Either<L, R, W> {
    ghost use Rattle.irtext_tokens.specs.Eithers.{either_of};
    ghost use Rattle.irtext_tokens.specs.EitherLaws.{either_unreserved};

    ghost outlined = { either_of L.outlined R.outlined };

    ghost print_once = { either_of L.print_once R.print_once };

    ghost unreserved = { either_unreserved L.words R.words L.reading L.written R.reading R.written L.unreserved R.unreserved };

    fn is_outlined(&self) -> bool {
        match self {
            Either::Left(x) => x.is_outlined(),
            Either::Right(y, _) => y.is_outlined(),
        }
    }

    fn is_print_once(&self) -> bool {
        match self {
            Either::Left(x) => x.is_print_once(),
            Either::Right(y, _) => y.is_print_once(),
        }
    }

    fn try_clone(&self) -> Result<Either<L, R, W>, AllocError> {
        match self {
            Either::Left(x) => Ok(Either::Left(x.try_clone()?)),
            Either::Right(y, _) => Ok(Either::right(y.try_clone()?)),
        }
    }
}
