//! Two grammars as one: the places for a whole tree are shared, so that the trees of each hold those of the other.
ghost use Rattle.std.specs.Prelude.{◌≡◌, cond};
ghost use Rattle.irtext_tree.specs.declared.places.Places.TheVariants as places;
ghost use Rattle.irtext_base.specs.Families.{is_one_of};
ghost use Rattle.irtext_base.specs.Text.{front, in_dotted};

use crate::grammar::{AttrGrammar, Grammar, Grows, LedGrammar};
use crate::places::Places;
use crate::waits::Waits;
use irtext_base::parsable::{CharStream, ParseResult, TextStream};
use irtext_base::text::{Apart, Worded};
use irtext_memory::OutOfMemory;
use irtext_tokens::either::Either;
use irtext_tokens::irfmt::parsers::{Class, skip_class};
use std::alloc::AllocError;

/// Returns whether the dotted word that is next in the stream is one of the family's. The stream is unchanged.
fn is_next_word_of<F: Worded>(stream: &mut TextStream) -> bool
    ensures word { result ≡ is_one_of F.words (front in_dotted stream.old.rest) }
    ensures stays { stream.new ≡ stream.old }
{
    let place = stream.position();
    skip_class(stream, Class::Dotted);
    let answer = F::has_word(stream.text_since(place));
    stream.reset(place);
    answer
}

impl<L, R, W, S: Grows<L>, T: Grows<R>> Grows<Either<L, R, W>> for Places<S, T> {
    ghost use Rattle.irtext_tree.specs.Pairs.{pair_growth};

    ghost growth = { pair_growth S.growth T.growth };

    fn start() -> Places<S, T> {
        Places::Whole
    }

    fn is_start(self) -> bool {
        matches!(self, Places::Whole)
    }

    fn takes(self, head: &Either<L, R, W>) -> bool {
        match head {
            Either::Left(head) => match self {
                Places::Whole => S::start().takes(head),
                Places::Left(place) => {
                    if S::start().takes(head) {
                        return false;
                    }
                    place.takes(head)
                }
                Places::Right(_) => false,
            },
            Either::Right(head, _) => match self {
                Places::Whole => T::start().takes(head),
                Places::Left(_) => false,
                Places::Right(place) => {
                    if T::start().takes(head) {
                        return false;
                    }
                    place.takes(head)
                }
            },
        }
    }

    fn waits(head: &Either<L, R, W>) -> Waits<Places<S, T>> {
        match head {
            Either::Left(head) => match S::waits(head) {
                Waits::Nothing => Waits::Nothing,
                Waits::One(s) => Waits::One(left::<L, S, T>(s)),
                Waits::Two(s, t) => Waits::Two(left::<L, S, T>(s), left::<L, S, T>(t)),
            },
            Either::Right(head, _) => match T::waits(head) {
                Waits::Nothing => Waits::Nothing,
                Waits::One(s) => Waits::One(right::<R, S, T>(s)),
                Waits::Two(s, t) => Waits::Two(right::<R, S, T>(s), right::<R, S, T>(t)),
            },
        }
    }
}

/// Returns the place of the first grammar as one of both.
fn left<L, S: Grows<L>, T>(place: S) -> Places<S, T>
    ensures { result ≡ cond (S.growth.same S.growth.start place) places.Whole (places.Left place) }
{
    if place.is_start() {
        return Places::Whole;
    }
    Places::Left(place)
}

/// Returns the place of the second grammar as one of both.
fn right<R, S, T: Grows<R>>(place: T) -> Places<S, T>
    ensures { result ≡ cond (T.growth.same T.growth.start place) places.Whole (places.Right place) }
{
    if place.is_start() {
        return Places::Whole;
    }
    Places::Right(place)
}

impl<
    A,
    L: Eq + Worded,
    R: Eq + Worded,
    W: Apart<L, R>,
    S: LedGrammar<L, A>,
    T: LedGrammar<R, A>,
> Grammar<Either<L, R, W>, A> for Places<S, T> {
    ghost use Rattle.std.specs.Prelude.{refl};
    ghost use Rattle.irtext_tokens.specs.Eithers.{either_of};
    ghost use Rattle.irtext_tokens.specs.EitherLaws.{either_decides};
    ghost use Rattle.irtext_tree.specs.Pairs.{pair_at};
    ghost use Rattle.irtext_tree.specs.PairLaws.{pair_law};

    ghost reading = { pair_at S.Grows.growth T.Grows.growth L.words S.Grammar.reading T.Grammar.reading };

    ghost written = { either_of S.Grammar.written T.Grammar.written };

    ghost same = { either_decides L.eq R.eq ⟦<Either<L, R, W> as PartialEq>⟧.eq (λ x y. refl) (λ x y. refl) (λ x y. refl) (λ x y. refl) S.Grammar.same T.Grammar.same };

    ghost sound = { pair_law S.Grows.growth T.Grows.growth S.Grammar.reading S.Grammar.written T.Grammar.reading T.Grammar.written L.words R.words S.Grammar.sound T.Grammar.sound S.led T.led W.apart };

    fn read(self, stream: &mut TextStream) -> ParseResult<Either<L, R, W>, A> {
        match self {
            Places::Whole => {
                if is_next_word_of::<L>(stream) {
                    return match S::start().read(stream) {
                        Ok(head) => Ok(Either::Left(head)),
                        Err(fault) => Err(fault),
                    };
                }
                match T::start().read(stream) {
                    Ok(head) => Ok(Either::right(head)),
                    Err(fault) => Err(fault),
                }
            }
            Places::Left(place) => match place.read(stream) {
                Ok(head) => Ok(Either::Left(head)),
                Err(fault) => Err(fault),
            },
            Places::Right(place) => match place.read(stream) {
                Ok(head) => Ok(Either::right(head)),
                Err(fault) => Err(fault),
            },
        }
    }

    fn write_head(head: &Either<L, R, W>, f: &mut String) -> Result<(), OutOfMemory> {
        match head {
            Either::Left(head) => <S as Grammar<L, A>>::write_head(head, f),
            Either::Right(head, _) => <T as Grammar<R, A>>::write_head(head, f),
        }
    }
}

impl<
    A,
    L: Eq + Worded,
    R: Eq + Worded,
    W: Apart<L, R>,
    S: LedGrammar<L, A>,
    T: LedGrammar<R, A>,
> LedGrammar<Either<L, R, W>, A> for Places<S, T> {
    ghost use Rattle.irtext_tree.specs.PairLaws.{pair_led};

    ghost led = { pair_led S.Grows.growth T.Grows.growth S.Grammar.reading S.Grammar.written T.Grammar.reading T.Grammar.written L.words R.words S.Grammar.sound T.Grammar.sound S.led T.led W.apart };
}

impl<
    A,
    L: Eq + Worded,
    R: Eq + Worded,
    W: Apart<L, R>,
    S: LedGrammar<L, A> + AttrGrammar<L, A>,
    T: LedGrammar<R, A> + AttrGrammar<R, A>,
> AttrGrammar<Either<L, R, W>, A> for Places<S, T> {
    ghost use Rattle.irtext_tokens.specs.Eithers.{either_of};
    ghost use Rattle.irtext_tree.specs.PairLaws.{pair_unreserved};

    ghost outlined = { either_of S.outlined T.outlined };

    ghost print_once = { either_of S.print_once T.print_once };

    ghost unreserved = { pair_unreserved S.Grows.growth T.Grows.growth S.Grammar.reading S.Grammar.written T.Grammar.reading T.Grammar.written L.words R.words S.Grammar.sound T.Grammar.sound S.led T.led W.apart S.unreserved T.unreserved };

    fn is_outlined(head: &Either<L, R, W>) -> bool {
        match head {
            Either::Left(head) => <S as AttrGrammar<L, A>>::is_outlined(head),
            Either::Right(head, _) => <T as AttrGrammar<R, A>>::is_outlined(head),
        }
    }

    fn is_print_once(head: &Either<L, R, W>) -> bool {
        match head {
            Either::Left(head) => <S as AttrGrammar<L, A>>::is_print_once(head),
            Either::Right(head, _) => <T as AttrGrammar<R, A>>::is_print_once(head),
        }
    }

    fn clone_head(head: &Either<L, R, W>) -> Result<Either<L, R, W>, AllocError> {
        match head {
            Either::Left(head) => Ok(Either::Left(<S as AttrGrammar<L, A>>::clone_head(head)?)),
            Either::Right(head, _) => Ok(Either::right(<T as AttrGrammar<R, A>>::clone_head(
                head,
            )?)),
        }
    }
}
