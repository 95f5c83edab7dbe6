//! Two parts with a fixed text between them, and a part in brackets.
ghost use Rattle.std.specs.Prelude.{◌≡◌, ◌++◌, OnOk, OnErr, string_bytes};
ghost use Rattle.std.specs.Str.{encode_utf8_all};
ghost use Rattle.irtext_base.specs.Appending.{OnlyAppends};
ghost use Rattle.irtext_tokens.specs.MustRead.{MustRead};
ghost use Rattle.irtext_syntax.specs.Sequences.{then_text, second_at, within_text, inside_at};

use crate::fixed::{After, Between, Brackets, between_demanded, close_demanded, open_parse};
use crate::part::{Closed, Item, Last, Part, TryClone};
use irtext_base::parsable::{ParseResult, TextStream};
use irtext_memory::{OutOfMemory, string};
use irtext_tokens::irfmt::faults::committed;
use std::alloc::AllocError;
use std::marker::PhantomData;

/// Two parts with the fixed text of `W` between them, as `5: si32`.
#[derive(Drop)]
#[derive_where(PartialEq, Eq, Hash, Debug; P, Q)]
pub struct Then<P, W, Q> {
    pub first: P,
    pub second: Q,
    #[derive_where(skip)]
    pub between: PhantomData<W>,
}

/// A part in the brackets of `B`, as `<5: si32>`.
#[derive(Drop)]
#[derive_where(PartialEq, Eq, Hash, Debug; P)]
pub struct Within<B, P> {
    pub inside: P,
    #[derive_where(skip)]
    pub brackets: PhantomData<B>,
}

/// Parses a required part. Every error is committed.
pub fn demanded<P: Part<A>, A>(stream: &mut TextStream) -> ParseResult<P, A>
    ensures { MustRead (λ s. s) (λ s v. v) (λ x. x) P.text.reading stream.old result stream.new }
{
    let answer = <P as Part<A>>::read(stream);
    committed(stream, answer)
}

/// Parses the fixed text and the second part, which are required after the first part.
fn second_parse<P: Part<A>, W: Between, Q: Part<A>, A>(
    stream: &mut TextStream,
    first: P,
) -> ParseResult<Then<P, W, Q>, A>
    ensures { MustRead (λ s. s) (λ s v. v) (λ x. x) (second_at W.text Q.text.reading first) stream.old result
        stream.new }
{
    between_demanded::<W, A>(stream)?;
    let second = demanded(stream)?;
    Ok(Then {
        first,
        second,
        between: PhantomData,
    })
}

/// Appends two parts with the fixed text of `W` between them. Fails only when out of memory.
pub fn write_then<P: Part<A>, W: Between, Q: Part<A>, A>(
    first: &P,
    second: &Q,
    f: &mut String,
) -> Result<(), OutOfMemory>
    ensures text { OnOk result (string_bytes f.new ≡ string_bytes f.old ++ encode_utf8_all
        (then_text P.text.written W.printed Q.text.written first.now second.now)) }
    ensures appended { OnErr result (OnlyAppends f.old f.new) }
{
    first.write_text(f)?;
    string::push_str(f, W::printed())?;
    second.write_text(f)?;
    Ok(())
}

impl<A, P: Part<A>, W: After<A, P>, Q: Part<A>> Part<A> for Then<P, W, Q> {
    ghost use Rattle.std.specs.Prelude.{refl};
    ghost use Rattle.irtext_syntax.specs.Sequences.{then_at, of_then};
    ghost use Rattle.irtext_syntax.specs.SequenceLaws.{then_law, then_decides};

    ghost text = { record {
      reading = then_at P.text.reading W.text Q.text.reading;
      written = of_then P.text.written W.printed Q.text.written;
      ends = Q.text.ends;
    } };

    ghost sound = { record {
      law = then_law P.text.reading P.text.written P.text.ends W.text W.printed Q.text.reading
          Q.text.written Q.text.ends P.sound.law W.law W.after Q.sound.law;
      decides = then_decides P.eq Q.eq ⟦<Then<P, W, Q> as PartialEq>⟧.eq (λ x y. refl) P.sound.decides
          Q.sound.decides;
    } };

    fn read(stream: &mut TextStream) -> ParseResult<Then<P, W, Q>, A> {
        match <P as Part<A>>::read(stream) {
            Ok(first) => second_parse(stream, first),
            Err(fault) => Err(fault),
        }
    }

    fn write_text(&self, f: &mut String) -> Result<(), OutOfMemory> {
        write_then::<P, W, Q, A>(&self.first, &self.second, f)
    }
}

/// Parses the part inside the brackets and the closing bracket.
fn inside_parse<B: Brackets, P: Part<A>, A>(stream: &mut TextStream) -> ParseResult<Within<B, P>, A>
    ensures { MustRead (λ s. s) (λ s v. v) (λ x. x) (inside_at B.closer P.text.reading) stream.old result
        stream.new }
{
    let inside = demanded(stream)?;
    close_demanded::<B, A>(stream)?;
    Ok(Within {
        inside,
        brackets: PhantomData,
    })
}

/// Appends a part in the brackets of `B`. Fails only when out of memory.
pub fn write_within<B: Brackets, P: Part<A>, A>(
    inside: &P,
    f: &mut String,
) -> Result<(), OutOfMemory>
    ensures text { OnOk result (string_bytes f.new ≡ string_bytes f.old ++ encode_utf8_all
        (within_text B.opener_printed P.text.written B.closer_printed inside.now)) }
    ensures appended { OnErr result (OnlyAppends f.old f.new) }
{
    string::push_str(f, B::printed_opening())?;
    inside.write_text(f)?;
    string::push_str(f, B::printed_closing())?;
    Ok(())
}

impl<A, B: Brackets, P: Part<A>> Part<A> for Within<B, P> {
    ghost use Rattle.std.specs.Prelude.{refl};
    ghost use Rattle.irtext_syntax.specs.Sequences.{within_at, of_within, anything};
    ghost use Rattle.irtext_syntax.specs.SequenceLaws.{within_law, within_decides};

    ghost text = { record {
      reading = within_at B.opener B.closer P.text.reading;
      written = of_within B.opener_printed P.text.written B.closer_printed;
      ends = anything;
    } };

    ghost sound = { record {
      law = within_law B.opener B.closer B.opener_printed B.closer_printed P.text.reading P.text.written
          P.text.ends B.law P.sound.law;
      decides = within_decides P.eq ⟦<Within<B, P> as PartialEq>⟧.eq (λ x y. refl) P.sound.decides;
    } };

    fn read(stream: &mut TextStream) -> ParseResult<Within<B, P>, A> {
        match open_parse::<B, A>(stream) {
            Ok(()) => inside_parse(stream),
            Err(fault) => Err(fault),
        }
    }

    fn write_text(&self, f: &mut String) -> Result<(), OutOfMemory> {
        write_within::<B, P, A>(&self.inside, f)
    }
}

impl<A, B: Brackets, P: Part<A>> Item<A> for Within<B, P> {
    ghost use Rattle.irtext_syntax.specs.SequenceLaws.{within_misses};

    ghost misses = { within_misses B.opener B.closer B.opener_printed B.closer_printed P.text.reading B.law };
}

impl<A, B: Brackets, P: Part<A>> Last<A> for Within<B, P> {
    ghost use Rattle.irtext_syntax.specs.Sequences.{anything_ends};

    ghost last = { anything_ends };
}

impl<A, B: Brackets, P: Part<A>> Closed<A> for Within<B, P> {
    ghost use Rattle.std.specs.Prelude.{refl};

    ghost closed = { λ rest. refl };
}

impl<A, P: Item<A>, W: After<A, P>, Q: Part<A>> Item<A> for Then<P, W, Q> {
    ghost use Rattle.irtext_syntax.specs.SequenceLaws.{then_misses};

    ghost misses = { then_misses P.text.reading W.text Q.text.reading P.misses };
}

impl<A, P: Part<A>, W: After<A, P>, Q: Last<A>> Last<A> for Then<P, W, Q> {
    ghost last = { Q.last };
}

impl<A, P: Part<A>, W: After<A, P>, Q: Closed<A>> Closed<A> for Then<P, W, Q> {
    ghost closed = { Q.closed };
}

impl<P: TryClone + Drop, W, Q: TryClone> TryClone for Then<P, W, Q> {
    fn try_clone(&self) -> Result<Then<P, W, Q>, AllocError> {
        let first = self.first.try_clone()?;
        let second = self.second.try_clone()?;
        Ok(Then {
            first,
            second,
            between: PhantomData,
        })
    }
}

impl<B, P: TryClone> TryClone for Within<B, P> {
    fn try_clone(&self) -> Result<Within<B, P>, AllocError> {
        let inside = self.inside.try_clone()?;
        Ok(Within {
            inside,
            brackets: PhantomData,
        })
    }
}
