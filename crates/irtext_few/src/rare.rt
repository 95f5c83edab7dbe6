//! Lists that are mostly empty: a tag and a pointer in place, and the elements in a box.
ghost use Rattle.std.specs.Prelude.{◌≡◌, ◌<◌, ◌∷◌, [], IfOk, length, slice_index_or, slice_set};
ghost use Rattle.std.specs.Borrow.{Lends, sem};

use irtext_memory::{OutOfMemory, boxed};
use std::alloc::Global;
use std::marker::Model;
use std::ops::{Index, IndexMut};

/// The elements of a list: none, one in a box, or a vector in a box.
#[derive(Drop)]
pub enum NoneOrBoxed<X> {
    Nothing,
    One(Box<X>),
    Many(Box<Vec<X>>),
}

/// A list that needs no allocation if it is empty.
pub struct Rare<X> {
    items: NoneOrBoxed<X>,
}

impl<X: Drop> Drop for Rare<X> {
    #[inline(always)]
    fn drop(self) {
        let Rare { items: _items } = self;
    }
}

impl<X> Model for Rare<X> {
    ghost use Rattle.std.specs.Prelude.{List};
    ghost use Rattle.irtext_few.specs.Rare.{items_of};

    ghost Value = { List X };

    ghost view = { λ f. items_of f.items };
}

impl<X> NoneOrBoxed<X> {
    ghost use Rattle.irtext_few.specs.contracts.rare.NoneOrBoxed.{the_row};
    ghost use Rattle.irtext_few.specs.Rare.{items_of, form, with_item_at};

    /// Returns the element of a list of one as a `&mut`.
    fn only_mut(&mut self) -> &mut X
        requires { form self.old ≡ 1 }
        ensures* lends { sem 𝓛 (Lends (the_row X.row) X.row self.entry result (with_item_at self.old 0)) }
        ensures value { result.now ≡ slice_index_or (items_of self.old) 0 result.now }
    {
        match self {
            NoneOrBoxed::One(x) => x,
            _ => unreachable!(),
        }
    }

    /// Returns an element of a vector as a `&mut`.
    fn one_of_many_mut(&mut self, index: usize) -> &mut X
        requires many { form self.old ≡ 2 }
        requires within { index < length (items_of self.old) }
        ensures* lends { sem 𝓛 (Lends (the_row X.row) X.row self.entry result (with_item_at self.old index)) }
        ensures value { result.now ≡ slice_index_or (items_of self.old) index result.now }
    {
        match self {
            NoneOrBoxed::Many(xs) => &mut xs[index],
            _ => unreachable!(),
        }
    }

    /// Returns the element at an index as a `&mut`.
    fn item_mut(&mut self, index: usize) -> &mut X
        requires { index < length (items_of self.old) }
        ensures* lends { sem 𝓛 (Lends (the_row X.row) X.row self.entry result (with_item_at self.old index)) }
        ensures value { result.now ≡ slice_index_or (items_of self.old) index result.now }
    {
        match self {
            NoneOrBoxed::Nothing => unreachable!(),
            NoneOrBoxed::One(_) => self.only_mut(),
            NoneOrBoxed::Many(_) => self.one_of_many_mut(index),
        }
    }
}

impl<X> Rare<X> {
    /// Returns an empty list.
    pub fn none() -> Rare<X>
        ensures { result ≡ [] }
    {
        Rare {
            items: NoneOrBoxed::Nothing,
        }
    }

    /// Returns the number of elements.
    pub fn len(&self) -> usize
        ensures { result ≡ length self.now }
    {
        match &self.items {
            NoneOrBoxed::Nothing => 0,
            NoneOrBoxed::One(_) => 1,
            NoneOrBoxed::Many(xs) => xs.len(),
        }
    }
}

impl<X: Drop> Rare<X> {
    /// Returns a list of one element. Fails only if an allocation fails.
    pub fn one(alloc: Global, x: X) -> Result<Rare<X>, OutOfMemory>
        ensures { IfOk result (λ list. list ≡ x ∷ []) }
    {
        let items = NoneOrBoxed::One(boxed::new(alloc, x)?);
        Ok(Rare { items })
    }

    /// Returns a list of the elements of a vector, which it keeps. Fails only if an allocation fails.
    pub fn many(alloc: Global, xs: Vec<X>) -> Result<Rare<X>, OutOfMemory>
        ensures { IfOk result (λ list. list ≡ xs.items) }
    {
        let items = NoneOrBoxed::Many(boxed::new(alloc, xs)?);
        Ok(Rare { items })
    }

    /// Removes and drops all elements.
    pub fn clear(&mut self)
        ensures { self.new ≡ [] }
    {
        self.items = NoneOrBoxed::Nothing;
    }
}

impl<X> Index<usize> for Rare<X> {
    type Output = X;

    ghost can_index = { λ f i. i < length f };

    ghost index_gives = { λ f i x. x ≡ slice_index_or f i x };

    fn index(&self, index: usize) -> &X
        requires { index < length self.now }
        ensures { result.now ≡ slice_index_or self.now index result.now }
    {
        match &self.items {
            NoneOrBoxed::Nothing => unreachable!(),
            NoneOrBoxed::One(x) => x,
            NoneOrBoxed::Many(xs) => &xs[index],
        }
    }
}

impl<X> IndexMut<usize> for Rare<X> {
    ghost use Rattle.irtext_few.specs.contracts.rare.Rare as rare;

    fn index_mut(&mut self, index: usize) -> &mut X
        requires { index < length self.old }
        ensures* lends { sem 𝓛 (Lends (rare.the_row X.row) X.row self.entry result
            (slice_set self.old index)) }
        ensures value { result.now ≡ slice_index_or self.old index result.now }
    {
        self.items.item_mut(index)
    }
}
