//! A list to which elements are added and from which they are removed. One element is stored in place, and more in a vector in a box, so
//! that one element needs no allocation and the list takes few bytes.
ghost use Rattle.std.specs.Prelude.{◌≡◌, ◌<◌, ◌≤◌, ◌++◌, ◌∷◌, [], Some, OnOk, OnErr, length, slice_get};
ghost use Rattle.std.specs.List.{insert, remove};
ghost use Rattle.irtext_few.specs.Growing.{listed, HasPlace};

use irtext_memory::{OutOfMemory, boxed, vec};
use std::alloc::Global;

/// A list. An allocator takes no room.
#[derive(Drop)]
pub enum Growing<X> {
    Nothing(Global),
    One(Global, X),
    /// Any number of elements. A list that once had two stays in this form.
    Many(Box<Vec<X>>),
}

impl<X: Copy> Growing<X> {
    /// Returns an empty list. Allocates nothing.
    pub fn new(alloc: Global) -> Growing<X>
        ensures { listed result ≡ [] }
    {
        Growing::Nothing(alloc)
    }

    /// Returns the number of elements.
    pub fn len(&self) -> usize
        ensures { result ≡ length (listed self.now) }
    {
        match self {
            Growing::Nothing(_) => 0,
            Growing::One(_, _) => 1,
            Growing::Many(more) => more.len(),
        }
    }

    /// Returns the element at an index, which must be below the number of elements.
    pub fn at(&self, index: usize) -> X
        requires { index < length (listed self.now) }
        ensures { slice_get (listed self.now) index ≡ Some result }
    {
        match self {
            Growing::Nothing(_) => unreachable!(),
            Growing::One(_, only) => *only,
            Growing::Many(more) => more[index],
        }
    }

    /// Makes room for one more element. The elements are unchanged. Fails only when out of memory.
    pub fn make_room(&mut self) -> Result<(), OutOfMemory>
        ensures same { listed self.new ≡ listed self.old }
        ensures room { OnOk result (HasPlace self.new) }
    {
        match self {
            Growing::Nothing(_) => Ok(()),
            Growing::One(alloc, only) => {
                let mut more = vec::with_capacity(*alloc, 4)?;
                vec::push(&mut more, *only)?;
                let many = boxed::new(*alloc, more)?;
                *self = Growing::Many(many);
                Ok(())
            }
            Growing::Many(more) => vec::reserve_one(more),
        }
    }

    /// Adds an element at the end. There must be room for it.
    pub fn push_reserved(&mut self, x: X)
        requires { HasPlace self.old }
        ensures { listed self.new ≡ listed self.old ++ x ∷ [] }
    {
        match self {
            Growing::Nothing(alloc) => {
                *self = Growing::One(*alloc, x);
            }
            Growing::One(_, _) => unreachable!(),
            Growing::Many(more) => more.push_reserved(x),
        }
    }

    /// Adds an element at the end. When out of memory, it fails and the elements are unchanged.
    pub fn push(&mut self, x: X) -> Result<(), OutOfMemory>
        ensures here { OnOk result (listed self.new ≡ listed self.old ++ x ∷ []) }
        ensures err { OnErr result (listed self.new ≡ listed self.old) }
    {
        self.make_room()?;
        self.push_reserved(x);
        Ok(())
    }

    /// Inserts an element at an index, which must not be above the number of elements; those from there on come after it. There must be
    /// room for it.
    pub fn insert_reserved(&mut self, index: usize, x: X)
        requires room { HasPlace self.old }
        requires within { index ≤ length (listed self.old) }
        ensures { listed self.new ≡ insert (listed self.old) index x }
    {
        match self {
            Growing::Nothing(alloc) => {
                *self = Growing::One(*alloc, x);
            }
            Growing::One(_, _) => unreachable!(),
            Growing::Many(more) => {
                let Ok(()) = more.insert(index, x) else {
                    unreachable!();
                };
            }
        }
    }

    /// Removes the element at an index, which must be below the number of elements. The order of the others is unchanged. If there was room
    /// for one more element, there still is.
    pub fn remove(&mut self, index: usize)
        requires { index < length (listed self.old) }
        ensures removed { listed self.new ≡ remove (listed self.old) index }
        ensures room { HasPlace self.old → HasPlace self.new }
    {
        match self {
            Growing::Nothing(_) => unreachable!(),
            Growing::One(alloc, _) => {
                *self = Growing::Nothing(*alloc);
            }
            Growing::Many(more) => {
                more.remove(index);
            }
        }
    }
}
