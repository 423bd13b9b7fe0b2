//! A list of at most so many items, held by value.

// It needs no memory of its own and is copied like a number, which the kit's `ArrayVec` is not. Its items are seen through `listed`; an
// `impl Model` could be `Copy` only if the items gave its fields back, and the unused places don't. What fills one from another list is a
// loop of `push`: collecting asks for an allocator, which crates without a heap don't have, and a `map` over a closure would require of its
// callers that it may be called, which no public function here does.

#![tactic(auto)]

ghost use Rattle.std.specs.Prelude.{⊤, ◌≡◌, ◌≤◌, length};

use std::alloc::AllocError;
use std::default::Default;
use std::ops::DerefSlice;

/// A list of at most `MOST` items: they stand in the first `len` places.
pub struct Bounded<T, const MOST: usize> {
    places: [T; MOST],
    len: usize,
    ghost room: { length places ≡ MOST },
    ghost fits: { len ≤ MOST },
}

// By hand: a derive is refused beside the ghost fields of a generic struct.
impl<T: Copy, const MOST: usize> Copy for Bounded<T, MOST> {}

impl<T: Copy, const MOST: usize> Clone for Bounded<T, MOST> {
    ghost is_clone = { λ b c. c ≡ b };

    ghost is_infallible = { λ _. ⊤ };

    fn clone(&self) -> Result<Self, AllocError> {
        Ok(*self)
    }
}

impl<T: Copy + Default, const MOST: usize> Bounded<T, MOST> {
    ghost use Rattle.bounded.specs.Listed.{listed};
    ghost use Rattle.std.specs.Prelude.{[], take};

    /// No items.
    pub fn new() -> Self
        ensures { listed result ≡ [] }
    {
        Bounded {
            places: [T::default(); MOST],
            len: 0,
        }
    }

    /// The first `MOST` items of the slice.
    pub fn from_slice(items: &[T]) -> Self
        ensures { listed result ≡ take MOST items.now }
    {
        let mut places = [T::default(); MOST];
        let len = items.len().min(MOST);
        places[..len].copy_from_slice(&items[..len]);
        Bounded { places, len }
    }
}

impl<T: Copy, const MOST: usize> Bounded<T, MOST> {
    ghost use Rattle.bounded.specs.Listed.{listed};
    ghost use Rattle.std.specs.List.{slice_get};
    ghost use Rattle.std.specs.Prelude.{◌<◌, ◌↔◌, [], ◌∷◌, ◌++◌, IsOk, IfErr, OnOk, OnErr, slice_set};

    /// How many items there are.
    pub fn len(&self) -> usize
        ensures count { result ≡ length (listed self.now) }
        ensures few { result ≤ MOST }
    {
        self.as_slice().len()
    }

    /// Item `i`, counted from 0; `None` past the last.
    pub fn get(&self, i: usize) -> Option<T>
        ensures { result ≡ slice_get (listed self.now) i }
    {
        self.as_slice().get(i).copied()
    }

    /// The items in order.
    // That they are few is said here, of `len` and of `*`: a caller's check reads contracts and no ghost field.
    pub fn as_slice(&self) -> &[T]
        ensures items { result.now ≡ listed self.now }
        ensures few { length result.now ≤ MOST }
    {
        &self.places[..self.len]
    }

    /// Adds an item at the end, or hands it back where there is no room; then the list is as it was.
    pub fn push(&mut self, item: T) -> Result<(), T>
        ensures fits { IsOk result ↔ (length (listed self.old) < MOST) }
        ensures added { OnOk result (listed self.new ≡ listed self.old ++ item ∷ []) }
        ensures full { OnErr result (self.new ≡ self.old) }
        ensures back { IfErr result (λ x. x ≡ item) }
    {
        let len = self.len;
        if len == MOST {
            return Err(item);
        }
        self.places[len] = item;
        self.len = len + 1;
        Ok(())
    }

    /// Puts another item in place of item `i`, counted from 0, if there is one.
    // The contract of a slice's `get_mut` does not say what the list becomes.
    pub fn replace(&mut self, i: usize, item: T)
        ensures { listed self.new ≡ slice_set (listed self.old) i item }
    {
        if i < self.len {
            self.places[i] = item;
        }
    }
}

impl<T: Copy + Default, const MOST: usize> Default for Bounded<T, MOST> {
    ghost use Rattle.bounded.specs.Listed.{listed};
    ghost use Rattle.std.specs.Prelude.{[]};

    ghost is_default = { λ b. listed b ≡ [] };

    fn default() -> Self {
        Bounded::new()
    }
}

impl<T: Copy, const MOST: usize> DerefSlice for Bounded<T, MOST> {
    ghost use Rattle.bounded.specs.Listed.{listed};

    type Elem = T;

    ghost deref_gives = { λ b xs. (xs ≡ listed b) × (length xs ≤ MOST) };

    fn deref(&self) -> &[T] {
        self.as_slice()
    }
}
