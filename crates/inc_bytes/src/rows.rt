ghost use Rattle.std.specs.Prelude.{◌≡◌, ◌==◌, ◌+◌, ◌<◌, ◌++◌, [], ◌∷◌, IfOk, OnOk, OnErr, length, take, drop, slice_get, Some};

use crate::OutOfMemory;
use std::alloc::{AllocError, Global};
use std::marker::Model;

/// A list that owns its memory. Contracts see the list alone.
#[derive(Drop)]
pub struct Rows<T> {
    items: Vec<T>,
}

impl<T> Model for Rows<T> {
    ghost use Rattle.std.specs.Prelude.{List};

    ghost Value = { List T };

    ghost view = { λ rows. rows.items.items };
}

impl<T> Rows<T> {
    pub fn new(alloc: Global) -> Rows<T>
        ensures value { result ≡ [] }
    {
        Rows {
            items: Vec::new(alloc),
        }
    }

    /// The vector's items. It takes no memory.
    pub fn from_vec(items: Vec<T>) -> Rows<T>
        ensures value { result ≡ items.items }
    {
        Rows { items }
    }

    /// Gives the items back as a vector.
    pub fn into_vec(self) -> Vec<T>
        ensures value { result.items ≡ self }
    {
        self.items
    }

    pub fn as_slice(&self) -> &[T]
        ensures value { result.now ≡ self.now }
    {
        self.items.as_slice()
    }

    pub fn len(&self) -> usize
        ensures value { result ≡ length self.now }
    {
        self.items.len()
    }

    pub fn is_empty(&self) -> bool
        ensures value { result ≡ (length self.now == 0) }
    {
        self.items.is_empty()
    }

    /// Takes the item at a place out.
    pub fn remove(&mut self, at: usize) -> T
        requires place { at < length self.old }
        ensures value { slice_get self.old at ≡ Some result }
        ensures others { self.new ≡ take at self.old ++ drop (at + 1) self.old }
    {
        self.items.remove(at)
    }
}

impl<T: Drop> Rows<T> {
    /// Adds an item at the end. Where memory runs out the item is dropped.
    pub fn push(&mut self, item: T) -> Result<(), OutOfMemory>
        ensures ok { OnOk result (self.new ≡ self.old ++ item ∷ []) }
        ensures err { OnErr result (self.new ≡ self.old) }
    {
        self.items.push(item)?;
        Ok(())
    }
}

impl<T: Clone> Rows<T> {
    /// A copy of these items: the same list where each item's clone is the same item.
    pub fn of(alloc: Global, items: &[T]) -> Result<Rows<T>, OutOfMemory>
        ensures value { IfOk result (λ copy. ((x y : T) → T.is_clone x y → y ≡ x) → copy ≡ items.now) }
    {
        Ok(Rows {
            items: items.to_vec(alloc)?,
        })
    }
}

impl<T: Clone> Clone for Rows<T> {
    ghost is_clone = { λ rows copy. ((x y : T) → T.is_clone x y → y ≡ x) → copy ≡ rows };

    fn clone(&self) -> Result<Self, AllocError> {
        Ok(Rows {
            items: self.items.clone()?,
        })
    }
}
