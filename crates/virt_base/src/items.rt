//! Lists that contracts see as lists, and whose calls say when memory runs out.

ghost use Rattle.std.specs.Prelude.{◌≡◌, ◌==◌, length, IfOk, OnOk, OnErr, ◌++◌, ◌∷◌, []};

use crate::fault::NoMemory;
use std::alloc::Global;
use std::marker::Model;
use std::ops::DerefSlice;

/// A list, which contracts see as one, kept in a `Vec`.
#[derive(Debug, Drop)]
pub struct Items<T> {
    items: Vec<T>,
}

/// A list of bytes.
pub type Bytes = Items<u8>;

impl<T> Model for Items<T> {
    ghost use Rattle.std.specs.Prelude.{List};

    ghost Value = { List T };

    ghost view = { λ a. a.items.items };
}

impl<T> DerefSlice for Items<T> {
    type Elem = T;

    ghost deref_gives = { λ list slice. slice ≡ list };

    fn deref(&self) -> &[T] {
        self.items.as_slice()
    }
}

impl<T> Items<T> {
    /// The list of a vector's items.
    pub fn new(items: Vec<T>) -> Self
        ensures { result ≡ items.items }
    {
        Items { items }
    }

    /// The list without items, which takes no memory.
    pub fn empty(alloc: Global) -> Self
        ensures { result ≡ [] }
    {
        Items {
            items: Vec::new(alloc),
        }
    }

    /// The vector of the list's items.
    pub fn into_vec(self) -> Vec<T>
        ensures { result.items ≡ self }
    {
        self.items
    }

    pub fn len(&self) -> usize
        ensures { result ≡ length self.now }
    {
        self.items.len()
    }

    pub fn is_empty(&self) -> bool
        ensures { result ≡ (length self.now == 0) }
    {
        self.items.is_empty()
    }

    pub fn as_slice(&self) -> &[T]
        ensures { result.now ≡ self.now }
    {
        self.items.as_slice()
    }
}

impl<T: Drop> Items<T> {
    /// Adds an item at the end. Where memory runs out the list stays as it was.
    pub fn push(&mut self, item: T) -> Result<(), NoMemory>
        ensures ok { OnOk result (self.new ≡ self.old ++ item ∷ []) }
        ensures err { OnErr result (self.new ≡ self.old) }
    {
        self.items.push(item)?;
        Ok(())
    }
}

/// A copy of bytes.
pub fn copy_bytes(alloc: Global, bytes: &[u8]) -> Result<Bytes, NoMemory>
    ensures { IfOk result (λ copy. copy ≡ bytes.now) }
{
    Ok(Items::new(Vec::from_slice(alloc, bytes)?))
}
