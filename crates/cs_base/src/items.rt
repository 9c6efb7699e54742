// Lists whose capacity contracts can't see, so that contracts can compare them.
ghost use Rattle.std.specs.Prelude.{◌≡◌, [], ◌∷◌, ◌++◌, length, ◌<◌, ◌↔◌, IfOk, IsTrue, OnOk, OnErr};

use crate::{Num, Rate};
use std::alloc::{AllocError, Global};
use std::marker::Model;

/// A list that contracts see only as the list of its items.
#[derive(Debug, Drop)]
pub struct Items<T> {
    items: Vec<T>,
}

impl<T> Model for Items<T> {
    ghost use Rattle.std.specs.Prelude.{List};

    ghost Value = { List T };

    ghost view = { λ l. l.items.items };
}

impl<T> Items<T> {
    /// Returns an empty list. It allocates nothing yet, and keeps the allocator for later growth.
    pub fn new(alloc: Global) -> Items<T>
        ensures { result ≡ [] }
    {
        Items::from_vec(Vec::new(alloc))
    }

    /// Returns the items of a vector, without a copy.
    pub fn from_vec(items: Vec<T>) -> Items<T>
        ensures { result ≡ items.items }
    {
        Items { items }
    }

    /// Returns a copy of a slice's items.
    pub fn of_slice(alloc: Global, items: &[T]) -> Result<Items<T>, AllocError>
    where
        T: Copy,
        ensures { IfOk result (λ copy. copy ≡ items.now) }
    {
        Ok(Items::from_vec(Vec::from_slice(alloc, items)?))
    }

    /// Returns a copy of the list.
    pub fn to_items(&self, alloc: Global) -> Result<Items<T>, AllocError>
    where
        T: Copy,
        ensures { IfOk result (λ copy. copy ≡ self.now) }
    {
        Items::of_slice(alloc, &self.items)
    }

    /// Returns a vector of the items, without a copy.
    pub fn into_vec(self) -> Vec<T>
        ensures { result.items ≡ self }
    {
        self.items
    }

    /// Returns the items as a slice.
    pub fn as_slice(&self) -> &[T]
        ensures { result.now ≡ self.now }
    {
        &self.items
    }

    /// Returns the number of items.
    pub fn len(&self) -> usize
        ensures { result ≡ length self.now }
    {
        self.items.len()
    }

    /// Whether there are no items.
    pub fn is_empty(&self) -> bool
        ensures { IsTrue result ↔ (self.now ≡ []) }
    {
        self.items.is_empty()
    }

    /// Adds an item at the end. If memory runs out, the list is unchanged.
    pub fn push(&mut self, item: T) -> Result<(), AllocError>
    where
        T: Drop,
        ensures ok { OnOk result (self.new ≡ self.old ++ item ∷ []) }
        ensures err { OnErr result (self.new ≡ self.old) }
    {
        self.items.push(item)?;
        Ok(())
    }
}

/// Bytes, such as those in a file or a name.
pub type Bytes = Items<u8>;
/// A name in an orchestra, as bytes.
pub type Name = Items<u8>;

/// Names in an orchestra.
pub type Names = Items<Name>;

/// Numbers of the profile.
pub type Nums = Items<Num>;

/// Integers from 0 to 2^32 - 1.
pub type Numbers = Items<u32>;

/// Indices into a list.
pub type Places = Items<u32>;

/// Rates, such as the rates of an opcode's arguments.
pub type Rates = Items<Rate>;
