// Different names, in the order of their first appearance.
ghost use Rattle.std.specs.Prelude.{◌≡◌, [], length, OnOk, OnErr, IfOk};
ghost use Rattle.cs_words.specs.NameSets.{has, place_of, seen};

use cs_base::{Items, Names, OutOfMemory};
use std::alloc::Global;
use std::collections::BTreeMap;
use std::marker::Model;

/// Different names of a text, in the order of their first appearance.
#[derive(Drop)]
pub struct NameSet<'s> {
    names: Vec<&'s [u8]>,
    places: BTreeMap<&'s [u8], usize>,
}

impl<'s> Model for NameSet<'s> {
    ghost use Rattle.std.specs.Prelude.{ℕ, List, map};
    ghost use Rattle.cs_words.specs.inner.Indexes.{IsIndex};

    ghost Value = { List (List ℕ) };

    ghost view = { λ s. map (λ n. n.now) s.names.items };

    ghost invariant = { λ s. IsIndex (map (λ n. n.now) s.names.items) s.places };
}

impl<'s> NameSet<'s> {
    /// Returns an empty set.
    pub fn new(alloc: Global) -> NameSet<'s>
        ensures { result ≡ [] }
    {
        NameSet {
            names: Vec::new(alloc),
            places: BTreeMap::new(alloc),
        }
    }

    /// Whether the set contains `name`.
    pub fn has(&self, name: &[u8]) -> bool
        ensures { result ≡ has self.now name.now }
    {
        self.places.contains_key(name)
    }

    /// Returns the index of a name, from 0, or the number of names if the set doesn't contain it.
    pub fn place(&self, name: &[u8]) -> usize
        ensures { result ≡ place_of self.now name.now }
    {
        self.places.get(name).copied().unwrap_or(self.names.len())
    }

    /// Returns the number of names.
    pub fn len(&self) -> usize
        ensures { result ≡ length self.now }
    {
        self.names.len()
    }

    /// Adds a name at the end, unless the set contains it. If memory runs out, the set is unchanged.
    pub fn add(&mut self, name: &'s [u8]) -> Result<(), OutOfMemory>
        ensures ok { OnOk result (self.new ≡ seen self.old name.now) }
        ensures err { OnErr result (self.new ≡ self.old) }
    {
        if self.has(name) {
            return Ok(());
        }
        let place = self.names.len();
        self.names.push(name)?;
        if self.places.insert(name, place).is_err() {
            self.names.pop();
            return Err(OutOfMemory);
        }
        Ok(())
    }

    /// Returns the names in order, copied from the text.
    pub fn to_names(&self, alloc: Global) -> Result<Names, OutOfMemory>
        ensures { IfOk result (λ made. made ≡ self.now) }
    {
        let mut made = Names::new(alloc);
        for name in &self.names {
            made.push(Items::of_slice(alloc, name)?)?;
        }
        Ok(made)
    }
}
