// Names in the order in which they were put in.
#![tactic(auto, using(crate::proofs::Places::placed_any, crate::proofs::Places::placed_first, crate::proofs::Places::placed_more, crate::proofs::TableLaws::put_one))]

ghost use Rattle.std.specs.Prelude.{◌≡◌, ℕ, List, [], OnOk, length};
ghost use Rattle.std.specs.List.{list_any, position_or_len};
ghost use Rattle.std.specs.Str.{bytes_eq};
ghost use Rattle.name_tables.specs.Keys.{insert_key, place_in};
ghost use Rattle.name_tables.specs.TableViews.{value_of};

use lisa_words::Name;
use std::alloc::{AllocError, Global};
use std::collections::BTreeMap;

/// Different names, each with its place.
#[derive(Drop)]
pub struct NameSet {
    pub keys: Vec<Name>,
    places: BTreeMap<Name, usize>,
    ghost placed: { (n : List ℕ) → value_of places n ≡ place_in keys.items n },
}

impl NameSet {
    /// No names.
    pub fn new(alloc: Global) -> NameSet
        ensures { result.keys.items ≡ [] }
    {
        NameSet {
            keys: Vec::new(alloc),
            places: BTreeMap::new(alloc),
        }
    }

    /// The place of a name, or the number of names.
    pub fn place(&self, name: &Name) -> usize
        ensures { result ≡ position_or_len (bytes_eq name.now) self.now.keys.items }
    {
        match self.places.get(name) {
            Some(place) => *place,
            None => self.keys.len(),
        }
    }

    /// How many names there are.
    pub fn len(&self) -> usize
        ensures { result ≡ length self.now.keys.items }
    {
        self.keys.len()
    }

    /// Whether the name is one of them.
    pub fn contains(&self, name: &Name) -> bool
        ensures { result ≡ list_any (bytes_eq name.now) self.now.keys.items }
    {
        self.places.get(name).is_some()
    }

    /// Puts a name behind the others, where it is none of them.
    pub fn insert(&mut self, name: &Name) -> Result<(), AllocError>
        ensures { OnOk result (self.new.keys.items ≡ insert_key self.old.keys.items name.now) }
    {
        if self.contains(name) {
            return Ok(());
        }
        let place = self.keys.len();
        let key = name.clone()?;
        let copy = name.clone()?;
        self.keys.reserve(1)?;
        self.places.insert(copy, place)?;
        self.keys.push(key)?;
        Ok(())
    }
}
