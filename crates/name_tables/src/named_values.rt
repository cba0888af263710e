// Names with values, in the order in which they were put in.

ghost use Rattle.std.specs.Prelude.{◌≡◌, ◌++◌, ◌∷◌, [], ℕ, List, Option, None, Some, OnOk, length, take};
ghost use Rattle.std.specs.Map.{keys_of, lookup};
ghost use Rattle.std.specs.Str.{bytes_eq};
ghost use Rattle.name_tables.specs.Keys.{place_in};
ghost use Rattle.name_tables.specs.NamedValues.{with_value, Finds};
ghost use Rattle.name_tables.specs.TableViews.{value_of};

use lisa_words::Name;
use std::alloc::{AllocError, Global};
use std::collections::BTreeMap;

/// Different names with their values, in the order in which they were put in. Each is found by its name.
#[derive(Drop)]
pub struct NamedValues<V: Copy> {
    /// The names with their values, in that order.
    pub entries: Vec<(Name, V)>,
    // Names that were let go of may have a place here too.
    places: BTreeMap<Name, usize>,
    ghost placed: { Finds (value_of places) entries.items },
}

// The place of a name, which is this one or none.
fn place_at<V: Copy>(entries: &[(Name, V)], place: usize, name: &Name) -> Option<usize>
    ensures { (places : List ℕ → Option ℕ) → Finds places entries.now → places name.now ≡ Some place → result ≡ place_in (keys_of entries.now) name.now }
{
    if place >= entries.len() {
        return None;
    }
    if entries[place].0 == *name {
        Some(place)
    } else {
        None
    }
}

impl<V: Copy> NamedValues<V> {
    /// No names.
    pub fn new(alloc: Global) -> NamedValues<V>
        ensures { result.entries.items ≡ [] }
    {
        NamedValues {
            entries: Vec::new(alloc),
            places: BTreeMap::new(alloc),
        }
    }

    /// How many names there are.
    pub fn len(&self) -> usize
        ensures { result ≡ length self.now.entries.items }
    {
        self.entries.len()
    }

    fn place(&self, name: &Name) -> Option<usize>
        ensures { result ≡ place_in (keys_of self.now.entries.items) name.now }
    {
        match self.places.get(name) {
            Some(place) => place_at(&self.entries, *place, name),
            None => None,
        }
    }

    /// The value of a name.
    #[tactic(auto, using(crate::proofs::Stands::value_there, crate::proofs::Stands::no_value, crate::proofs::Stands::place_within))]
    pub fn get(&self, name: &Name) -> Option<V>
        ensures { result ≡ lookup (bytes_eq name.now) self.now.entries.items }
    {
        match self.place(name) {
            Some(place) => Some(self.entries[place].1),
            None => None,
        }
    }

    // Puts a name that isn't there behind the others.
    fn put_last(&mut self, name: &Name, value: V) -> Result<(), AllocError>
        requires { place_in (keys_of self.old.entries.items) name.now ≡ None }
        ensures { OnOk result (self.new.entries.items ≡ self.old.entries.items ++ (name.now, value) ∷ []) }
    {
        let place = self.entries.len();
        let key = name.clone()?;
        self.places.insert(name.clone()?, place)?;
        self.entries.push((key, value))?;
        Ok(())
    }

    /// Gives a name its value. A name that isn't there goes behind the others.
    #[tactic(auto, using(crate::proofs::Stands::value_put, crate::proofs::Stands::value_last, crate::proofs::Stands::place_within))]
    pub fn put(&mut self, name: &Name, value: V) -> Result<(), AllocError>
        ensures { OnOk result (self.new.entries.items ≡ with_value self.old.entries.items name.now value) }
    {
        match self.place(name) {
            Some(place) => {
                self.entries[place].1 = value;
                Ok(())
            }
            None => self.put_last(name, value),
        }
    }

    /// Lets go of the last names but so many.
    pub fn truncate(&mut self, count: usize)
        ensures { self.new.entries.items ≡ take count self.old.entries.items }
    {
        self.entries.truncate(count);
    }
}
