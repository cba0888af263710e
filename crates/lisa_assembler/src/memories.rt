// Memories by their names.
ghost use Rattle.std.specs.Prelude.{◌≡◌, List, ℕ, All, IfOk, IfSome, OnOk, find, option_copied};
ghost use Rattle.std.specs.Option.{option_or};
ghost use Rattle.std.specs.Str.{bytes_eq};
ghost use Rattle.name_tables.specs.TableViews.{value_of};
ghost use Rattle.lisa_assembler.specs.Places.{HasWords, place_from, place_if_named};

use lisa_engine::ArrayItem;
use lisa_words::{Name, NoMemory};
use name_tables::put_value;
use std::alloc::{AllocError, Global};
use std::collections::BTreeMap;

/// Memories, to be found by their names.
#[derive(Drop)]
pub(crate) struct Memories<'a> {
    all: &'a [ArrayItem],
    places: BTreeMap<Name, usize>,
    ghost words: { All HasWords all.now },
    ghost placed: { (n : List ℕ) → value_of places n ≡ place_from 0 all.now n },
}

// Notes the place of a memory whose name has none yet.
fn note_place(
    places: &mut BTreeMap<Name, usize>,
    memory: &ArrayItem,
    place: usize,
) -> Result<(), AllocError>
    ensures { OnOk result ((n : List ℕ) → value_of places.new n ≡ option_or (value_of places.old n) (place_if_named place memory.now n)) }
{
    if places.get(&memory.name).is_some() {
        return Ok(());
    }
    put_value(places, &memory.name, place)?;
    Ok(())
}

// The places of memories by their names.
fn all_places(alloc: Global, memories: &[ArrayItem]) -> Result<BTreeMap<Name, usize>, NoMemory>
    ensures { IfOk result (λ places. (n : List ℕ) → value_of places n ≡ place_from 0 memories.now n) }
{
    let mut places = BTreeMap::new(alloc);
    for place in 0..memories.len() {
        note_place(&mut places, &memories[place], place)?;
    }
    Ok(places)
}

impl<'a> Memories<'a> {
    /// These memories.
    pub(crate) fn make(alloc: Global, all: &'a [ArrayItem]) -> Result<Memories<'a>, NoMemory>
        requires { All HasWords all.now }
        ensures { IfOk result (λ m. m.all.now ≡ all.now) }
    {
        let places = all_places(alloc, all)?;
        Ok(Memories { all, places })
    }

    /// The memory of this name.
    pub(crate) fn named(&self, name: &Name) -> Option<&'a ArrayItem>
        ensures found { option_copied result ≡ find (λ a. bytes_eq a.name name.now) self.now.all.now }
        ensures words { IfSome result (λ m. HasWords m.now) }
    {
        let place = *self.places.get(name)?;
        match self.all.get(place) {
            Some(memory) => Some(memory),
            None => None,
        }
    }
}
