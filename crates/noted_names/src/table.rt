//! Tables of places.

ghost use Rattle.std.specs.Prelude.{◌≡◌, ℕ, List, None, Some, IfOk, OnOk, if◌then◌else◌};
ghost use Rattle.std.specs.Option.{option_or};
ghost use Rattle.std.specs.Str.{bytes_eq};
ghost use Rattle.noted_names.specs.Places.{place_of, HavePlaces};

use crate::memo::Memo;
use crate::places::Places;
use lisa_words::Name;
use std::alloc::{AllocError, Global};

/// Places by names, each name with the place that it was noted with first.
#[derive(Drop)]
pub struct PlaceTable {
    /// The names that are noted.
    pub memo: Memo,
    ghost placed: { HavePlaces memo.table },
}

impl PlaceTable {
    /// Nothing is noted yet; the table is for so many names.
    #[tactic(auto, using(crate::proofs::Placed::no_place))]
    pub fn new(alloc: Global, names: usize) -> Result<PlaceTable, AllocError>
        ensures { IfOk result (λ made. (n : List ℕ) → place_of made.memo n ≡ None) }
    {
        let memo = Memo::new(alloc, names)?;
        Ok(PlaceTable { memo })
    }

    /// Notes the place of a name. A name that is noted keeps the place that it has.
    pub fn note(&mut self, name: &Name, place: usize) -> Result<(), AllocError>
        ensures { OnOk result ((n : List ℕ) → place_of self.new.memo n ≡ option_or (place_of self.old.memo n) (if bytes_eq n name.now then Some place else None)) }
    {
        self.memo.note(
            name,
            Places {
                first: Some(place),
                second: None,
            },
        )
    }

    /// The place of a name.
    pub fn place(&self, name: &Name) -> Option<usize>
        ensures { result ≡ place_of self.now.memo name.now }
    {
        match self.memo.find(name) {
            Some(found) => found.first,
            None => None,
        }
    }
}
