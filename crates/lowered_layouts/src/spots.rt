//! Which item stands behind the registers for what.

ghost use Rattle.std.specs.Prelude.{◌≡◌, Some, None, IfOk, OnOk, cond, false, position};
ghost use Rattle.std.specs.Option.{option_map_or, option_or};
ghost use Rattle.indexmap.specs.IndexMap.{get};
ghost use Rattle.item_layouts.specs.Layouts.{same_place};
ghost use Rattle.lowered_layouts.specs.declared.spots.Spot.{Spot};
ghost use Rattle.lowered_layouts.specs.Spots.{place_at};

use crate::numbers::number;
use indexmap::IndexMap;
use item_layouts::ItemPlace;
use lisa_words::NoMemory;
use std::alloc::{AllocError, Global};

/// What an item behind the registers is of.
#[derive(Clone, Copy, Debug, PartialEq, Eq, Hash)]
pub(crate) enum Spot {
    /// A field of the boundary behind the stage of the first number, by its number among fields.
    Field(usize, usize),
    /// The word of the stage of this number.
    Word(usize),
    /// The bit of the occurrence of the second number in the stage of the first.
    Bit(usize, usize),
}

// What the item of a place is of. None for a register.
#[tactic(auto, using(crate::proofs::Spotted::no_spot, crate::proofs::Spotted::field_spot, crate::proofs::Spotted::word_spot, crate::proofs::Spotted::bit_spot))]
fn spot_of(place: ItemPlace) -> Option<Spot>
    ensures { (s : Spot) → same_place (place_at s) place ≡ option_map_or (⟦<Spot as PartialEq>⟧.eq s) result false }
{
    match place {
        ItemPlace::Register(_) => None,
        ItemPlace::Field(boundary, field) => Some(Spot::Field(boundary as usize, field as usize)),
        ItemPlace::Word(stage) => Some(Spot::Word(stage as usize)),
        ItemPlace::Bit(stage, number) => Some(Spot::Bit(stage as usize, number as usize)),
    }
}

// Notes the item of a spot that has none.
fn note(table: &mut IndexMap<Spot, u32>, spot: Spot, item: u32) -> Result<(), AllocError>
    ensures { OnOk result ((s : Spot) → get ⟦<Spot as PartialEq>⟧.eq table.new s ≡ option_or (get ⟦<Spot as PartialEq>⟧.eq table.old s) (cond (⟦<Spot as PartialEq>⟧.eq s spot) (Some item) None)) }
{
    if table.get(&spot).is_some() {
        return Ok(());
    }
    table.insert(spot, item)?;
    Ok(())
}

// Notes the item of a place, if it is no register's and has none.
fn enter(table: &mut IndexMap<Spot, u32>, place: ItemPlace, item: u32) -> Result<(), AllocError>
    ensures { OnOk result ((s : Spot) → get ⟦<Spot as PartialEq>⟧.eq table.new s ≡ option_or (get ⟦<Spot as PartialEq>⟧.eq table.old s) (cond (same_place (place_at s) place) (Some item) None)) }
{
    match spot_of(place) {
        None => Ok(()),
        Some(spot) => {
            note(table, spot, item)?;
            Ok(())
        }
    }
}

/// The items of all spots. The only other answer is want of memory, or of numbers for items.
pub(crate) fn spot_table(
    alloc: Global,
    places: &[ItemPlace],
) -> Result<IndexMap<Spot, u32>, NoMemory>
    ensures { IfOk result (λ table. (s : Spot) → get ⟦<Spot as PartialEq>⟧.eq table s ≡ position (same_place (place_at s)) places.now) }
{
    let mut table = IndexMap::new(alloc);
    for (item, place) in places.iter().enumerate() {
        let item = number(item)?;
        enter(&mut table, *place, item)?;
    }
    Ok(table)
}
