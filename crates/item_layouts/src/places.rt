//! The places of all items, in their order.
#![tactic(auto, using(crate::proofs::Ranges::first_left, crate::proofs::Ranges::regroup))]

ghost use Rattle.std.specs.Prelude.{◌≡◌, ◌<◌, ◌-◌, ◌++◌, ◌∷◌, [], IfOk, OnOk, cond, map};
ghost use Rattle.std.specs.List.{range_with_len};
ghost use Rattle.item_layouts.specs.declared.place.ItemPlace.TheVariants.{Register, Word, Bit};
ghost use Rattle.item_layouts.specs.Layouts.{boundary_places, field_places, words_from, stage_places, bit_places, item_places};

use crate::arrangement::Arrangement;
use crate::place::ItemPlace;
use std::alloc::{AllocError, Global};

fn add_registers(count: u32, places: &mut Vec<ItemPlace>) -> Result<(), AllocError>
    ensures { OnOk result (places.new.items ≡ places.old.items ++ map Register (range_with_len 0 count)) }
{
    for register in 0..count {
        places.push(ItemPlace::Register(register))?;
    }
    Ok(())
}

// Adds the fields of one boundary.
fn add_boundary<A: Arrangement>(
    arrangement: &A,
    boundary: u8,
    places: &mut Vec<ItemPlace>,
) -> Result<(), AllocError>
    ensures { OnOk result (places.new.items ≡ places.old.items ++ boundary_places (A.layout arrangement.now) boundary) }
{
    for field in 0..arrangement.fields() {
        places.push(ItemPlace::Field(boundary, field))?;
    }
    Ok(())
}

fn add_fields<A: Arrangement>(
    arrangement: &A,
    places: &mut Vec<ItemPlace>,
) -> Result<(), AllocError>
    ensures { OnOk result (places.new.items ≡ places.old.items ++ field_places (A.layout arrangement.now)) }
{
    for boundary in 0..arrangement.stages().saturating_sub(1) {
        add_boundary(arrangement, boundary, places)?;
    }
    Ok(())
}

// Adds the words of the stages from one on.
fn add_words_from(first: u8, stages: u8, places: &mut Vec<ItemPlace>) -> Result<(), AllocError>
    ensures { OnOk result (places.new.items ≡ places.old.items ++ map Word (range_with_len first (stages - first))) }
{
    for stage in first..stages {
        places.push(ItemPlace::Word(stage))?;
    }
    Ok(())
}

fn add_words(first: Option<u8>, stages: u8, places: &mut Vec<ItemPlace>) -> Result<(), AllocError>
    ensures { OnOk result (places.new.items ≡ places.old.items ++ words_from stages first) }
{
    match first {
        None => Ok(()),
        Some(first) => {
            add_words_from(first, stages, places)?;
            Ok(())
        }
    }
}

fn add_bit<A: Arrangement>(
    arrangement: &A,
    stage: u8,
    occurrence: u32,
    places: &mut Vec<ItemPlace>,
) -> Result<(), AllocError>
    requires { occurrence < (A.layout arrangement.now).occurrences }
    ensures { OnOk result (places.new.items ≡ places.old.items ++ cond ((A.layout arrangement.now).stands stage occurrence) (Bit stage occurrence ∷ []) []) }
{
    if arrangement.stands(stage, occurrence) {
        places.push(ItemPlace::Bit(stage, occurrence))?;
    }
    Ok(())
}

// Adds the bits of one stage.
fn add_stage<A: Arrangement>(
    arrangement: &A,
    stage: u8,
    places: &mut Vec<ItemPlace>,
) -> Result<(), AllocError>
    ensures { OnOk result (places.new.items ≡ places.old.items ++ stage_places (A.layout arrangement.now) stage) }
{
    for occurrence in 0..arrangement.occurrences() {
        add_bit(arrangement, stage, occurrence, places)?;
    }
    Ok(())
}

fn add_bits<A: Arrangement>(arrangement: &A, places: &mut Vec<ItemPlace>) -> Result<(), AllocError>
    ensures { OnOk result (places.new.items ≡ places.old.items ++ bit_places (A.layout arrangement.now)) }
{
    for stage in 0..arrangement.stages() {
        add_stage(arrangement, stage, places)?;
    }
    Ok(())
}

/// The places of all items of a layout, in the order of the items.
pub fn item_places<A: Arrangement>(
    alloc: Global,
    arrangement: &A,
) -> Result<Vec<ItemPlace>, AllocError>
    ensures { IfOk result (λ all. all.items ≡ item_places (A.layout arrangement.now)) }
{
    let mut places = Vec::new(alloc);
    add_registers(arrangement.registers(), &mut places)?;
    add_fields(arrangement, &mut places)?;
    add_words(arrangement.first_word(), arrangement.stages(), &mut places)?;
    add_bits(arrangement, &mut places)?;
    Ok(places)
}
