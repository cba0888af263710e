// Linking objects.
#![tactic(auto, using(object_links::proofs::Steps::one_object, object_links::proofs::Steps::one_memory))]

ghost use Rattle.std.specs.Prelude.{◌≡◌, ◌⊎◌, ◌++◌, ◌<◌, ◌^◌, List, ℕ, All, None, Some, map, filter, length, ◌∷◌, [], IfOk, IfErr, OnOk, option_to_list};
ghost use Rattle.lisa_engine.specs.Images.{IsImage};
ghost use Rattle.lisa_object.specs.declared.faults.LinkFault.TheVariants as faults;
ghost use Rattle.lisa_object.specs.Objects.{object_tree};
ghost use Rattle.lisa_object.specs.ObjectRules.{IsObject};
ghost use Rattle.placed_programs.specs.Addresses.{no_cells};
ghost use Rattle.placed_programs.specs.Symbols.{with_counts, all_exports};
ghost use Rattle.placed_programs.specs.Placed.{object_sense, part_cells, is_some_cell, placed_image};
ghost use Rattle.object_links.specs.LineNames.{parts_of};
ghost use Rattle.object_links.specs.LinkFaults.{out_of_range, link_fault};
ghost use Rattle.lisa_linker.specs.Memories.{AreMemories};
ghost use Rattle.lisa_linker.specs.Tables.{cells_of, filled_with};

use crate::filling::fill_objects;
use lisa_engine::{ArrayItem, Image, ImageMemory};
use lisa_object::{LinkFault, Object};
use lisa_words::{Name, NoMemory};
use object_links::fault_before_values;
use std::alloc::Global;
use std::collections::BTreeMap;

// The memory with its cells, where it has some.
fn filled_memory(
    cells: &BTreeMap<Name, Vec<u64>>,
    memory: &ArrayItem,
) -> Result<Option<ImageMemory>, NoMemory>
    ensures { IfOk result (λ found. option_to_list found ≡ filter (λ m. is_some_cell m.cells) (record { name = memory.now.name; width = memory.now.width; depth = memory.now.depth; cells = cells_of cells.now memory.now.name } ∷ [])) }
{
    let Some(own) = cells.get(&memory.name) else {
        return Ok(None);
    };
    if own.is_empty() {
        return Ok(None);
    }
    Ok(Some(ImageMemory {
        name: memory.name.clone()?,
        width: memory.width,
        depth: memory.depth,
        cells: own.clone()?,
    }))
}

// Adds a memory with its cells, where it has some.
fn push_filled(
    filled: &mut Vec<ImageMemory>,
    cells: &BTreeMap<Name, Vec<u64>>,
    memory: &ArrayItem,
) -> Result<(), NoMemory>
    ensures { OnOk result (filled.new.items ≡ filled.old.items ++ filter (λ m. is_some_cell m.cells) (filled_with (cells_of cells.now) memory.now ∷ [])) }
{
    if let Some(memory) = filled_memory(cells, memory)? {
        filled.push(memory)?;
    }
    Ok(())
}

// The memories that have cells, in their order.
#[tactic(auto, using(object_links::proofs::Steps::one_memory, crate::proofs::Linked::kept_added))]
fn filled_memories(
    alloc: Global,
    cells: &BTreeMap<Name, Vec<u64>>,
    memories: &[ArrayItem],
) -> Result<Image, NoMemory>
    ensures { IfOk result (λ image. image ≡ filter (λ m. is_some_cell m.cells) (map (filled_with (cells_of cells.now)) memories.now)) }
{
    let mut filled = Vec::new(alloc);
    for memory in memories {
        push_filled(&mut filled, cells, memory)?;
    }
    Ok(Image { memories: filled })
}

/// The image of objects that are placed one behind the other in each of these memories, or the first of their faults.
#[tactic(auto, using(crate::proofs::Linked::no_fault, crate::proofs::Linked::fault_before, crate::proofs::Linked::fault_behind, crate::proofs::Linked::linked_rules, crate::proofs::Linked::filled_image))]
pub fn link(alloc: Global, memories: &[ArrayItem], objects: &[Object]) -> Result<Image, LinkFault>
    requires memories { AreMemories memories.now }
    requires objects { All (λ o. IsObject (object_tree o)) objects.now }
    requires few { length objects.now < 2 ^ 32 }
    ensures image { IfOk result (λ image. image ≡ placed_image object_sense memories.now (parts_of (map object_tree objects.now))) }
    ensures rules { IfOk result IsImage }
    ensures whole { OnOk result (link_fault memories.now (parts_of (map object_tree objects.now)) ≡ None) }
    ensures fault { IfErr result (λ f. (f ≡ faults.NoMemory) ⊎ (link_fault memories.now (parts_of (map object_tree objects.now)) ≡ Some f)) }
{
    let Ok(before) = fault_before_values(alloc, memories, objects) else {
        return Err(LinkFault::NoMemory);
    };
    if let Some(fault) = before {
        return Err(fault);
    }
    let cells = fill_objects(alloc, objects)?;
    let Ok(image) = filled_memories(alloc, &cells, memories) else {
        return Err(LinkFault::NoMemory);
    };
    Ok(image)
}
