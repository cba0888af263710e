// What is wrong with objects before any value is computed.
ghost use Rattle.std.specs.Prelude.{◌≡◌, ◌<◌, ◌^◌, All, map, length, IfOk};
ghost use Rattle.lisa_object.specs.Objects.{object_tree};
ghost use Rattle.lisa_object.specs.ObjectRules.{IsObject};
ghost use Rattle.object_links.specs.LinkFaults.{fault_before_values};
ghost use Rattle.object_links.specs.LineNames.{parts_of};

use crate::globals::double_export;
use crate::rooms::first_overfull;
use crate::sections::first_unknown;
use crate::uses::first_undefined;
use lisa_engine::ArrayItem;
use lisa_object::{LinkFault, Object};
use lisa_words::NoMemory;
use std::alloc::Global;

/// The first of the faults that need no value of a sum: an unknown section, a doubled global, a memory that is too small, an undefined name.
pub fn fault_before_values(
    alloc: Global,
    memories: &[ArrayItem],
    objects: &[Object],
) -> Result<Option<LinkFault>, NoMemory>
    requires objects { All (λ o. IsObject (object_tree o)) objects.now }
    requires few { length objects.now < 2 ^ 32 }
    ensures { IfOk result (λ fault. fault ≡ fault_before_values memories.now (parts_of (map object_tree objects.now))) }
{
    if let Some(name) = first_unknown(alloc, memories, objects)? {
        let name = name.clone()?;
        return Ok(Some(LinkFault::NoSuchMemory { name }));
    }
    if let Some(name) = double_export(alloc, objects)? {
        let name = name.clone()?;
        return Ok(Some(LinkFault::DuplicateGlobal { name }));
    }
    if let Some((memory, cells)) = first_overfull(alloc, memories, objects)? {
        return Ok(Some(LinkFault::DoesNotFit {
            memory: memory.name.clone()?,
            cells,
            depth: u64::from(memory.depth),
        }));
    }
    if let Some((object, name)) = first_undefined(alloc, objects)? {
        let name = name.clone()?;
        return Ok(Some(LinkFault::Undefined { object, name }));
    }
    Ok(None)
}
