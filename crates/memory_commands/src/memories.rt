//! The memories of a description by their names.
ghost use Rattle.std.specs.Prelude.{◌≡◌, ◌⊎◌, IfOk};
ghost use Rattle.std.specs.Option.{option_copied};
ghost use Rattle.lisa_tree.specs.Descriptions.{description_tree};
ghost use Rattle.item_promises.specs.lisa_forms.Verdicts.{HasForms};
ghost use Rattle.item_promises.specs.lisa_machine.Resolving.{IsWidth};
ghost use Rattle.lisa_outcomes.specs.Stages.{Finds};
ghost use Rattle.lisa_outcomes.specs.declared.status.End.TheVariants as ends;
ghost use Rattle.memory_commands.specs.DescriptionMemories.{memory_named, IsMemory, no_such_memory, IsNoMemory};

use hex_files::{HexFault, MemhFault, MemoryFormat};
use item_promises::{Machine, machines_show, sizes_are_limited};
use lisa_engine::ArrayItem;
use lisa_outcomes::{End, Refusal};
use lisa_words::Name;
use std::alloc::Global;

// The memory of this name.
fn memory_named<'a>(machine: &'a Machine, name: &[u8]) -> Option<&'a ArrayItem>
    requires { HasForms (description_tree machine.now) }
    ensures { option_copied result ≡ memory_named (description_tree machine.now) name.now }
{
    sizes_are_limited();
    let arrays = machine.arrays();
    for place in 0..arrays.len() {
        let array = &arrays[place];
        if machine.is_memory(place as u32) && array.name.as_bytes() == name {
            return Some(array);
        }
    }
    None
}

// The end of a command that names no memory of the description.
fn missing(alloc: Global, format: MemoryFormat, name: &str) -> End
    ensures { (result ≡ ends.NoMemory) ⊎ (result ≡ ends.Refused (no_such_memory format name.now)) }
{
    let name = match Name::from_bytes(alloc, name.as_bytes()) {
        Ok(name) => name,
        Err(_) => return End::NoMemory,
    };
    match format {
        MemoryFormat::Hex => End::Refused(Refusal::Hex(HexFault::NoSuchMemory { name })),
        MemoryFormat::Memh => End::Refused(Refusal::Memh(MemhFault::NoSuchMemory { name })),
    }
}

/// The memory of a description that has this name.
pub(crate) fn find_memory<'a>(
    alloc: Global,
    machine: &'a Machine,
    format: MemoryFormat,
    name: &str,
) -> Result<&'a ArrayItem, End>
    requires { HasForms (description_tree machine.now) }
    ensures finds { let d = description_tree machine.now in Finds (λ memory. memory.now) (IsMemory d name.now) (IsNoMemory format d name.now) result }
    ensures width { IfOk result (λ memory. IsWidth memory.now.width) }
{
    machine.accepted();
    machines_show();
    match memory_named(machine, name.as_bytes()) {
        Some(memory) => Ok(memory),
        None => Err(missing(alloc, format, name)),
    }
}
