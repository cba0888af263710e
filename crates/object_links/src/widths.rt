// The widths of memories, by their names.
ghost use Rattle.std.specs.Prelude.{◌≡◌, List, ℕ, IfOk, OnOk};
ghost use Rattle.std.specs.Option.{option_or};
ghost use Rattle.name_tables.specs.TableViews.{value_of};
ghost use Rattle.object_links.specs.LinkFaults.{width_if_named, named_width};

use lisa_engine::ArrayItem;
use lisa_words::{Name, NoMemory};
use name_tables::put_value;
use std::alloc::{AllocError, Global};
use std::collections::BTreeMap;

// Notes the width of a memory whose name has none yet.
fn note_width(widths: &mut BTreeMap<Name, u32>, memory: &ArrayItem) -> Result<(), AllocError>
    ensures { OnOk result ((n : List ℕ) → value_of widths.new n ≡ option_or (value_of widths.old n) (width_if_named n memory.now)) }
{
    if widths.get(&memory.name).is_some() {
        return Ok(());
    }
    put_value(widths, &memory.name, memory.width)?;
    Ok(())
}

/// The width of each memory, by its name.
#[tactic(auto, using(crate::proofs::Steps::one_memory, crate::proofs::Steps::or_assoc, crate::proofs::Steps::or_none))]
pub fn memory_widths(alloc: Global, memories: &[ArrayItem]) -> Result<BTreeMap<Name, u32>, NoMemory>
    ensures { IfOk result (λ widths. (n : List ℕ) → value_of widths n ≡ named_width memories.now n) }
{
    let mut widths = BTreeMap::new(alloc);
    for memory in memories {
        note_width(&mut widths, memory)?;
    }
    Ok(widths)
}
