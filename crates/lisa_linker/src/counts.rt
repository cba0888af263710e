// How many cells stand before a line.
#![tactic(auto, using(object_links::proofs::Steps::one_line))]

ghost use Rattle.std.specs.Prelude.{◌≡◌, ◌+◌, List, ℕ, OnOk, if◌then◌else◌};
ghost use Rattle.std.specs.Option.{option_copied};
ghost use Rattle.std.specs.Str.{bytes_eq};
ghost use Rattle.lisa_object.specs.Objects.{object_line_tree};
ghost use Rattle.placed_programs.specs.Addresses.{address, adding};
ghost use Rattle.object_links.specs.LineSizes.{line_size, count_of};

use lisa_object::ObjectLine;
use lisa_words::{Name, NoMemory};
use name_tables::put_value;
use object_links::{count_of, line_size};
use std::collections::BTreeMap;

/// The address of the next cell.
pub(crate) fn address(counts: &BTreeMap<Name, u64>, here: Option<&Name>) -> u64
    ensures { result ≡ address (option_copied here.entry) (count_of counts.now) }
{
    match here {
        None => 0,
        Some(name) => count_of(counts, name),
    }
}

// Counts cells of a memory. More than 2^64 of them need memory that isn't there.
fn add_cells(counts: &mut BTreeMap<Name, u64>, name: &Name, size: u64) -> Result<(), NoMemory>
    ensures { OnOk result ((m : List ℕ) → count_of counts.new m ≡ (if bytes_eq m name.now then count_of counts.old name.now + size else count_of counts.old m)) }
{
    let Some(count) = count_of(counts, name).checked_add(size) else {
        return Err(NoMemory);
    };
    put_value(counts, name, count)?;
    Ok(())
}

/// Counts the cells of a line.
pub(crate) fn add_line(
    counts: &mut BTreeMap<Name, u64>,
    here: Option<&Name>,
    line: &ObjectLine,
) -> Result<(), NoMemory>
    ensures { OnOk result ((m : List ℕ) → count_of counts.new m ≡ adding (option_copied here.entry) (line_size (object_line_tree line.now)) (count_of counts.old) m) }
{
    let size = line_size(line);
    if let Some(name) = here {
        if size > 0 {
            add_cells(counts, name, size)?;
        }
    }
    Ok(())
}
