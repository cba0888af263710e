// Sections whose name and width are no memory's.
#![tactic(auto, using(crate::proofs::Steps::one_line, crate::proofs::Steps::one_object))]

ghost use Rattle.std.specs.Prelude.{◌≡◌, List, ℕ, map, IfOk, option_copied};
ghost use Rattle.name_tables.specs.TableViews.{value_of};
ghost use Rattle.lisa_object.specs.Objects.{object_line_tree, object_tree};
ghost use Rattle.object_links.specs.Firsts.{first_of};
ghost use Rattle.object_links.specs.LinkFaults.{has_width, first_unknown};
ghost use Rattle.object_links.specs.LineNames.{parts_of, line_unknown};

use crate::widths::memory_widths;
use lisa_engine::ArrayItem;
use lisa_object::{Object, ObjectLine};
use lisa_words::{Name, NoMemory};
use std::alloc::Global;
use std::collections::BTreeMap;

// The memory of this name has this width.
fn is_memory(widths: &BTreeMap<Name, u32>, name: &Name, width: u32) -> bool
    ensures { result ≡ has_width (value_of widths.now name.now) width }
{
    match widths.get(name) {
        Some(found) => *found == width,
        None => false,
    }
}

// The name of a line's section, where it is no memory's.
fn unknown_in_line<'a>(widths: &BTreeMap<Name, u32>, line: &'a ObjectLine) -> Option<&'a Name>
    ensures { option_copied result ≡ line_unknown (value_of widths.now) (object_line_tree line.now) }
{
    match line {
        ObjectLine::Section(name, width) => {
            if is_memory(widths, name, *width) {
                None
            } else {
                Some(name)
            }
        }
        _ => None,
    }
}

fn unknown_in<'a>(widths: &BTreeMap<Name, u32>, lines: &'a [ObjectLine]) -> Option<&'a Name>
    ensures { option_copied result ≡ first_of (line_unknown (value_of widths.now)) (map object_line_tree lines.now) }
{
    for line in lines {
        if let Some(name) = unknown_in_line(widths, line) {
            return Some(name);
        }
    }
    None
}

fn unknown_among<'a>(widths: &BTreeMap<Name, u32>, objects: &'a [Object]) -> Option<&'a Name>
    ensures { option_copied result ≡ first_of (λ o. first_of (line_unknown (value_of widths.now)) (object_tree o).lines) objects.now }
{
    for object in objects {
        if let Some(name) = unknown_in(widths, &object.lines) {
            return Some(name);
        }
    }
    None
}

/// The name of the first section, in the order of the objects, whose name and width are no memory's.
pub fn first_unknown<'a>(
    alloc: Global,
    memories: &[ArrayItem],
    objects: &'a [Object],
) -> Result<Option<&'a Name>, NoMemory>
    ensures { IfOk result (λ found. option_copied found ≡ first_unknown memories.now (parts_of (map object_tree objects.now))) }
{
    let widths = memory_widths(alloc, memories)?;
    Ok(unknown_among(&widths, objects))
}
