// Memories that have fewer cells than the objects together give them.
#![tactic(auto, using(crate::proofs::Steps::one_line, crate::proofs::Steps::one_object, crate::proofs::Steps::one_memory))]

ghost use Rattle.std.specs.Prelude.{◌≡◌, ◌+◌, List, ℕ, None, map, IfOk, OnOk, option_map, option_copied, if◌then◌else◌};
ghost use Rattle.std.specs.Str.{bytes_eq};
ghost use Rattle.lisa_object.specs.declared.faults.LinkFault.TheVariants as faults;
ghost use Rattle.lisa_object.specs.Objects.{object_line_tree, object_tree};
ghost use Rattle.placed_programs.specs.Addresses.{Counts, no_cells, adding, counts_after};
ghost use Rattle.placed_programs.specs.Entries.{entries_of};
ghost use Rattle.object_links.specs.Firsts.{first_of};
ghost use Rattle.object_links.specs.LinkFaults.{capped, all_counts, if_overfull, overfull};
ghost use Rattle.object_links.specs.LineNames.{parts_of};
ghost use Rattle.object_links.specs.LineSizes.{line_size, line_enters, count_of};

use lisa_engine::ArrayItem;
use lisa_object::{Object, ObjectLine};
use lisa_words::{Name, NoMemory};
use name_tables::put_value;
use std::alloc::{AllocError, Global};
use std::collections::BTreeMap;

/// How many cells a line has.
pub fn line_size(line: &ObjectLine) -> u64
    ensures { result ≡ line_size (object_line_tree line.now) }
{
    match line {
        ObjectLine::Space(count) => u64::from(*count),
        ObjectLine::Cell(_) => 1,
        _ => 0,
    }
}

/// The memory that is entered behind a line.
pub fn line_enters<'a>(here: Option<&'a Name>, line: &'a ObjectLine) -> Option<&'a Name>
    ensures { option_copied result ≡ line_enters (option_copied here.entry) (object_line_tree line.now) }
{
    match line {
        ObjectLine::Section(name, _) => Some(name),
        _ => here,
    }
}

/// How many cells a memory has so far.
pub fn count_of(counts: &BTreeMap<Name, u64>, name: &Name) -> u64
    ensures { result ≡ count_of counts.now name.now }
{
    match counts.get(name) {
        Some(count) => *count,
        None => 0,
    }
}

// Counts cells of a memory.
fn count_cells(counts: &mut BTreeMap<Name, u64>, name: &Name, size: u64) -> Result<(), AllocError>
    ensures { OnOk result ((m : List ℕ) → count_of counts.new m ≡ (if bytes_eq m name.now then capped (count_of counts.old name.now + size) else count_of counts.old m)) }
{
    let count = count_of(counts, name).saturating_add(size);
    put_value(counts, name, count)?;
    Ok(())
}

// Counts the cells of a line.
fn count_line(
    counts: &mut BTreeMap<Name, u64>,
    here: Option<&Name>,
    line: &ObjectLine,
) -> Result<(), AllocError>
    ensures { OnOk result ((m : List ℕ) → capped (count_of counts.new m) ≡ capped (adding (option_copied here.entry) (line_size (object_line_tree line.now)) (count_of counts.old) m)) }
{
    let size = line_size(line);
    if let Some(name) = here {
        if size > 0 {
            count_cells(counts, name, size)?;
        }
    }
    Ok(())
}

// Counts the cells of lines.
fn count_lines(counts: &mut BTreeMap<Name, u64>, lines: &[ObjectLine]) -> Result<(), AllocError>
    ensures { OnOk result ((m : List ℕ) → capped (count_of counts.new m) ≡ capped (counts_after (count_of counts.old) None (entries_of (map object_line_tree lines.now)) m)) }
{
    let mut here = None;
    'each: for line in lines {
        count_line(counts, here, line)?;
        here = line_enters(here, line);
    }
    Ok(())
}

// Counts the cells of an object.
fn count_object(counts: &mut BTreeMap<Name, u64>, object: &Object) -> Result<(), AllocError>
    ensures { OnOk result ((m : List ℕ) → capped (count_of counts.new m) ≡ capped (counts_after (count_of counts.old) None (entries_of (object_tree object.now).lines) m)) }
{
    count_lines(counts, &object.lines)
}

// Counts the cells of all objects.
fn count_objects(alloc: Global, objects: &[Object]) -> Result<BTreeMap<Name, u64>, AllocError>
    ensures { IfOk result (λ counts. (m : List ℕ) → capped (count_of counts m) ≡ capped (all_counts no_cells (parts_of (map object_tree objects.now)) m)) }
{
    let mut counts = BTreeMap::new(alloc);
    'each: for object in objects {
        count_object(&mut counts, object)?;
    }
    Ok(counts)
}

// How many cells a memory is given, where it is not that deep.
fn too_many(counts: &BTreeMap<Name, u64>, memory: &ArrayItem) -> Option<u64>
    ensures { (all : Counts) → ((m : List ℕ) → capped (count_of counts.now m) ≡ capped (all m)) → option_map (λ n. faults.DoesNotFit memory.now.name n memory.now.depth) result ≡ if_overfull all memory.now }
{
    let count = count_of(counts, &memory.name);
    if u64::from(memory.depth) < count {
        Some(count)
    } else {
        None
    }
}

fn overfull_among<'a>(
    counts: &BTreeMap<Name, u64>,
    memories: &'a [ArrayItem],
) -> Option<(&'a ArrayItem, u64)>
    ensures { (all : Counts) → ((m : List ℕ) → capped (count_of counts.now m) ≡ capped (all m)) → option_map (λ x. faults.DoesNotFit x.0.now.name x.1 x.0.now.depth) result ≡ first_of (if_overfull all) memories.now }
{
    'each: for memory in memories {
        if let Some(count) = too_many(counts, memory) {
            return Some((memory, count));
        }
    }
    None
}

/// The first memory to which the objects together give more cells than its depth, and their number, or 2^64 - 1 where it is greater.
pub fn first_overfull<'a>(
    alloc: Global,
    memories: &'a [ArrayItem],
    objects: &[Object],
) -> Result<Option<(&'a ArrayItem, u64)>, NoMemory>
    ensures { IfOk result (λ found. option_map (λ x. faults.DoesNotFit x.0.now.name x.1 x.0.now.depth) found ≡ overfull memories.now (parts_of (map object_tree objects.now))) }
{
    let counts = count_objects(alloc, objects)?;
    Ok(overfull_among(&counts, memories))
}
