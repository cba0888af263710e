// The values of the names that objects define.
#![tactic(auto, using(object_links::proofs::Steps::one_line, object_links::proofs::Steps::one_object))]

ghost use Rattle.std.specs.Prelude.{◌≡◌, ◌+◌, ◌∷◌, [], List, ℕ, ℤ, None, All, map, filter, IfOk, IfSome, OnOk, IsTrue, option_map, option_copied, option_to_list};
ghost use Rattle.std.specs.Map.{lookup};
ghost use Rattle.std.specs.Option.{option_or};
ghost use Rattle.std.specs.Str.{bytes_eq};
ghost use Rattle.name_tables.specs.TableViews.{value_of};
ghost use Rattle.asm_source.specs.Numbers.{IsShort};
ghost use Rattle.lisa_object.specs.Objects.{object_line_tree, object_tree};
ghost use Rattle.lisa_object.specs.ObjectRules.{AreLines, IsObject};
ghost use Rattle.lisa_object.specs.LineMachine.{may_follow};
ghost use Rattle.lisa_object.specs.declared.rules.Standing.{Standing};
ghost use Rattle.placed_programs.specs.Addresses.{no_cells, counts_after, definitions};
ghost use Rattle.placed_programs.specs.Entries.{entries_of};
ghost use Rattle.placed_programs.specs.Symbols.{with_counts, exports, all_exports};
ghost use Rattle.object_links.specs.LineNames.{parts_of};
ghost use Rattle.object_links.specs.LineSizes.{count_of};
ghost use Rattle.lisa_linker.specs.LineValues.{line_defines};
ghost use Rattle.lisa_linker.specs.Tables.{AreShort, is_wanted};

use crate::counts::{add_line, address};
use lisa_object::{Object, ObjectLine};
use lisa_words::{Name, NoMemory};
use name_tables::put_value;
use object_links::{line_enters, shared_names};
use std::alloc::{AllocError, Global};
use std::collections::{BTreeMap, BTreeSet};

// The name that a line defines, with its value.
fn defined_value<'a>(
    counts: &BTreeMap<Name, u64>,
    here: Option<&Name>,
    line: &'a ObjectLine,
) -> Option<(&'a Name, i128)>
    ensures value { option_to_list (option_map (λ d. (d.0.now, d.1)) result) ≡ line_defines (count_of counts.now) (option_copied here.entry) (object_line_tree line.now) }
    ensures short { (st : Standing) → IsTrue (may_follow st (object_line_tree line.now)) → All (λ d. IsShort 1 d.1) (line_defines (count_of counts.now) (option_copied here.entry) (object_line_tree line.now)) }
{
    match line {
        ObjectLine::Label(name) => Some((name, i128::from(address(counts, here)))),
        ObjectLine::Equ(name, value) => Some((name, *value)),
        _ => None,
    }
}

// Notes the value of a name that has none yet.
fn note_value(values: &mut BTreeMap<Name, i128>, name: &Name, value: i128) -> Result<(), AllocError>
    ensures noted { OnOk result ((n : List ℕ) → value_of values.new n ≡ option_or (value_of values.old n) (lookup (bytes_eq n) ((name.now, value) ∷ []))) }
{
    if values.get(name).is_some() {
        return Ok(());
    }
    put_value(values, name, value)?;
    Ok(())
}

fn is_wanted(wanted: Option<&BTreeSet<Name>>, name: &Name) -> bool
    ensures { result ≡ is_wanted (option_copied wanted.entry) name.now }
{
    match wanted {
        None => true,
        Some(names) => names.contains(name),
    }
}

// Notes the value of a name, where it is wanted.
fn note_wanted(
    wanted: Option<&BTreeSet<Name>>,
    values: &mut BTreeMap<Name, i128>,
    defined: Option<(&Name, i128)>,
) -> Result<(), AllocError>
    ensures noted { OnOk result ((n : List ℕ) → value_of values.new n
        ≡ option_or (value_of values.old n) (lookup (bytes_eq n) (filter (λ d. is_wanted (option_copied wanted.entry) d.0) (option_to_list (option_map (λ d. (d.0.now, d.1)) defined.entry))))) }
{
    if let Some((name, value)) = defined {
        if is_wanted(wanted, name) {
            note_value(values, name, value)?;
        }
    }
    Ok(())
}

// Notes the values of the names that lines define, of those that are wanted, and counts the cells of the lines.
fn note_values(
    counts: &mut BTreeMap<Name, u64>,
    wanted: Option<&BTreeSet<Name>>,
    values: &mut BTreeMap<Name, i128>,
    lines: &[ObjectLine],
) -> Result<(), NoMemory>
    requires lines { AreLines (map object_line_tree lines.now) }
    requires short { AreShort values.old }
    ensures short { OnOk result (AreShort values.new) }
    ensures counted { OnOk result ((m : List ℕ) → count_of counts.new m ≡ counts_after (count_of counts.old) None (entries_of (map object_line_tree lines.now)) m) }
    ensures noted { OnOk result ((n : List ℕ) → value_of values.new n
        ≡ option_or (value_of values.old n) (lookup (bytes_eq n) (filter (λ d. is_wanted (option_copied wanted.entry) d.0) (definitions (count_of counts.old) None (entries_of (map object_line_tree lines.now)))))) }
{
    let mut here = None;
    'each: for line in lines {
        let defined = defined_value(counts, here, line);
        note_wanted(wanted, values, defined)?;
        add_line(counts, here, line)?;
        here = line_enters(here, line);
    }
    Ok(())
}

/// The values of the names that lines define, behind so many cells. The cells of the lines are counted.
pub(crate) fn line_values(
    alloc: Global,
    counts: &mut BTreeMap<Name, u64>,
    lines: &[ObjectLine],
) -> Result<BTreeMap<Name, i128>, NoMemory>
    requires lines { AreLines (map object_line_tree lines.now) }
    ensures short { IfOk result AreShort }
    ensures counted { OnOk result ((m : List ℕ) → count_of counts.new m ≡ counts_after (count_of counts.old) None (entries_of (map object_line_tree lines.now)) m) }
    ensures values { IfOk result (λ values. (n : List ℕ) → value_of values n ≡ lookup (bytes_eq n) (definitions (count_of counts.old) None (entries_of (map object_line_tree lines.now)))) }
{
    let mut values = BTreeMap::new(alloc);
    note_values(counts, None, &mut values, lines)?;
    Ok(values)
}

// Notes the values that lines share, and counts their cells.
fn note_shared_lines(
    alloc: Global,
    counts: &mut BTreeMap<Name, u64>,
    values: &mut BTreeMap<Name, i128>,
    lines: &[ObjectLine],
) -> Result<(), NoMemory>
    requires lines { AreLines (map object_line_tree lines.now) }
    requires short { AreShort values.old }
    ensures short { OnOk result (AreShort values.new) }
    ensures counted { OnOk result ((m : List ℕ) → count_of counts.new m ≡ counts_after (count_of counts.old) None (entries_of (map object_line_tree lines.now)) m) }
    ensures noted { OnOk result ((n : List ℕ) → value_of values.new n
        ≡ option_or (value_of values.old n) (lookup (bytes_eq n) (exports (count_of counts.old) (entries_of (map object_line_tree lines.now))))) }
{
    let shared = shared_names(alloc, lines)?;
    note_values(counts, Some(&shared), values, lines)?;
    Ok(())
}

// Notes the values that an object shares, and counts its cells.
fn note_shared(
    alloc: Global,
    counts: &mut BTreeMap<Name, u64>,
    values: &mut BTreeMap<Name, i128>,
    object: &Object,
) -> Result<(), NoMemory>
    requires object { IsObject (object_tree object.now) }
    requires short { AreShort values.old }
    ensures short { OnOk result (AreShort values.new) }
    ensures counted { OnOk result ((m : List ℕ) → count_of counts.new m ≡ counts_after (count_of counts.old) None (entries_of (object_tree object.now).lines) m) }
    ensures noted { OnOk result ((n : List ℕ) → value_of values.new n
        ≡ option_or (value_of values.old n) (lookup (bytes_eq n) (exports (count_of counts.old) (entries_of (object_tree object.now).lines)))) }
{
    note_shared_lines(alloc, counts, values, &object.lines)
}

/// The values of the names that the objects define and share.
pub(crate) fn shared_values(
    alloc: Global,
    objects: &[Object],
) -> Result<BTreeMap<Name, i128>, NoMemory>
    requires objects { All (λ o. IsObject (object_tree o)) objects.now }
    ensures short { IfOk result (λ values. AreShort values) }
    ensures values { IfOk result (λ values. (n : List ℕ) → value_of values n ≡ lookup (bytes_eq n) (all_exports (with_counts no_cells (parts_of (map object_tree objects.now))))) }
{
    let mut counts = BTreeMap::new(alloc);
    let mut values = BTreeMap::new(alloc);
    'each: for object in objects {
        note_shared(alloc, &mut counts, &mut values, object)?;
    }
    Ok(values)
}
