// The names that lines define.
ghost use Rattle.std.specs.Prelude.{◌≡◌, ◌⊎◌, ◌++◌, not, ◌∷◌, true, false, List, ℕ, None, Some, IfOk, IfErr, OnOk, map, option_copied, option_to_list};
ghost use Rattle.std.specs.List.{list_any};
ghost use Rattle.std.specs.Str.{bytes_eq};
ghost use Rattle.asm_source.specs.declared.flaw.SourceFault.TheVariants as faults;
ghost use Rattle.lisa_object.specs.Objects.{Label, object_line_tree};
ghost use Rattle.lisa_object.specs.Seen.{HoldsSorted};
ghost use Rattle.lisa_assembler.specs.Faults.{first_double};
ghost use Rattle.lisa_assembler.specs.Seen.{seen_behind};

use asm_source::SourceFault;
use lisa_object::ObjectLine;
use lisa_words::Name;
use name_tables::put_name;
use std::alloc::AllocError;
use std::collections::BTreeSet;

// Puts a name to those that were seen, and answers whether it is new.
fn enter(seen: &mut BTreeSet<Name>, name: &Name) -> Result<bool, AllocError>
    ensures { (names : List (List ℕ)) → HoldsSorted seen.old names → IfOk result (λ new. (new ≡ not (list_any (bytes_eq name.now) names)) × HoldsSorted seen.new (name.now ∷ names)) }
{
    Ok(put_name(seen, name)?)
}

// Puts a name that a line defines to those that were seen.
fn enter_new(seen: &mut BTreeSet<Name>, line: u32, name: &Name) -> Result<(), SourceFault>
    ensures new { (names : List (List ℕ)) → HoldsSorted seen.old names → OnOk result ((list_any (bytes_eq name.now) names ≡ false) × HoldsSorted seen.new (name.now ∷ names)) }
    ensures fault { (names : List (List ℕ)) → HoldsSorted seen.old names → IfErr result (λ f. (f ≡ faults.NoMemory) ⊎ ((list_any (bytes_eq name.now) names ≡ true) × (f ≡ faults.DuplicateLabel line name.now))) }
{
    let new = enter(seen, name)?;
    if new {
        return Ok(());
    }
    Err(SourceFault::DuplicateLabel {
        line,
        name: name.clone()?,
    })
}

// Puts the labels of a line to those names that were seen.
fn enter_labels(seen: &mut BTreeSet<Name>, line: u32, labels: &[Name]) -> Result<(), SourceFault>
    ensures new { (names : List (List ℕ)) → HoldsSorted seen.old names → OnOk result ((first_double names labels.now ≡ None) × HoldsSorted seen.new (seen_behind names labels.now)) }
    ensures fault { (names : List (List ℕ)) → HoldsSorted seen.old names → IfErr result (λ f. (f ≡ faults.NoMemory) ⊎ ((n : List ℕ) × (first_double names labels.now ≡ Some n) × (f ≡ faults.DuplicateLabel line n))) }
{
    for label in labels {
        enter_new(seen, line, label)?;
    }
    Ok(())
}

// Puts a further name of a line to those names that were seen, where there is one.
fn enter_own(seen: &mut BTreeSet<Name>, line: u32, own: Option<&Name>) -> Result<(), SourceFault>
    ensures new { (names : List (List ℕ)) → HoldsSorted seen.old names → OnOk result ((first_double names (option_to_list (option_copied own.entry)) ≡ None) × HoldsSorted seen.new (seen_behind names (option_to_list (option_copied own.entry)))) }
    ensures fault { (names : List (List ℕ)) → HoldsSorted seen.old names
        → IfErr result (λ f. (f ≡ faults.NoMemory) ⊎ ((n : List ℕ) × (first_double names (option_to_list (option_copied own.entry)) ≡ Some n) × (f ≡ faults.DuplicateLabel line n))) }
{
    match own {
        None => Ok(()),
        Some(name) => enter_new(seen, line, name),
    }
}

// Adds the lines of labels.
fn push_labels(lines: &mut Vec<ObjectLine>, labels: &[Name]) -> Result<(), AllocError>
    ensures { OnOk result (map object_line_tree lines.new.items ≡ map object_line_tree lines.old.items ++ map Label labels.now) }
{
    for label in labels {
        lines.push(ObjectLine::Label(label.clone()?))?;
    }
    Ok(())
}

/// Enters the names of a line with these labels, which defines this further name: all of them are new, and the labels are added.
pub(crate) fn enter_names(
    seen: &mut BTreeSet<Name>,
    lines: &mut Vec<ObjectLine>,
    line: u32,
    labels: &[Name],
    own: Option<&Name>,
) -> Result<(), SourceFault>
    ensures added { OnOk result (map object_line_tree lines.new.items ≡ map object_line_tree lines.old.items ++ map Label labels.now) }
    ensures new { (names : List (List ℕ)) → HoldsSorted seen.old names
        → OnOk result ((first_double names (labels.now ++ option_to_list (option_copied own.entry)) ≡ None) × HoldsSorted seen.new ((labels.now ++ option_to_list (option_copied own.entry)) ++ names)) }
    ensures fault { (names : List (List ℕ)) → HoldsSorted seen.old names
        → IfErr result (λ f. (f ≡ faults.NoMemory) ⊎ ((n : List ℕ) × (first_double names (labels.now ++ option_to_list (option_copied own.entry)) ≡ Some n) × (f ≡ faults.DuplicateLabel line n))) }
{
    enter_labels(seen, line, labels)?;
    enter_own(seen, line, own)?;
    push_labels(lines, labels)?;
    Ok(())
}
