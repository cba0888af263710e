// The names that objects define, share and use.
#![tactic(auto, using(crate::proofs::Steps::one_line, crate::proofs::Steps::one_object, crate::proofs::Exports::names_entered))]

ghost use Rattle.std.specs.Prelude.{◌≡◌, ◌||◌, List, ℕ, map, IfOk, OnOk, flat_map, option_copied, option_to_list};
ghost use Rattle.std.specs.List.{list_any};
ghost use Rattle.std.specs.Str.{bytes_eq};
ghost use Rattle.name_tables.specs.TableViews.{has_name};
ghost use Rattle.lisa_object.specs.Objects.{object_line_tree};
ghost use Rattle.lisa_object.specs.ObjectRules.{defined};
ghost use Rattle.object_links.specs.LineNames.{line_shares};

use lisa_object::ObjectLine;
use lisa_words::{Name, NoMemory};
use name_tables::put_name;
use std::alloc::{AllocError, Global};
use std::collections::BTreeSet;

/// The name that a line defines.
pub fn defined_name(line: &ObjectLine) -> Option<&Name>
    ensures { option_to_list (option_copied result) ≡ defined (object_line_tree line.now) }
{
    match line {
        ObjectLine::Label(name) => Some(name),
        ObjectLine::Equ(name, _) => Some(name),
        _ => None,
    }
}

// The name that a line shares.
fn shared_name(line: &ObjectLine) -> Option<&Name>
    ensures { option_to_list (option_copied result) ≡ line_shares (object_line_tree line.now) }
{
    match line {
        ObjectLine::Global(name) => Some(name),
        _ => None,
    }
}

// Enters a name, where there is one.
fn enter_name(set: &mut BTreeSet<Name>, name: Option<&Name>) -> Result<(), AllocError>
    ensures { OnOk result ((n : List ℕ) → has_name set.new n ≡ (list_any (bytes_eq n) (option_to_list (option_copied name.entry)) || has_name set.old n)) }
{
    if let Some(name) = name {
        put_name(set, name)?;
    }
    Ok(())
}

/// The names that an object defines itself.
pub fn own_names(alloc: Global, lines: &[ObjectLine]) -> Result<BTreeSet<Name>, NoMemory>
    ensures { IfOk result (λ set. (n : List ℕ) → has_name set n ≡ list_any (bytes_eq n) (flat_map defined (map object_line_tree lines.now))) }
{
    let mut set = BTreeSet::new(alloc);
    for line in lines {
        enter_name(&mut set, defined_name(line))?;
    }
    Ok(set)
}

/// The names that an object shares, whether it defines them or not.
pub fn shared_names(alloc: Global, lines: &[ObjectLine]) -> Result<BTreeSet<Name>, NoMemory>
    ensures { IfOk result (λ set. (n : List ℕ) → has_name set n ≡ list_any (bytes_eq n) (flat_map line_shares (map object_line_tree lines.now))) }
{
    let mut set = BTreeSet::new(alloc);
    for line in lines {
        enter_name(&mut set, shared_name(line))?;
    }
    Ok(set)
}
