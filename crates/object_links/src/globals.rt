// Names that several objects share.
#![tactic(auto, using(crate::proofs::Steps::one_line, crate::proofs::Steps::one_object, crate::proofs::Exports::export_added, crate::proofs::Exports::exports_added))]

ghost use Rattle.std.specs.Prelude.{◌≡◌, ◌++◌, ◌∷◌, not, List, ℕ, [], map, filter, flat_map, IfOk, OnOk, option_copied, option_to_list};
ghost use Rattle.std.specs.List.{list_any};
ghost use Rattle.std.specs.Str.{bytes_eq};
ghost use Rattle.name_tables.specs.TableViews.{has_name};
ghost use Rattle.lisa_object.specs.Objects.{object_line_tree, object_tree};
ghost use Rattle.lisa_object.specs.ObjectRules.{defined};
ghost use Rattle.object_links.specs.Firsts.{first_double};
ghost use Rattle.object_links.specs.LinkFaults.{all_exported, double_export};
ghost use Rattle.lisa_object.specs.Seen.{HoldsSorted};
ghost use Rattle.object_links.specs.LineNames.{parts_of, line_exports};

use crate::names::{defined_name, shared_names};
use lisa_object::{Object, ObjectLine};
use lisa_words::{Name, NoMemory};
use name_tables::put_name;
use std::alloc::{AllocError, Global};
use std::collections::BTreeSet;

// The name that a line defines, where it is one of these.
fn exported_name<'a>(shared: &BTreeSet<Name>, line: &'a ObjectLine) -> Option<&'a Name>
    ensures { option_to_list (option_copied result) ≡ filter (λ n. has_name shared.now n) (defined (object_line_tree line.now)) }
{
    let name = defined_name(line)?;
    if shared.contains(name) {
        Some(name)
    } else {
        None
    }
}

// Adds a name, where there is one.
fn add<'a>(names: &mut Vec<&'a Name>, name: Option<&'a Name>) -> Result<(), AllocError>
    ensures { OnOk result (map (λ n. n.now) names.new.items ≡ map (λ n. n.now) names.old.items ++ option_to_list (option_copied name.entry)) }
{
    if let Some(name) = name {
        names.push(name)?;
    }
    Ok(())
}

// Adds the names that these lines define, where they are among others.
fn add_exported<'a>(
    names: &mut Vec<&'a Name>,
    shared: &BTreeSet<Name>,
    lines: &'a [ObjectLine],
) -> Result<(), AllocError>
    ensures { OnOk result (map (λ n. n.now) names.new.items ≡ map (λ n. n.now) names.old.items ++ filter (λ n. has_name shared.now n) (flat_map defined (map object_line_tree lines.now))) }
{
    for line in lines {
        add(names, exported_name(shared, line))?;
    }
    Ok(())
}

// Adds the names that an object defines and shares.
fn add_exports<'a>(
    alloc: Global,
    names: &mut Vec<&'a Name>,
    lines: &'a [ObjectLine],
) -> Result<(), NoMemory>
    ensures { OnOk result (map (λ n. n.now) names.new.items ≡ map (λ n. n.now) names.old.items ++ line_exports (map object_line_tree lines.now)) }
{
    let shared = shared_names(alloc, lines)?;
    add_exported(names, &shared, lines)?;
    Ok(())
}

/// The names that the objects define and share, in order.
pub fn all_exported<'a>(alloc: Global, objects: &'a [Object]) -> Result<Vec<&'a Name>, NoMemory>
    ensures { IfOk result (λ names. map (λ n. n.now) names.items ≡ all_exported (parts_of (map object_tree objects.now))) }
{
    let mut names = Vec::new(alloc);
    for object in objects {
        add_exports(alloc, &mut names, &object.lines)?;
    }
    Ok(names)
}

// Puts a name to those that were seen, and answers whether it is new.
fn enter(seen: &mut BTreeSet<Name>, name: &Name) -> Result<bool, AllocError>
    ensures { (names : List (List ℕ)) → HoldsSorted seen.old names → IfOk result (λ new. (new ≡ not (list_any (bytes_eq name.now) names)) × HoldsSorted seen.new (name.now ∷ names)) }
{
    Ok(put_name(seen, name)?)
}

// The first name that stands before it already.
fn first_double<'a>(alloc: Global, names: &[&'a Name]) -> Result<Option<&'a Name>, NoMemory>
    ensures { IfOk result (λ found. option_copied found ≡ first_double [] (map (λ n. n.now) names.now)) }
{
    let mut seen = BTreeSet::new(alloc);
    'each: for name in names {
        let new = enter(&mut seen, name)?;
        if !new {
            return Ok(Some(*name));
        }
    }
    Ok(None)
}

/// The name that two objects define and share, the one whose second definition comes first.
pub fn double_export<'a>(alloc: Global, objects: &'a [Object]) -> Result<Option<&'a Name>, NoMemory>
    ensures { IfOk result (λ found. option_copied found ≡ double_export (parts_of (map object_tree objects.now))) }
{
    let names = all_exported(alloc, objects)?;
    first_double(alloc, &names)
}
