// The first name that is defined nowhere, of all objects.
#![tactic(auto, using(crate::proofs::Steps::one_name, crate::proofs::Steps::one_object, crate::proofs::Exports::names_entered))]

ghost use Rattle.std.specs.Prelude.{◌≡◌, ◌<◌, ◌^◌, All, List, ℕ, map, length, IfOk, option_map};
ghost use Rattle.std.specs.List.{list_any};
ghost use Rattle.std.specs.Str.{bytes_eq};
ghost use Rattle.name_tables.specs.TableViews.{has_name};
ghost use Rattle.lisa_object.specs.declared.faults.LinkFault.TheVariants as faults;
ghost use Rattle.lisa_object.specs.Objects.{object_tree};
ghost use Rattle.lisa_object.specs.ObjectRules.{IsObject};
ghost use Rattle.object_links.specs.LinkFaults.{all_exported, undefined_from};
ghost use Rattle.object_links.specs.LineNames.{parts_of};

use crate::globals::all_exported;
use crate::undefined::undefined_in;
use lisa_object::Object;
use lisa_words::{Name, NoMemory};
use name_tables::put_name;
use std::alloc::Global;
use std::collections::BTreeSet;

// These names, to be looked up.
fn name_set(alloc: Global, names: &[&Name]) -> Result<BTreeSet<Name>, NoMemory>
    ensures { IfOk result (λ set. (n : List ℕ) → has_name set n ≡ list_any (bytes_eq n) (map (λ m. m.now) names.now)) }
{
    let mut set = BTreeSet::new(alloc);
    'each: for name in names {
        put_name(&mut set, name)?;
    }
    Ok(set)
}

/// The first name in a sum that neither its own object nor any other's exports define, with the object's number, from 1.
pub fn first_undefined<'a>(
    alloc: Global,
    objects: &'a [Object],
) -> Result<Option<(u32, &'a Name)>, NoMemory>
    requires objects { All (λ o. IsObject (object_tree o)) objects.now }
    requires few { length objects.now < 2 ^ 32 }
    ensures { IfOk result (λ found. option_map (λ x. faults.Undefined x.0 x.1.now) found ≡ undefined_from 1 (all_exported (parts_of (map object_tree objects.now))) (parts_of (map object_tree objects.now))) }
{
    let names = all_exported(alloc, objects)?;
    let others = name_set(alloc, &names)?;
    'each: for place in 0..objects.len() {
        if let Some(name) = undefined_in(alloc, &others, &objects[place])? {
            return Ok(Some((place as u32 + 1, name)));
        }
    }
    Ok(None)
}
