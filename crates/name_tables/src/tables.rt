// Names that are put into ordered sets and tables.
#![tactic(auto, using(crate::proofs::TableLaws::put_one, crate::proofs::TableLaws::entered))]

ghost use Rattle.std.specs.Prelude.{◌≡◌, ◌||◌, not, List, ℕ, None, Some, IfOk, OnOk, if◌then◌else◌};
ghost use Rattle.std.specs.Option.{option_or};
ghost use Rattle.std.specs.Str.{bytes_eq};
ghost use Rattle.name_tables.specs.TableViews.{has_name, value_of};

use lisa_words::Name;
use std::alloc::{AllocError, Global};
use std::collections::{BTreeMap, BTreeSet};

/// Puts a name into a set, and answers whether it is new.
pub fn put_name(set: &mut BTreeSet<Name>, name: &Name) -> Result<bool, AllocError>
    ensures new { IfOk result (λ new. new ≡ not (has_name set.old name.now)) }
    ensures put { OnOk result ((n : List ℕ) → has_name set.new n ≡ (bytes_eq n name.now || has_name set.old n)) }
{
    Ok(set.insert(name.clone()?)?)
}

/// Gives a name its value, in the place of the one that it had.
pub fn put_value<V: Drop>(
    table: &mut BTreeMap<Name, V>,
    name: &Name,
    value: V,
) -> Result<(), AllocError>
    ensures put { OnOk result ((n : List ℕ) → value_of table.new n ≡ (if bytes_eq n name.now then Some value else value_of table.old n)) }
{
    table.insert(name.clone()?, value)?;
    Ok(())
}

/// Gives a name its value, where it has none.
#[tactic(auto, using(crate::proofs::TableLaws::keeps_value, crate::proofs::TableLaws::value_joins))]
pub fn note_value<V: Copy>(
    table: &mut BTreeMap<Name, V>,
    name: &Name,
    value: V,
) -> Result<(), AllocError>
    ensures { OnOk result ((n : List ℕ) → value_of table.new n ≡ option_or (value_of table.old n) (if bytes_eq n name.now then Some value else None)) }
{
    if table.get(name).is_some() {
        return Ok(());
    }
    put_value(table, name, value)
}
