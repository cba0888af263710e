//! For each operation a table of the names that it declares.

ghost use Rattle.std.specs.Prelude.{◌≡◌, ◌<◌, ◌&&◌, ℕ, List, Some, None, IfOk, OnOk, length, cond, nat_eq, position, true};
ghost use Rattle.std.specs.List.{list_all};
ghost use Rattle.std.specs.Option.{option_or};
ghost use Rattle.lisa_tree.specs.Same.{same_name};
ghost use Rattle.description_tables.specs.Laws.{declares, find_in, is_owned_below};

use crate::listing::Declared;
use crate::places::place_of;
use lisa_words::Name;
use name_tables::note_value;
use std::alloc::{AllocError, Global};
use std::collections::BTreeMap;

// So many empty tables.
#[tactic(auto, using(crate::proofs::Found::found_none))]
fn no_tables(alloc: Global, count: usize) -> Result<Vec<BTreeMap<Name, usize>>, AllocError>
    ensures length { IfOk result (λ tables. length tables.items ≡ count) }
    ensures none { IfOk result (λ tables. (o : ℕ) → (n : List ℕ) → find_in tables.items o n ≡ None) }
{
    let mut tables = Vec::new(alloc);
    for _number in 0..count {
        tables.push(BTreeMap::new(alloc))?;
    }
    Ok(tables)
}

// Notes a name that an operation declares, if it declares it here first.
#[tactic(auto, using(crate::proofs::Found::found_entered))]
fn enter_declared(
    tables: &mut Vec<BTreeMap<Name, usize>>,
    operation: usize,
    name: &Name,
    place: usize,
) -> Result<(), AllocError>
    requires { operation < length tables.old.items }
    ensures length { length tables.new.items ≡ length tables.old.items }
    ensures found { OnOk result ((o : ℕ) → (n : List ℕ) → find_in tables.new.items o n ≡ option_or (find_in tables.old.items o n) (cond (nat_eq operation o && same_name n name.now) (Some place) None)) }
{
    note_value(&mut tables[operation], name, place)?;
    Ok(())
}

// Where each operation declares each name first.
pub(crate) fn index_names(
    alloc: Global,
    count: usize,
    entries: &[Declared<'_>],
) -> Result<Vec<BTreeMap<Name, usize>>, AllocError>
    requires { list_all (is_owned_below count) entries.now ≡ true }
    ensures { IfOk result (λ tables. (o : ℕ) → (n : List ℕ) → find_in tables.items o n ≡ position (declares o n) entries.now) }
{
    let mut tables = no_tables(alloc, count)?;
    for (place, entry) in entries.iter().enumerate() {
        enter_declared(&mut tables, entry.operation(), entry.name(), place)?;
    }
    Ok(tables)
}

// Where an operation declares a name first.
#[tactic(auto, using(crate::proofs::Found::found_at, crate::proofs::Found::found_past))]
pub(crate) fn find(tables: &[BTreeMap<Name, usize>], operation: usize, name: &Name) -> Option<usize>
    ensures { result ≡ find_in tables.now operation name.now }
{
    if operation < tables.len() {
        place_of(&tables[operation], name)
    } else {
        None
    }
}
