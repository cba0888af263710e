//! Which operations declare each name, and which stand above one.

ghost use Rattle.std.specs.Prelude.{◌≡◌, ◌&&◌, ℕ, List, Some, IfOk, OnOk, IsSome, true};
ghost use Rattle.std.specs.Str.{bytes_eq};
ghost use Rattle.graph_paths.specs.Paths.{is_in};
ghost use Rattle.meant_declarations.specs.Declaring.{row_of, noted_for, behind_if, IsNoted, AreNoted, has};

use lisa_tree::Names;
use lisa_words::Name;
use std::alloc::{AllocError, Global};
use std::collections::{BTreeMap, BTreeSet};

// Enters a name, where it isn't there: nothing is noted for it.
#[tactic(auto, using(crate::proofs::Noted::entered))]
fn enter(
    alloc: Global,
    table: &mut BTreeMap<Name, Vec<usize>>,
    name: &Name,
) -> Result<(), AllocError>
    ensures there { OnOk result (IsSome (row_of table.new name.now)) }
    ensures same { OnOk result ((n : List ℕ) → noted_for table.new n ≡ noted_for table.old n) }
{
    if table.get(name).is_some() {
        return Ok(());
    }
    table.insert(name.clone()?, Vec::new(alloc))?;
    Ok(())
}

// Notes an operation for a name that is there.
fn append(
    table: &mut BTreeMap<Name, Vec<usize>>,
    name: &Name,
    operation: usize,
) -> Result<(), AllocError>
    requires { IsSome (row_of table.old name.now) }
    ensures { OnOk result ((n : List ℕ) → noted_for table.new n ≡ behind_if (bytes_eq n name.now) operation (noted_for table.old n)) }
{
    if let Some(own) = table.get_mut(name) {
        own.push(operation)?;
    }
    Ok(())
}

// Notes an operation for a name.
fn note(
    alloc: Global,
    table: &mut BTreeMap<Name, Vec<usize>>,
    name: &Name,
    operation: usize,
) -> Result<(), AllocError>
    ensures { OnOk result ((n : List ℕ) → noted_for table.new n ≡ behind_if (bytes_eq n name.now) operation (noted_for table.old n)) }
{
    enter(alloc, table, name)?;
    append(table, name, operation)
}

// Notes the operation of a declared name for that name.
#[tactic(auto, using(crate::proofs::Noted::kept_behind, crate::proofs::Noted::stands_behind))]
fn note_entry<N: Names>(
    alloc: Global,
    names: &N,
    entry: usize,
    table: &mut BTreeMap<Name, Vec<usize>>,
) -> Result<(), AllocError>
    ensures kept { OnOk result ((n : List ℕ) (p : ℕ) → is_in p (noted_for table.old n) ≡ true → is_in p (noted_for table.new n) ≡ true) }
    ensures noted { OnOk result (IsNoted (N.tree names.now) table.new entry) }
{
    if let Some(name) = names.name_at(entry) {
        note(alloc, table, name, names.owner_at(entry))?;
    }
    Ok(())
}

/// For each name the operations that declare it.
pub(crate) fn operations_by_name<N: Names>(
    alloc: Global,
    names: &N,
) -> Result<BTreeMap<Name, Vec<usize>>, AllocError>
    ensures { IfOk result (λ table. AreNoted (N.tree names.now) table) }
{
    let mut table = BTreeMap::new(alloc);
    for entry in 0..names.entry_count() {
        note_entry(alloc, names, entry, &mut table)?;
    }
    Ok(table)
}

/// What is noted for a name.
pub(crate) fn noted_for<'a>(table: &'a BTreeMap<Name, Vec<usize>>, name: &Name) -> &'a [usize]
    ensures { result.now ≡ noted_for table.now name.now }
{
    match table.get(name) {
        Some(operations) => operations.as_slice(),
        None => &[],
    }
}

/// Numbers as a set.
#[tactic(auto, using(crate::proofs::Noted::one_more))]
pub(crate) fn set_of(alloc: Global, numbers: &[usize]) -> Result<BTreeSet<usize>, AllocError>
    ensures { IfOk result (λ set. (p : ℕ) → has set p ≡ is_in p numbers.now) }
{
    let mut set = BTreeSet::new(alloc);
    for &number in numbers {
        set.insert(number)?;
    }
    Ok(set)
}

// Adds a number, where a set has it.
fn add_if_in(kept: &mut Vec<usize>, number: usize, set: &BTreeSet<usize>) -> Result<(), AllocError>
    ensures { OnOk result (kept.new.items ≡ behind_if (has set.now number) number kept.old.items) }
{
    if set.contains(&number) {
        kept.push(number)?;
    }
    Ok(())
}

/// The numbers that a set has.
#[tactic(auto, using(crate::proofs::Noted::one_more_kept))]
pub(crate) fn common_numbers(
    alloc: Global,
    numbers: &[usize],
    set: &BTreeSet<usize>,
) -> Result<Vec<usize>, AllocError>
    ensures { IfOk result (λ kept. (p : ℕ) → is_in p kept.items ≡ (is_in p numbers.now && has set.now p)) }
{
    let mut kept = Vec::new(alloc);
    for &number in numbers {
        add_if_in(&mut kept, number, set)?;
    }
    Ok(kept)
}
