//! The operations above each operation.

ghost use Rattle.std.specs.Prelude.{◌≡◌, ◌<◌, ◌∷◌, [], ℕ, IfOk, OnOk, length, nat_eq, true};
ghost use Rattle.std.specs.List.{list_all, dedup};
ghost use Rattle.graph_paths.specs.Paths.{targets};
ghost use Rattle.lisa_tree.specs.Descriptions.{description_tree};
ghost use Rattle.lisa_tree.specs.Declarations.{listings};
ghost use Rattle.description_tables.specs.Laws.{above_chosen, are_below, chooses_below, ends_in, Joins};

use crate::choices::Choice;
use crate::globals::Globals;
use std::alloc::{AllocError, Global};

// So many empty rows.
#[tactic(auto, using(crate::proofs::Rows::row_none))]
pub(crate) fn no_rows(alloc: Global, count: usize) -> Result<Vec<Vec<usize>>, AllocError>
    ensures length { IfOk result (λ rows. length rows.items ≡ count) }
    ensures none { IfOk result (λ rows. (o : ℕ) → targets rows.items o ≡ []) }
{
    let mut rows = Vec::new(alloc);
    for _number in 0..count {
        rows.push(Vec::new(alloc))?;
    }
    Ok(rows)
}

#[tactic(auto, using(crate::proofs::Rows::ends_at))]
fn ends_in(row: &[usize], number: usize) -> bool
    ensures { result ≡ ends_in row.now number }
{
    match row {
        [] => false,
        [.., last] => number == *last,
    }
}

// Adds a number, unless the row ends in it.
fn add_once(row: &mut Vec<usize>, number: usize) -> Result<(), AllocError>
    ensures { OnOk result (Joins row.old.items row.new.items (number ∷ [])) }
{
    if ends_in(row, number) {
        return Ok(());
    }
    row.push(number)?;
    Ok(())
}

// Notes that an operation lists another one.
fn add_listing(rows: &mut Vec<Vec<usize>>, owner: usize, number: usize) -> Result<(), AllocError>
    requires { number < length rows.old.items }
    ensures length { length rows.new.items ≡ length rows.old.items }
    ensures added { OnOk result ((o : ℕ) → Joins (targets rows.old.items o) (targets rows.new.items o) (listings owner o (number ∷ []))) }
{
    add_once(&mut rows[number], owner)?;
    Ok(())
}

// Notes that an operation lists each of these.
fn add_listings(
    rows: &mut Vec<Vec<usize>>,
    owner: usize,
    numbers: &[usize],
) -> Result<(), AllocError>
    requires { are_below (length rows.old.items) numbers.now ≡ true }
    ensures length { length rows.new.items ≡ length rows.old.items }
    ensures added { OnOk result ((o : ℕ) → Joins (targets rows.old.items o) (targets rows.new.items o) (listings owner o numbers.now)) }
{
    for number in numbers {
        add_listing(rows, owner, *number)?;
    }
    Ok(())
}

// Notes what a choice lists, if an alias doesn't declare it.
fn add_choice(
    globals: &Globals<'_>,
    rows: &mut Vec<Vec<usize>>,
    choice: &Choice,
) -> Result<(), AllocError>
    requires { chooses_below (length rows.old.items) choice.now ≡ true }
    ensures length { length rows.new.items ≡ length rows.old.items }
    ensures added { OnOk result ((o : ℕ) → Joins (targets rows.old.items o) (targets rows.new.items o) (above_chosen (description_tree globals.now.description.now) o (choice.now ∷ []))) }
{
    if globals.is_alias(choice.operation()) {
        return Ok(());
    }
    add_listings(rows, choice.operation(), choice.alternatives())?;
    Ok(())
}

// For each of so many operations those above it, each once.
pub(crate) fn list_above(
    alloc: Global,
    globals: &Globals<'_>,
    count: usize,
    choices: &[Choice],
) -> Result<Vec<Vec<usize>>, AllocError>
    requires { list_all (chooses_below count) choices.now ≡ true }
    ensures { IfOk result (λ rows. (o : ℕ) → targets rows.items o ≡ dedup nat_eq (above_chosen (description_tree globals.now.description.now) o choices.now)) }
{
    let mut rows = no_rows(alloc, count)?;
    for choice in choices {
        add_choice(globals, &mut rows, choice)?;
    }
    Ok(rows)
}
