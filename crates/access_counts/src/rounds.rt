//! Texts that are unfolded, one level after another.

ghost use Rattle.std.specs.Prelude.{◌≡◌, ◌+◌, ◌&&◌, ℕ, List, IfOk, length, true};
ghost use Rattle.lisa_tree.specs.Descriptions.{DescriptionTree};
ghost use Rattle.std.specs.Option.{option_map_or};
ghost use Rattle.lisa_tree.specs.Operations.{sections_at, behavior_in, expression_in};
ghost use Rattle.access_counts.specs.Accesses.{value_accesses, place_accesses, statements_accesses};
ghost use Rattle.access_counts.specs.Ledgers.{Prices, HasRoom, IsAdded, Gains, capped, worth, ledger_worth};
ghost use Rattle.access_counts.specs.Rounds.{Rates, AllBelow, IsUnfolded, priced, worth_within, bare};

use crate::behaviors::note_behavior;
use crate::due::{Choices, due};
use crate::expressions::{note_place, note_value};
use crate::ledger::{Ledger, zeros};
use description_types::{operation_count, sections};
use lisa_tree::{Names, behavior, expression};
use lisa_words::NoMemory;
use std::alloc::Global;

// Notes what the expression of an operation does that is read so many times.
fn note_read<N: Names>(names: &N, operation: usize, times: u64, ledger: &mut Ledger)
    requires { HasRoom (N.tree names.now) ledger.old }
    ensures { IsAdded (N.tree names.now) operation ledger.old ledger.new times (λ a names'. option_map_or (value_accesses a names') (expression_in (sections_at (N.tree names.now) operation)) 0) }
{
    if let Some(expression) = expression(sections(names, operation)) {
        note_value(names, operation, times, expression, ledger);
    }
}

// The same of one that is assigned.
fn note_assigned<N: Names>(names: &N, operation: usize, times: u64, ledger: &mut Ledger)
    requires { HasRoom (N.tree names.now) ledger.old }
    ensures { IsAdded (N.tree names.now) operation ledger.old ledger.new times (λ a names'. option_map_or (place_accesses a names') (expression_in (sections_at (N.tree names.now) operation)) 0) }
{
    if let Some(expression) = expression(sections(names, operation)) {
        note_place(names, operation, times, expression, ledger);
    }
}

// Notes what the behaviour of an operation does that runs so many times.
fn note_run<N: Names>(names: &N, operation: usize, times: u64, ledger: &mut Ledger)
    requires { HasRoom (N.tree names.now) ledger.old }
    ensures { IsAdded (N.tree names.now) operation ledger.old ledger.new times (λ a names'. option_map_or (statements_accesses a names') (behavior_in (sections_at (N.tree names.now) operation)) 0) }
{
    if let Some(all) = behavior(sections(names, operation)) {
        note_behavior(names, operation, times, all, ledger);
    }
}

// Notes what all operations do whose expressions are read and assigned, and whose behaviours run, so many times.
fn note_all<N: Names>(names: &N, read: &[u64], assigned: &[u64], run: &[u64], ledger: &mut Ledger)
    requires room { HasRoom (N.tree names.now) ledger.old }
    requires read { length read.now ≡ length (N.tree names.now).operations }
    requires assigned { length assigned.now ≡ length (N.tree names.now).operations }
    requires run { length run.now ≡ length (N.tree names.now).operations }
    ensures room { HasRoom (N.tree names.now) ledger.new }
    ensures more { (p : Prices) → Gains (ledger_worth p ledger.old) (worth (λ b. (priced (N.tree names.now) p b).read) read.now + (worth (λ b. (priced (N.tree names.now) p b).assigned) assigned.now + worth (λ b. (priced (N.tree names.now) p b).run) run.now)) (ledger_worth p ledger.new) }
{
    for operation in 0..read.len() {
        note_read(names, operation, read[operation], ledger);
        note_assigned(names, operation, assigned[operation], ledger);
        note_run(names, operation, run[operation], ledger);
    }
}

// Unfolds the names of a ledger once.
fn round<N: Names, C: Choices>(
    alloc: Global,
    names: &N,
    choices: &C,
    ledger: Ledger,
) -> Result<Ledger, NoMemory>
    requires room { HasRoom (N.tree names.now) ledger }
    requires below { AllBelow (length (N.tree names.now).operations) (C.chosen choices.now) }
    ensures { IfOk result (IsUnfolded (N.tree names.now) (C.chosen choices.now) ledger) }
{
    let count = operation_count(names);
    let read = due(alloc, choices, count, &ledger.values)?;
    let assigned = due(alloc, choices, count, &ledger.places)?;
    let run = due(alloc, choices, count, &ledger.runs)?;
    let entries = names.entry_count();
    let values = zeros(alloc, entries)?;
    let places = zeros(alloc, entries)?;
    let runs = zeros(alloc, entries)?;
    let mut next = Ledger {
        reads: ledger.reads,
        writes: ledger.writes,
        values,
        places,
        runs,
    };
    note_all(names, &read, &assigned, &run, &mut next);
    Ok(next)
}

// Whether nothing is counted.
fn is_nothing(counts: &[u64]) -> bool
    ensures { result ≡ true → (price : ℕ → ℕ) → worth price counts.now ≡ 0 }
{
    for &count in counts {
        if count > 0 {
            return false;
        }
    }
    true
}

// Whether both are so.
fn both(left: bool, right: bool) -> bool
    ensures { result ≡ (left && right) }
{
    left && right
}

// Whether no name is left to be unfolded.
fn is_done(ledger: &Ledger) -> bool
    ensures { result ≡ true → (d : DescriptionTree) (chosen : ℕ → List ℕ) (k : ℕ) (rates : Rates) → ledger_worth (bare rates) ledger.now ≡ worth_within k d chosen rates ledger.now }
{
    let values = is_nothing(&ledger.values);
    let places = is_nothing(&ledger.places);
    let runs = is_nothing(&ledger.runs);
    let later = both(places, runs);
    both(values, later)
}

/// Unfolds the names of a ledger so many levels deep. Where nothing is left, it ends at once.
pub(crate) fn unfold<N: Names, C: Choices>(
    alloc: Global,
    names: &N,
    choices: &C,
    levels: usize,
    start: Ledger,
) -> Result<Ledger, NoMemory>
    requires room { HasRoom (N.tree names.now) start }
    requires below { AllBelow (length (N.tree names.now).operations) (C.chosen choices.now) }
    ensures room { IfOk result (HasRoom (N.tree names.now)) }
    ensures same { IfOk result (λ ledger. (rates : Rates) → capped (ledger_worth (bare rates) ledger) ≡ capped (worth_within levels (N.tree names.now) (C.chosen choices.now) rates start)) }
{
    let mut ledger = start;
    for _level in 0..levels {
        if is_done(&ledger) {
            return Ok(ledger);
        }
        let next = round(alloc, names, choices, ledger)?;
        ledger = next;
    }
    Ok(ledger)
}
